//! Keys in order, in room that is made at the opening.
ghost use Rattle.std.specs.List.{slice_index_or};
ghost use Rattle.std.specs.Prelude.{◌≡◌, ℕ, ◌+◌, ◌-◌, ◌*◌, ◌^◌, ◌<◌, ◌≤◌, ◌↔◌, true, false, None, [], ◌∷◌, length, slice_get, All, Contains, IsPermutation, IsTrue, IfOk, IfSome, insert, remove, nat_le, if◌then◌else◌};

use crate::key::SortKey;
use std::alloc::{AllocError, Global};
use std::marker::{Brand, Model};
use std::sync::ledger::{Blank, Ledger};
use tc_units::Steps;

/// The most keys of a list, so that a slot is numbered by a `u16`.
const MOST_KEYS: usize = 65_536;

/// How many places a key is looked for from another one's before it is searched.
const NEAR: usize = 8;

/// How many numbers are moved one by one, so that it is noted where each is put.
const FEW: usize = 16;

/// Keys in their order. Contracts see them so, and how many more there is room for. Each key lies in a
/// slot: one that comes or leaves moves numbers of slots, and no other key.
#[derive(Drop)]
pub struct SortedList<K: SortKey> {
    slots: Vec<K>,
    /// The numbers of all slots: first those of the keys, in the keys' order.
    order: Vec<u16>,
    len: usize,
    /// By slot: where its number was put last. It stands there still, or near it.
    places: Vec<u16>,
    /// Where the key stands that was changed last, if it still stands there: it may well be the next one.
    recent: usize,
}

impl<K: SortKey> Model for SortedList<K> {
    ghost use Rattle.std.specs.Prelude.{◌-◌, length};
    ghost use Rattle.sorted_list.specs.Contents.{Contents, keys_of};
    ghost use Rattle.sorted_list.specs.Kept.{IsKept};

    ghost Value = { Contents K };

    ghost view = { λ l. record { keys = keys_of K.sample l.slots.items l.order.items l.len; spare = length l.order.items - l.len } };

    ghost invariant = { λ l. IsKept K.before K.sample l.slots.items l.order.items l.len };
}

/// Notes where the number of a slot is put.
fn note(places: &mut [u16], slot: u16, place: usize)
    requires { place < 65536 }
{
    if let Some(noted) = places.get_mut(usize::from(slot)) {
        *noted = place as u16;
    }
}

/// Moves a number towards the front, one place after another.
fn move_back(order: &mut [u16], places: &mut [u16], place: usize, target: usize, slot: u16)
    requires held { slice_get order.old place ≡ Some slot }
    requires back { target ≤ place }
    requires most { length order.old ≤ 65536 }
    ensures after { order.new ≡ insert (remove order.old place) target slot }
    ensures len { length order.new ≡ length order.old }
{
    for step in 0..place - target {
        let at = place - step;
        let moved = order[at - 1];
        order[at] = moved;
        order[at - 1] = slot;
        note(places, moved, at);
    }
    note(places, slot, target);
}

/// Moves a number towards the end, one place after another.
fn move_on(order: &mut [u16], places: &mut [u16], place: usize, last: usize, slot: u16)
    requires held { slice_get order.old place ≡ Some slot }
    requires on { place ≤ last }
    requires within { last < length order.old }
    requires most { length order.old ≤ 65536 }
    ensures after { order.new ≡ insert (remove order.old place) last slot }
    ensures len { length order.new ≡ length order.old }
{
    for at in place..last {
        let moved = order[at + 1];
        order[at] = moved;
        order[at + 1] = slot;
        note(places, moved, at);
    }
    note(places, slot, last);
}

/// Takes the number at a place out, and puts it in before a target: those between the two move by one. Where they are many
/// it isn't noted where they are put.
#[inline(always)]
fn turn(order: &mut [u16], places: &mut [u16], place: usize, target: usize, slot: u16)
    requires held { slice_get order.old place ≡ Some slot }
    requires within { target ≤ length order.old }
    requires most { length order.old ≤ 65536 }
    ensures after { order.new ≡ insert (remove order.old place) (if nat_le target place then target else target - 1) slot }
    ensures len { length order.new ≡ length order.old }
{
    if target <= place {
        if place - target <= FEW {
            move_back(order, places, place, target, slot);
        } else {
            order[target..place + 1].rotate_right(1);
            order[target] = slot;
            note(places, slot, target);
        }
    } else if target - place <= FEW {
        move_on(order, places, place, target - 1, slot);
    } else {
        order[place..target].rotate_left(1);
        order[target - 1] = slot;
        note(places, slot, target - 1);
    }
}

impl<K: SortKey> SortedList<K> {
    ghost use Rattle.sorted_list.specs.Order.{IsInOrder, IsFirstFrom, IsFirst, IsLast};
    ghost use Rattle.sorted_list.specs.Search.{IsPlaceOf};

    /// A list without keys, with room for `room` of them. Want of memory is answered for more than 65,536
    /// too.
    pub fn open(alloc: Global, room: usize) -> Result<Self, AllocError>
        ensures keys { IfOk result (λ list. list.keys ≡ []) }
        ensures spare { IfOk result (λ list. list.spare ≡ room) }
    {
        if room > MOST_KEYS {
            return Err(AllocError);
        }
        let mut order = Vec::with_capacity(alloc, room)?;
        for slot in 0..room {
            order.push(slot as u16)?;
        }
        Ok(SortedList {
            slots: vec![in alloc; K::sample(); room]?,
            order,
            len: 0,
            places: vec![in alloc; 0; room]?,
            recent: 0,
        })
    }

    /// How many keys there are.
    pub fn len(&self) -> usize
        ensures len { result ≡ length self.now.keys }
        ensures order { IsInOrder K.before self.now.keys }
    {
        self.len
    }

    /// Whether there is no room for another key.
    pub fn is_full(&self) -> bool
        ensures { IsTrue result ↔ (self.now.spare ≡ 0) }
    {
        self.len == self.order.len()
    }

    /// The key at a place.
    fn at(&self, place: usize) -> K
        requires { place < length self.now.keys }
        ensures { slice_get self.now.keys place ≡ Some result }
    {
        self.slots[self.order[place] as usize]
    }

    /// Reads a key to compare it: the one way to a key from a search, and one step.
    fn read<L: Ledger>(&self, place: usize, steps: &mut Steps<L>) -> K
        requires { place < length self.now.keys }
        ensures key { slice_get self.now.keys place ≡ Some result }
        ensures step { steps.new ≡ steps.old + 1 }
    {
        steps.tick();
        self.at(place)
    }

    /// How many keys come before a key.
    fn search<L: Ledger>(&self, key: K, steps: &mut Steps<L>) -> usize
        ensures order { IsInOrder K.before self.now.keys }
        ensures place { IsPlaceOf K.before self.now.keys key result }
        ensures counted { steps.old ≤ steps.new }
        ensures cost { 2 ^ (steps.new - steps.old) ≤ 2 * length self.now.keys + 1 }
    {
        let mut low = 0;
        let mut high = self.len();
        while low < high {
            let middle = low + (high - low) / 2;
            if self.read(middle, steps).comes_before(key) {
                low = middle + 1;
            } else {
                high = middle;
            }
        }
        low
    }

    /// The first key that doesn't come before `from`. At most as many keys are read as the number of keys
    /// has binary digits.
    pub fn first_from<L: Ledger>(&self, from: K, steps: &mut Steps<L>) -> Option<K>
        ensures found { IfSome result (IsFirstFrom K.before self.now.keys from) }
        ensures none { (result ≡ None) ↔ All (λ key. K.before key from ≡ true) self.now.keys }
        ensures counted { steps.old ≤ steps.new }
        ensures cost { 2 ^ (steps.new - steps.old) ≤ 2 * length self.now.keys + 1 }
    {
        let place = self.search(from, steps);
        if place < self.len() {
            Some(self.at(place))
        } else {
            None
        }
    }

    /// The same, by steps that are counted on a ledger of its own.
    fn found_by<L: Ledger>(&self, from: K, blank: Blank) -> Option<K>
        requires name { blank.name ≡ L.name }
        requires parts { blank.parts ≡ L.parts }
        requires some { 0 < L.parts }
        ensures found { IfSome result (IsFirstFrom K.before self.now.keys from) }
        ensures none { (result ≡ None) ↔ All (λ key. K.before key from ≡ true) self.now.keys }
    {
        self.first_from(from, &mut Steps::<L>::new(blank))
    }

    /// The first key that doesn't come before `from`, for a caller that counts no steps.
    pub fn first_at_or_after(&self, from: K) -> Option<K>
        ensures found { IfSome result (IsFirstFrom K.before self.now.keys from) }
        ensures none { (result ≡ None) ↔ All (λ key. K.before key from ≡ true) self.now.keys }
    {
        self.found_by::<Brand>(from, Blank::new(1))
    }

    /// The first key.
    #[tactic(auto, using(crate::proofs::Found::first_is))]
    pub fn first(&self) -> Option<K>
        ensures found { IfSome result (IsFirst K.before self.now.keys) }
        ensures none { (result ≡ None) ↔ (self.now.keys ≡ []) }
    {
        if self.len() == 0 {
            return None;
        }
        Some(self.at(0))
    }

    /// The last key.
    #[tactic(auto, using(crate::proofs::Found::last_is))]
    pub fn last(&self) -> Option<K>
        ensures found { IfSome result (IsLast K.before self.now.keys) }
        ensures none { (result ≡ None) ↔ (self.now.keys ≡ []) }
    {
        let place = self.len().checked_sub(1)?;
        Some(self.at(place))
    }

    /// How many keys come before a key, by steps that are counted on a ledger of its own.
    fn place_by<L: Ledger>(&self, key: K, blank: Blank) -> usize
        requires name { blank.name ≡ L.name }
        requires parts { blank.parts ≡ L.parts }
        requires some { 0 < L.parts }
        ensures order { IsInOrder K.before self.now.keys }
        ensures place { IsPlaceOf K.before self.now.keys key result }
    {
        self.search(key, &mut Steps::<L>::new(blank))
    }

    /// How many keys come before a key.
    fn place(&self, key: K) -> usize
        ensures order { IsInOrder K.before self.now.keys }
        ensures place { IsPlaceOf K.before self.now.keys key result }
    {
        self.place_by::<Brand>(key, Blank::new(1))
    }

    /// Whether the key at a place comes before a key: then all up to it do, and else none from it on does.
    fn is_before(&self, place: usize, key: K) -> bool
        requires { place < length self.now.keys }
        ensures early { result ≡ true → (i : ℕ) (d : K) → i ≤ place → K.before (slice_index_or self.now.keys i d) key ≡ true }
        ensures behind { result ≡ false → (i : ℕ) (d : K) → place ≤ i → i < length self.now.keys
            → K.before (slice_index_or self.now.keys i d) key ≡ false }
    {
        let _len = self.len();
        self.at(place).comes_before(key)
    }

    /// How many keys come before a key, where all before a place do: they are looked at from there on, a few at most.
    fn later(&self, near: usize, key: K) -> usize
        requires within { near ≤ length self.now.keys }
        requires early { (i : ℕ) (d : K) → i < near → K.before (slice_index_or self.now.keys i d) key ≡ true }
        ensures { IsPlaceOf K.before self.now.keys key result }
    {
        let few = NEAR.min(self.len() - near);
        for step in 0..few {
            if !self.is_before(near + step, key) {
                return near + step;
            }
        }
        self.place(key)
    }

    /// The same, where none from a place on comes before it: those before the place are looked at from the last one back.
    fn earlier(&self, near: usize, key: K) -> usize
        requires within { near ≤ length self.now.keys }
        requires behind { (i : ℕ) (d : K) → near ≤ i → i < length self.now.keys
            → K.before (slice_index_or self.now.keys i d) key ≡ false }
        ensures { IsPlaceOf K.before self.now.keys key result }
    {
        for step in 0..NEAR {
            if step == near {
                return 0;
            }
            if self.is_before(near - step - 1, key) {
                return near - step;
            }
        }
        self.place(key)
    }

    /// How many keys come before a key, which is found without a search where that is near a place.
    fn place_near(&self, near: usize, key: K) -> usize
        ensures order { IsInOrder K.before self.now.keys }
        ensures place { IsPlaceOf K.before self.now.keys key result }
    {
        let near = near.min(self.len());
        if near == 0 || self.is_before(near - 1, key) {
            self.later(near, key)
        } else {
            self.earlier(near - 1, key)
        }
    }

    /// How many keys come before a key, which is looked for from another one on that stands at a place.
    fn place_from(&self, place: usize, from: K, key: K) -> usize
        requires { slice_get self.now.keys place ≡ Some from }
        ensures order { IsInOrder K.before self.now.keys }
        ensures place { IsPlaceOf K.before self.now.keys key result }
    {
        // The keys are in order.
        let _len = self.len();
        if from.comes_before(key) {
            self.later(place + 1, key)
        } else {
            self.earlier(place, key)
        }
    }

    /// Where a key stands, which is looked for near a place.
    fn find(&self, near: usize, key: K) -> usize
        requires { Contains self.now.keys key }
        ensures { slice_get self.now.keys result ≡ Some key }
    {
        if near < self.len() {
            let other = self.at(near);
            if !other.comes_before(key) && !key.comes_before(other) {
                return near;
            }
        }
        self.place_near(near, key)
    }

    /// Where the number of a slot was put last, or the first place.
    fn place_of(&self, slot: usize) -> usize {
        match self.places.get(slot) {
            Some(place) => usize::from(*place),
            None => 0,
        }
    }

    /// Adds a key.
    pub fn insert(&mut self, key: K)
        requires { 0 < self.old.spare }
        ensures keys { IsPermutation (key ∷ self.old.keys) self.new.keys }
        ensures held { Contains self.new.keys key }
        ensures spare { self.new.spare + 1 ≡ self.old.spare }
    {
        let place = self.place(key);
        let slot = self.order[self.len];
        self.slots[slot as usize] = key;
        turn(&mut self.order, &mut self.places, self.len, place, slot);
        self.len += 1;
    }

    /// Takes a key out.
    pub fn remove(&mut self, key: K)
        requires { Contains self.old.keys key }
        ensures keys { IsPermutation self.old.keys (key ∷ self.new.keys) }
        ensures spare { self.new.spare ≡ self.old.spare + 1 }
    {
        let place = self.place(key);
        let slot = self.order[place];
        turn(&mut self.order, &mut self.places, place, self.len, slot);
        self.len -= 1;
    }

    /// Puts a key in place of another one.
    pub fn rekey(&mut self, from: K, to: K)
        requires { Contains self.old.keys from }
        ensures keys { IsPermutation (to ∷ self.old.keys) (from ∷ self.new.keys) }
        ensures held { Contains self.new.keys to }
        ensures spare { self.new.spare ≡ self.old.spare }
    {
        self.recent = self.rekey_near(self.recent, from, to);
    }

    /// The same, of a key that is looked for first where a slot has it. A list from which no key was taken out has its keys in
    /// slots by the order in which they came.
    pub fn rekey_slot(&mut self, slot: usize, from: K, to: K)
        requires { Contains self.old.keys from }
        ensures keys { IsPermutation (to ∷ self.old.keys) (from ∷ self.new.keys) }
        ensures held { Contains self.new.keys to }
        ensures spare { self.new.spare ≡ self.old.spare }
    {
        let near = self.place_of(slot);
        self.rekey_near(near, from, to);
    }

    /// The same, of a key that is looked for near a place first. Answers where the other key stands then.
    pub fn rekey_near(&mut self, near: usize, from: K, to: K) -> usize
        requires { Contains self.old.keys from }
        ensures keys { IsPermutation (to ∷ self.old.keys) (from ∷ self.new.keys) }
        ensures held { Contains self.new.keys to }
        ensures spare { self.new.spare ≡ self.old.spare }
        ensures placed { slice_get self.new.keys result ≡ Some to }
    {
        let place = self.find(near, from);
        let target = self.place_from(place, from, to);
        let slot = self.order[place];
        self.slots[slot as usize] = to;
        turn(&mut self.order, &mut self.places, place, target, slot);
        target - usize::from(place < target)
    }
}
