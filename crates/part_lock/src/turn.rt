//! One turn of a part, from its taking to its giving back.
ghost use Rattle.std.specs.Prelude.{◌≡◌, ◌≢◌, ℕ, ◌+◌, ◌<◌, ◌≤◌, ◌++◌, [], ◌∷◌, IfOk, vec_len, vec_capacity, false, true};
ghost use Rattle.tc_model.specs.Run.{tried};
ghost use Rattle.part_lock.specs.Lock.{Finds, hold, at_view, at_stage};
ghost use Rattle.part_lock.specs.Turns.{cause_of, HoldsOnly, noted_after, Judges, InTurn, InPlace, Acts};
ghost use Rattle.part_lock.specs.declared.view.Stage.TheVariants.{Taken, Idle};
ghost use Rattle.part_lock.specs.declared.view.View.TheVariants.{Works};

use crate::parts::{Parts, Seat};
use crate::rule::{Draw, Fail, Give, Halts, Return, Take};
use crate::view::{Judged, Key, Stall, Step};
use crate::words::{HALT, TICKET, word_of};
use std::alloc::Global;
use std::hint::spin_loop;
use std::sync::Wait;
use std::thread::yield_now;
use tc_model::{Acted, Entry, Machine, PartNo};
use tc_units::{ThreadNo, make_room};

/// Tries for a part, each a short rest behind the one before, until another thread may run: a part is held for less time than the
/// system needs to change threads.
const TRIES: u32 = 50;

/// The number of the cause that an answer sets, 0 for none.
fn number_of(answer: Step) -> u64
    ensures { result ≡ cause_of answer }
{
    match answer {
        Step::Full { ticket: _ } => 1,
        Step::Memory => 2,
        _ => 0,
    }
}

/// Lets the processor rest after a try that came too early, or another thread run after some of them: how many tries there were
/// since then.
fn wait_a_little(tries: u32) -> u32 {
    if tries < TRIES {
        spin_loop();
        tries + 1
    } else {
        yield_now();
        0
    }
}

/// Looks at a part, and makes room for its entry.
fn judge<M: Machine>(key: &Key<M>, stall: &mut Stall<M::Part>, local: &M::Local) -> Judged
    requires fits { M.fits key.now.machine stall.old.part local.now }
    ensures same { (stall.new.entries.items ≡ stall.old.entries.items) × (stall.new.part ≡ stall.old.part) }
    ensures judged { Judges M.rules key.now stall.old.part local.now (vec_len stall.new.entries) (vec_capacity stall.new.entries) result }
{
    if key.machine.waits(&stall.part, local) {
        return Judged::Waits;
    }
    if !key.machine.yields(&stall.part, local) {
        return Judged::Yields;
    }
    match make_room(&mut stall.entries) {
        Ok(()) => Judged::Goes,
        Err(_) => Judged::NoRoom,
    }
}

/// Acts, at once where the machine can, and enters the act. False where there is no memory.
fn act_on<M: Machine>(
    alloc: Global,
    key: &Key<M>,
    stall: &mut Stall<M::Part>,
    entry: Entry,
    local: &mut M::Local,
) -> bool
    requires fits { M.fits key.now.machine stall.old.part local.old }
    requires goes { (M.rules key.now.machine).waits stall.old.part local.old ≡ false }
    requires room { vec_len stall.old.entries < vec_capacity stall.old.entries }
    ensures moved { result ≡ true → (stall.new.entries.items ≡ stall.old.entries.items ++ entry ∷ [])
        × (stall.new.part ≡ ((M.rules key.now.machine).after stall.old.part local.old).0)
        × (local.new ≡ ((M.rules key.now.machine).after stall.old.part local.old).1) }
    ensures kept { result ≡ false → (stall.new.entries.items ≡ stall.old.entries.items) × (stall.new.part ≡ stall.old.part) × (local.new ≡ local.old) }
{
    let machine = &key.machine;
    let part = &mut stall.part;
    if !machine.stay(part, local) && machine.act(alloc, part, local).is_err() {
        return false;
    }
    stall.entries.push_reserved(entry);
    true
}

impl<M: Machine> Parts<M> {
    fn try_take(&self, seat: &mut Seat<M>, part: PartNo, thread: ThreadNo) -> bool
        requires seat { seat.old.table_id ≡ self.now.table.shared.table_id }
        requires part { part.0 < self.now.table.shared.table_id.slots }
        requires free { (w : _) × (seat.old.me ≡ (Works w, [])) × (w.stage ≡ Idle) × (w.thread ≡ thread.0) }
        ensures seat { (seat.new.table_id ≡ seat.old.table_id) × (seat.new.id ≡ seat.old.id) }
        ensures took { result ≡ true → (x : _) × (seat.new.me ≡ (at_view (at_stage (Taken (hold part.0 x))) seat.old.me.0, (part.0, x) ∷ [])) × Finds M.rules M.fits part.0 x seat.old.me.0 }
        ensures kept { result ≡ false → seat.new.me ≡ seat.old.me }
    {
        let slot = part.0 as usize;
        self.table
            .shared
            .compare_exchange::<Take<M>>(seat, word_of(slot), 0, thread.0 as u64 + 1)
            == 0
    }

    /// Waits for the part.
    pub(crate) fn take_turn<R: Wait>(
        &self,
        rt: &R,
        seat: &mut Seat<M>,
        part: PartNo,
        thread: ThreadNo,
    )
        requires seat { seat.old.table_id ≡ self.now.table.shared.table_id }
        requires part { part.0 < self.now.table.shared.table_id.slots }
        requires free { (w : _) × (seat.old.me ≡ (Works w, [])) × (w.stage ≡ Idle) × (w.thread ≡ thread.0) }
        ensures seat { (seat.new.table_id ≡ seat.old.table_id) × (seat.new.id ≡ seat.old.id) }
        ensures took { (x : _) × (seat.new.me ≡ (at_view (at_stage (Taken (hold part.0 x))) seat.old.me.0, (part.0, x) ∷ [])) × Finds M.rules M.fits part.0 x seat.old.me.0 }
    {
        let mut tries = 0;
        for _ in rt.forever() {
            if self.try_take(seat, part, thread) {
                return;
            }
            tries = wait_a_little(tries);
        }
        unreachable!()
    }

    fn judge_held(&self, seat: &mut Seat<M>, part: usize, local: &M::Local) -> Judged
        requires seat { seat.old.table_id ≡ self.now.table.shared.table_id }
        requires holds { (x : _) × HoldsOnly part x seat.old.me × M.fits self.now.key.machine x.part local.now }
        ensures seat { (seat.new.table_id ≡ seat.old.table_id) × (seat.new.id ≡ seat.old.id) }
        ensures same { (x : _) × (y : _) × HoldsOnly part x seat.old.me × (seat.new.me ≡ (seat.old.me.0, (part, y) ∷ []))
            × (y.entries.items ≡ x.entries.items) × (y.part ≡ x.part)
            × Judges M.rules self.now.key x.part local.now (vec_len y.entries) (vec_capacity y.entries) result }
    {
        let stall = seat.slot_mut(&self.table.shared, part);
        judge(&self.key, stall, local)
    }

    fn act_held(&self, seat: &mut Seat<M>, part: usize, entry: Entry, local: &mut M::Local) -> bool
        requires seat { seat.old.table_id ≡ self.now.table.shared.table_id }
        requires holds { (x : _) × HoldsOnly part x seat.old.me × (vec_len x.entries < vec_capacity x.entries)
            × M.fits self.now.key.machine x.part local.old × ((M.rules self.now.key.machine).waits x.part local.old ≡ false) }
        ensures seat { (seat.new.table_id ≡ seat.old.table_id) × (seat.new.id ≡ seat.old.id) }
        ensures done { (x : _) × (y : _) × HoldsOnly part x seat.old.me × (seat.new.me ≡ (seat.old.me.0, (part, y) ∷ []))
            × (result ≡ true → (y.entries.items ≡ x.entries.items ++ entry ∷ []) × (y.part ≡ ((M.rules self.now.key.machine).after x.part local.old).0)
            × (local.new ≡ ((M.rules self.now.key.machine).after x.part local.old).1))
            × (result ≡ false → (y.entries.items ≡ x.entries.items) × (y.part ≡ x.part) × (local.new ≡ local.old)) }
    {
        let stall = seat.slot_mut(&self.table.shared, part);
        act_on(self.alloc, &self.key, stall, entry, local)
    }

    /// From the taking of the part to its giving back.
    pub(crate) fn act_in(
        &self,
        seat: &mut Seat<M>,
        local: &mut M::Local,
        part: usize,
        thread: ThreadNo,
    ) -> Step
        requires seat { seat.old.table_id ≡ self.now.table.shared.table_id }
        requires part { (part < self.now.table.shared.table_id.slots) × (part < 65536) }
        requires turn { (w : _) × (x : _) × InTurn M.rules self.now.key M.fits thread.0 part local.old w x seat.old.me }
        ensures seat { (seat.new.table_id ≡ seat.old.table_id) × (seat.new.id ≡ seat.old.id) }
        ensures acts { (w : _) (x : _) → InTurn M.rules self.now.key M.fits thread.0 part local.old w x seat.old.me → Acts M.rules self.now.key w local.old local.new seat.new.me (hold part x) result }
    {
        let shared = &self.table.shared;
        let word = word_of(part);
        match self.judge_held(seat, part, local) {
            Judged::Waits => {
                shared.store::<Return>(seat, word, 0);
                Step::NotYet
            }
            Judged::Yields => {
                shared.store::<Return>(seat, word, 0);
                Step::Held
            }
            Judged::NoRoom => {
                shared.store::<Fail>(seat, word, 0);
                Step::Memory
            }
            Judged::Goes => self.act_now(seat, local, part, thread),
        }
    }

    /// Draws the ticket, acts, enters the act and gives the part back.
    fn act_now(
        &self,
        seat: &mut Seat<M>,
        local: &mut M::Local,
        part: usize,
        thread: ThreadNo,
    ) -> Step
        requires seat { seat.old.table_id ≡ self.now.table.shared.table_id }
        requires part { (part < self.now.table.shared.table_id.slots) × (part < 65536) }
        requires turn { (w : _) × (x : _) × (y : _) × InPlace M.rules self.now.key M.fits thread.0 part local.old w x y seat.old.me }
        ensures seat { (seat.new.table_id ≡ seat.old.table_id) × (seat.new.id ≡ seat.old.id) }
        ensures acts { (w : _) (x : _) (y : _) → InPlace M.rules self.now.key M.fits thread.0 part local.old w x y seat.old.me
            → Acts M.rules self.now.key w local.old local.new seat.new.me (hold part x) result }
    {
        let shared = &self.table.shared;
        let word = word_of(part);
        let ticket = shared.fetch_add::<Draw>(seat, TICKET, 1);
        if ticket >= u64::from(self.key.events) {
            shared.store::<Return>(seat, word, 0);
            return Step::Full { ticket };
        }
        let entry = Entry {
            ticket: ticket as u32,
            thread,
        };
        if !self.act_held(seat, part, entry, local) {
            shared.store::<Fail>(seat, word, 0);
            return Step::Memory;
        }
        shared.store::<Give<M>>(seat, word, 0);
        Step::Moved { ticket }
    }

    /// Raises the halt word to the cause that the answer sets.
    pub(crate) fn set_halt(&self, seat: &mut Seat<M>, answer: Step)
        requires seat { seat.old.table_id ≡ self.now.table.shared.table_id }
        requires idle { (w : _) × (seat.old.me ≡ (Works w, [])) × (w.stage ≡ Idle) × (cause_of answer ≢ 0 → w.cause ≡ cause_of answer) }
        ensures seat { (seat.new.table_id ≡ seat.old.table_id) × (seat.new.id ≡ seat.old.id) }
        ensures me { seat.new.me ≡ noted_after (cause_of answer) seat.old.me }
    {
        let cause = number_of(answer);
        if cause != 0 {
            self.table.shared.fetch_max::<Halts>(seat, HALT, cause);
        }
    }
}
