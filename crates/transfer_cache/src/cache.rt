//! A list of free objects with room for a number of them, last in, first out.
ghost use Rattle.std.specs.Prelude.{◌≡◌, ◌+◌, ◌-◌, ◌≤◌, ◌<◌, ◌↔◌, Bool, [], ◌++◌, length, min, count_by, IfOk, IsTrue};
ghost use Rattle.std.specs.Bool.{OnTrue, OnFalse};
ghost use Rattle.tc_units.specs.declared.units.Addr.{Addr};
ghost use Rattle.transfer_cache.specs.Transfer.{last_first, without_last};

use std::alloc::{AllocError, Global};
use std::marker::Model;
use tc_units::{Addr, Bag};

/// The objects that the caches of one size class hand to one another, oldest first. It is the transfer
/// cache of TCMalloc's design document: what was put last is taken first, so that it is still warm.
#[derive(Drop)]
pub struct TransferCache {
    objects: Vec<Addr>,
    room: u32,
}

impl Model for TransferCache {
    ghost use Rattle.std.specs.Prelude.{◌≤◌, ◌<◌, ◌^◌, vec_len, vec_capacity};
    ghost use Rattle.transfer_cache.specs.Transfer.{Transfer};

    ghost Value = { Transfer };

    ghost view = { λ c. record { objects = c.objects.items; room = c.room } };

    ghost invariant = { λ c. (vec_len c.objects ≤ c.room) × (c.room ≤ vec_capacity c.objects) × (c.room < 2 ^ 32) };
}

impl TransferCache {
    /// An empty cache with room for `room` objects. All its memory is taken here.
    pub fn open(alloc: Global, room: u32) -> Result<Self, AllocError>
        ensures { IfOk result (λ cache. cache ≡ record { objects = []; room = room }) }
    {
        Ok(TransferCache {
            objects: Vec::with_capacity(alloc, room as usize)?,
            room,
        })
    }

    /// How many objects it holds.
    pub fn held(&self) -> u32
        ensures held { result ≡ length self.now.objects }
        ensures within { result ≤ self.now.room }
    {
        self.objects.len() as u32
    }

    /// Takes the last `n` objects, or all where it holds fewer, and appends them to `out`, last first.
    /// Says how many came.
    pub fn take(&mut self, n: u32, out: &mut Bag<Addr>) -> u32
        requires { n ≤ out.old.spare }
        ensures count { result ≡ min n (length self.old.objects) }
        ensures objects { self.new ≡ record self.old { objects = without_last n self.old.objects } }
        ensures out { out.new.items ≡ out.old.items ++ last_first n self.old.objects }
        ensures spare { out.new.spare + result ≡ out.old.spare }

        // Objects move from the one list to the other: none is lost, and none comes twice.
        ensures moves { (test : Addr → Bool) → count_by test self.new.objects + count_by test out.new.items
            ≡ count_by test self.old.objects + count_by test out.old.items }
    {
        let held = self.held();
        let count = n.min(held);
        for taken in 0..count {
            out.push(self.objects[(held - 1 - taken) as usize]);
        }
        self.objects.truncate((held - count) as usize);
        count
    }

    /// Appends a whole list in order where it fits, and else changes nothing. Says whether it fits.
    pub fn put(&mut self, list: &[Addr]) -> bool
        ensures fits { IsTrue result ↔ (length self.old.objects + length list.now ≤ self.old.room) }
        ensures put { OnTrue result (self.new ≡ record self.old { objects = self.old.objects ++ list.now }) }
        ensures over { OnFalse result (self.new ≡ self.old) }
    {
        if list.len() > self.room as usize - self.objects.len() {
            return false;
        }
        for object in list {
            self.objects.push_reserved(*object);
        }
        true
    }
}

#[cfg(test)]
mod tests {
    use super::*;
    use std::test::Fail;

    #[test]
    fn gives_the_last_first(rt: HostRuntime) -> Result<(), Fail> {
        let mut out = Bag::open(rt.alloc(), 5)?;
        let mut cache = TransferCache::open(rt.alloc(), 4)?;
        assert_eq!(rt; cache.take(2, &mut out), 0);
        assert!(rt; cache.put([Addr(8), Addr(16)].as_slice()));

        // One more than the room that is left: nothing goes in.
        assert!(rt; !cache.put([Addr(24), Addr(32), Addr(40)].as_slice()));
        assert_eq!(rt; cache.held(), 2);

        // Exactly the room that is left.
        assert!(rt; cache.put([Addr(24), Addr(32)].as_slice()));
        assert_eq!(rt; cache.held(), 4);
        assert_eq!(rt; cache.take(0, &mut out), 0);
        assert_eq!(rt; cache.take(3, &mut out), 3);
        assert_eq!(rt; out.as_slice(), [Addr(32), Addr(24), Addr(16)].as_slice());
        assert_eq!(rt; cache.held(), 1);
        assert_eq!(rt; cache.take(2, &mut out), 1);
        assert_eq!(rt;
            out.as_slice(),
            [Addr(32), Addr(24), Addr(16), Addr(8)].as_slice()
        );
        Ok(())
    }

    #[test]
    fn a_room_of_nothing(rt: HostRuntime) -> Result<(), Fail> {
        let mut cache = TransferCache::open(rt.alloc(), 0)?;
        assert!(rt; cache.put([].as_slice()));
        assert!(rt; !cache.put([Addr(8)].as_slice()));
        assert_eq!(rt; cache.held(), 0);
        Ok(())
    }
}
