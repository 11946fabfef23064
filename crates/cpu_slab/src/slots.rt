//! The slots of one class, whose memory is written only up to the highest slot that was stored in.
ghost use Rattle.std.specs.Prelude.{◌≡◌, ◌<◌, length, replicate, slice_set, IfOk};
ghost use Rattle.std.specs.List.{slice_index_or};
ghost use Rattle.cpu_slab.specs.Slots.{null};

use std::alloc::{AllocError, Global};
use std::marker::Model;
use tc_units::Addr;

/// What a slot holds that nothing was stored in.
const NULL: Addr = Addr(0);

/// The slots of one class, as many as there is room for.
#[derive(Drop)]
pub(crate) struct ClassSlots {
    /// The slots that were written, which are the first ones.
    written: Vec<Addr>,
}

impl Model for ClassSlots {
    ghost use Rattle.std.specs.Prelude.{List, vec_capacity};
    ghost use Rattle.tc_units.specs.declared.units.Addr.{Addr};
    ghost use Rattle.cpu_slab.specs.Layout.{all_slots};

    ghost Value = { List Addr };

    ghost view = { λ s. all_slots s.written.items (vec_capacity s.written) };
}

impl ClassSlots {
    /// So many slots, in which nothing was stored. Their memory is taken here, and none of it is written.
    pub fn open(alloc: Global, count: usize) -> Result<Self, AllocError>
        ensures { IfOk result (λ slots. slots ≡ replicate count null) }
    {
        Ok(ClassSlots {
            written: Vec::with_capacity(alloc, count)?,
        })
    }

    /// What a slot holds.
    pub fn get(&self, i: usize) -> Addr
        ensures { result ≡ slice_index_or self.now i null }
    {
        match self.written.get(i) {
            Some(a) => *a,
            None => NULL,
        }
    }

    /// Stores an address in a slot, and changes no other. Slots below it that weren't written are
    /// written now.
    pub fn set(&mut self, i: usize, a: Addr)
        requires { i < length self.old }
        ensures { self.new ≡ slice_set self.old i a }
    {
        while self.written.len() <= i {
            self.written.push_reserved(NULL);
        }
        self.written[i] = a;
    }
}
