//! The registers of a thread.
ghost use Rattle.std.specs.Prelude.{◌≡◌, ◌+◌, ◌-◌, ◌^◌, ◌<◌, [], min, IfOk};

use crate::bags;
use crate::sequence::{Pc, Seq};
use std::alloc::{AllocError, Global};
use tc_units::{Addr, Bag, Class, ThreadNo};

/// Room for objects in a hand: an answer, a batch, and all slots of a class (this project's own limits).
pub const HAND_ROOM: usize = 2177;

/// Room for objects that a sequence has loaded: the greatest batch.
pub const LOADED_ROOM: usize = 128;

/// The registers of a thread, which last from one act to the next.
#[derive(Drop)]
pub struct Regs {
    pub thread: ThreadNo,
    pub class: Class,
    pub seq: Seq,
    /// The next instruction.
    pub pc: Pc,
    /// The epoch of the CPU when the thread last switched in or went back.
    pub epoch: u64,
    /// The top as Header read it.
    pub top: u32,
    /// Objects to copy.
    pub count: u32,
    /// Executed instructions of the call.
    pub ran: u32,
    /// Objects that the thread owns.
    pub hand: Bag<Addr>,
    /// Copies of objects, which belong to nobody until the commit.
    pub loaded: Bag<Addr>,
}

impl Regs {
    ghost use Rattle.rseq_core.specs.Acts.{dropped};
    ghost use Rattle.rseq_core.specs.Tables.{is_pop, wanted};
    ghost use Rattle.rseq_core.specs.Bags.{emptied};
    ghost use Rattle.rseq_core.specs.Registers.{first_regs, set_for};
    ghost use Rattle.rseq_core.specs.declared.sequence.Pc.TheVariants.{Begin};

    /// The registers of a thread that has nothing in hand and is at the begin of a pop. All memory
    /// of the registers is taken here.
    pub fn open(alloc: Global, thread: ThreadNo) -> Result<Self, AllocError>
        ensures { IfOk result (λ r. r ≡ first_regs thread) }
    {
        Ok(Regs {
            thread,
            class: Class(0),
            seq: Seq::Pop,
            pc: Pc::Begin,
            epoch: 0,
            top: 0,
            count: 0,
            ran: 0,
            hand: Bag::open(alloc, HAND_ROOM)?,
            loaded: Bag::open(alloc, LOADED_ROOM)?,
        })
    }

    /// Sets the next sequence. The epoch stays.
    pub fn start(&mut self, class: Class, seq: Seq)
        ensures { self.new ≡ set_for class seq self.old }
    {
        self.class = class;
        self.seq = seq;
        self.pc = Pc::Begin;
    }

    /// Whether the sequence pops.
    pub(crate) fn is_pop(&self) -> bool
        ensures { result ≡ is_pop self.now.seq }
    {
        matches!(self.seq, Seq::Pop | Seq::PopBatch { .. })
    }

    /// How many objects the sequence is for, up to `most`.
    pub(crate) fn wanted(&self, most: u32) -> u32
        ensures { result ≡ min (wanted self.now.seq self.now.hand.items) most }
    {
        let in_hand = self.hand.as_slice().len();
        let wanted = match self.seq {
            Seq::Pop => 1,
            Seq::PopBatch { want } => want as usize,
            Seq::Push => in_hand.min(1),
            Seq::PushBatch => in_hand,
        };
        wanted.min(most as usize) as u32
    }

    /// Goes on at an instruction.
    pub(crate) fn go_on(&mut self, pc: Pc)
        requires { self.old.ran < 2 ^ 32 - 1 }
        ensures { self.new ≡ record self.old { pc = pc; ran = self.old.ran + 1 } }
    {
        self.pc = pc;
        self.ran += 1;
    }

    /// Drops what is loaded, and begins the sequence again.
    pub(crate) fn restart(&mut self)
        ensures { self.new ≡ dropped self.old }
    {
        self.pc = Pc::Begin;
        bags::empty(&mut self.loaded);
    }

    /// Begins the sequence again at a CPU of this epoch.
    pub(crate) fn begin_again(&mut self, epoch: u64)
        ensures { self.new ≡ record (dropped self.old) { epoch = epoch } }
    {
        self.restart();
        self.epoch = epoch;
    }

    /// Closes the sequence.
    pub(crate) fn close(&mut self)
        requires { self.old.ran < 2 ^ 32 - 1 }
        ensures { self.new ≡ record self.old { pc = Begin; loaded = emptied self.old.loaded; ran = self.old.ran + 1 } }
    {
        self.restart();
        self.ran += 1;
    }
}
