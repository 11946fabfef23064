//! The parts as a board, on which each thread's hand takes turns.
ghost use Rattle.std.specs.Prelude.{◌≡◌};

use crate::parts::{Parts, Seat};
use crate::view::Step;
use std::alloc::Global;
use std::sync::Wait;
use tc_model::{Board, Halt, Machine, Turn};
use tc_units::ThreadNo;

/// The parts of a machine, which threads share.
#[derive(Drop)]
pub struct PartBoard<M: Machine> {
    pub parts: Parts<M>,
}

/// A thread's seat with its local.
#[derive(Drop)]
pub struct PartHand<M: Machine> {
    pub seat: Seat<M>,
    pub local: M::Local,
    pub thread: ThreadNo,
}

impl<M: Machine> PartBoard<M> {
    pub fn new(parts: Parts<M>) -> PartBoard<M>
        ensures { result.parts ≡ parts }
    {
        PartBoard { parts }
    }

    pub fn into_parts(self) -> Parts<M>
        ensures { result ≡ self.parts }
    {
        let PartBoard { parts } = self;
        parts
    }
}

impl<M: Machine> Board for PartBoard<M>
where
    M::Part: Send,
    M::Local: Send,
{
    ghost use Rattle.part_lock.specs.Turns.{HandFits, HandTurns};

    type Hand = PartHand<M>;

    ghost fits = { λ b h. HandFits b.parts.table.shared.table_id b.parts.key h.seat h.local h.thread };

    ghost thread_of = { λ b h. h.thread };

    ghost done_of = { λ b h. (M.rules b.parts.key.machine).done h.local };

    ghost turns = { λ b h answer k. HandTurns M.rules b.parts.key h.seat h.local h.thread answer k.seat k.local k.thread };

    fn thread(&self, hand: &PartHand<M>) -> ThreadNo {
        hand.thread
    }

    fn done(&self, hand: &PartHand<M>) -> u64 {
        self.parts.key.machine.done(&hand.local)
    }

    fn turn<R: Wait>(&self, rt: &R, _alloc: Global, hand: &mut PartHand<M>) -> Turn {
        let Some(part) = self.parts.key.machine.want(&hand.local) else {
            return Turn::Ended;
        };
        match self
            .parts
            .step_at(rt, &mut hand.seat, hand.thread, &mut hand.local, part)
        {
            Step::Moved { ticket: _ } => Turn::Moved,
            Step::NotYet => Turn::NotYet,
            Step::Held => Turn::Held,
            Step::Full { ticket: _ } => Turn::Halted { cause: Halt::Full },
            Step::Memory => Turn::Halted {
                cause: Halt::Memory,
            },
            Step::Halted { cause } => Turn::Halted { cause },
        }
    }
}
