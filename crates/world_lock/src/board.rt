//! The lock round a state, as a board on which each thread's hand takes turns.
ghost use Rattle.std.specs.Prelude.{◌≡◌, ◌<◌, ◌↔◌, IfSome, IfNone, false};
ghost use Rattle.tc_model.specs.declared.board.Turn.TheVariants as turn;
ghost use Rattle.tc_model.specs.Run.{start, run};
ghost use Rattle.tc_model.specs.Chains.{IsPolite};
ghost use Rattle.tc_model.specs.Replays.{is_polite, done_in};
ghost use Rattle.cpu_rows.specs.Machine as allocator;
ghost use Rattle.world_lock.specs.Stepping.{IsTurnAt, order_after, halt_after};

use crate::named::Named;
use crate::world::World;
use std::alloc::Global;
use std::marker::PhantomData;
use std::sync::{Mutex, Wait};
use tc_model::{Board, Turn};
use tc_units::ThreadNo;

/// A state that threads share, under one lock.
#[derive(Drop)]
pub struct WorldBoard<N: Named> {
    world: Mutex<World<N>>,
}

/// A thread at the board, and how many of its calls had ended after its last turn.
#[derive(Drop)]
pub struct WorldHand<N: Named> {
    pub thread: ThreadNo,
    pub done: u64,
    of: PhantomData<N>,
}

impl<N: Named> WorldBoard<N> {
    /// A state under the lock. Of what is under a lock no contract tells more than its type, which says
    /// what the state is a run of.
    pub fn new(world: World<N>) -> WorldBoard<N> {
        WorldBoard {
            world: Mutex::new(world),
        }
    }

    /// A thread's hand, before its first turn.
    pub fn hand(&self, thread: ThreadNo) -> WorldHand<N>
        ensures thread { result.thread ≡ thread }
        ensures done { result.done ≡ 0 }
    {
        WorldHand {
            thread,
            done: 0,
            of: PhantomData,
        }
    }

    /// The state, once no thread takes turns. As of `new`, its type is all that is known of it.
    pub fn into_world(self) -> World<N> {
        let WorldBoard { world } = self;
        world.into_inner()
    }
}

/// One turn of a hand at the state: one step of its thread, and how many of the thread's calls have ended
/// then.
fn turn_at<N: Named>(world: &mut World<N>, hand: &mut WorldHand<N>) -> Turn
    requires { hand.old.thread.0 < N.input.asked.config.threads }
    ensures polite { IsPolite (allocator.rules N.input) (start (allocator.rules N.input)) world.old.order }
    ensures halted { IfSome world.old.halt (λ cause. result ≡ turn.Halted cause) }
    ensures held { IfNone world.old.halt ((result ≡ turn.Held) ↔ (is_polite (allocator.rules N.input) (run (allocator.rules N.input) world.old.order) hand.old.thread.0 ≡ false)) }
    ensures answer { IfNone world.old.halt (IsTurnAt (allocator.rules N.input) N.input.asked.config.events world.old.order hand.old.thread.0 result) }
    ensures order { world.new.order ≡ order_after world.old.order hand.old.thread.0 result }
    ensures halt { world.new.halt ≡ halt_after world.old.halt result }
    ensures thread { hand.new.thread ≡ hand.old.thread }
    ensures done { hand.new.done ≡ done_in (allocator.rules N.input) (run (allocator.rules N.input) world.new.order) hand.old.thread.0 }
{
    let turn = world.step(hand.thread);
    hand.done = world.done(hand.thread);
    turn
}

impl<N: Named + Send> Board for WorldBoard<N> {
    ghost use Rattle.std.specs.Prelude.{◌≡◌, ◌<◌};
    ghost use Rattle.world_lock.specs.Stepping.{HasTurned};

    type Hand = WorldHand<N>;

    ghost fits = { λ b h. h.thread.0 < N.input.asked.config.threads };

    ghost thread_of = { λ b h. h.thread };

    ghost done_of = { λ b h. h.done };

    ghost turns = { λ b h answer k. (k.thread ≡ h.thread) × HasTurned N.input h.thread.0 answer k.done };

    fn thread(&self, hand: &WorldHand<N>) -> ThreadNo {
        hand.thread
    }

    fn done(&self, hand: &WorldHand<N>) -> u64 {
        hand.done
    }

    /// Waits for the lock, and steps once.
    fn turn<R: Wait>(&self, rt: &R, _alloc: Global, hand: &mut WorldHand<N>) -> Turn {
        let mut world = self.world.lock(rt);
        turn_at(&mut *world, hand)
    }
}
