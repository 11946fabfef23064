//! The state that stands under the lock.
ghost use Rattle.std.specs.Prelude.{◌≡◌, ◌<◌, ◌↔◌, None, IfSome, IfNone, false};
ghost use Rattle.tc_model.specs.declared.board.Turn.TheVariants as turn;
ghost use Rattle.tc_model.specs.Run.{start, run};
ghost use Rattle.tc_model.specs.Chains.{IsPolite};
ghost use Rattle.tc_model.specs.Replays.{is_polite, done_in};
ghost use Rattle.cpu_rows.specs.Machine as allocator;
ghost use Rattle.cpu_rows.specs.Switches.{SwitchesAreFew};
ghost use Rattle.world_lock.specs.Stepping.{IsTurnAt, order_after, halt_after, halt_of, turn_of};

use crate::named::Named;
use cpu_front::CpuState;
use std::marker::{Model, PhantomData};
use tc_model::{Halt, StepFault, Stepped, Turn};
use tc_units::ThreadNo;

/// The state of the allocator that N names, after polite picks that moved, and why no further pick moves.
/// No other such value can be made.
#[derive(Drop)]
pub struct World<N: Named> {
    state: CpuState,
    halt: Option<Halt>,
    of: PhantomData<N>,
}

impl<N: Named> Model for World<N> {
    ghost use Rattle.std.specs.Prelude.{◌≡◌};
    ghost use Rattle.tc_model.specs.Run.{start};
    ghost use Rattle.tc_model.specs.Chains.{IsPolite};
    ghost use Rattle.cpu_rows.specs.Machine as allocator;
    ghost use Rattle.world_lock.specs.Locked.{Locked};

    ghost Value = { Locked };

    ghost view = { λ w. record { order = w.state.order; halt = w.halt } };

    ghost invariant = { λ w. (w.state.input ≡ N.input) × IsPolite (allocator.rules N.input) (start (allocator.rules N.input)) w.state.order };
}

/// The turn that a pick without a fault comes to.
fn turn_of(stepped: Stepped) -> Turn
    ensures { result ≡ turn_of stepped }
{
    match stepped {
        Stepped::Moved => Turn::Moved,
        Stepped::NotYet => Turn::NotYet,
        Stepped::Ended => Turn::Ended,
    }
}

/// Why no further pick moves, after a fault of a step.
fn halt_of(fault: StepFault) -> Halt
    ensures { result ≡ halt_of fault }
{
    match fault {
        StepFault::Full { ticket: _ } => Halt::Full,
        StepFault::Memory => Halt::Memory,
    }
}

impl<N: Named> World<N> {
    /// A state under the lock. Its condition is that the state is a run of what N names, by polite picks,
    /// as it is where no pick was made yet.
    pub fn new(state: CpuState) -> World<N>
        requires input { state.input ≡ N.input }
        requires polite { IsPolite (allocator.rules N.input) (start (allocator.rules N.input)) state.order }
        ensures order { result.order ≡ state.order }
        ensures halt { result.halt ≡ None }
    {
        World {
            state,
            halt: None,
            of: PhantomData,
        }
    }

    /// Picks a thread, where that is polite.
    ///
    /// After a halt every step is halted, for the same cause. Before one, `Held` comes exactly where it isn't
    /// polite to pick the thread. Else the answer is that of the state's own step, and its two faults are
    /// causes of a halt. All but `Moved` leave the order as it was.
    pub fn step(&mut self, thread: ThreadNo) -> Turn
        requires { thread.0 < N.input.asked.config.threads }
        ensures polite { IsPolite (allocator.rules N.input) (start (allocator.rules N.input)) self.old.order }
        ensures halted { IfSome self.old.halt (λ cause. result ≡ turn.Halted cause) }
        ensures held { IfNone self.old.halt ((result ≡ turn.Held) ↔ (is_polite (allocator.rules N.input) (run (allocator.rules N.input) self.old.order) thread.0 ≡ false)) }
        ensures answer { IfNone self.old.halt (IsTurnAt (allocator.rules N.input) N.input.asked.config.events self.old.order thread.0 result) }
        ensures order { self.new.order ≡ order_after self.old.order thread.0 result }
        ensures halt { self.new.halt ≡ halt_after self.old.halt result }
    {
        if let Some(cause) = self.halt {
            return Turn::Halted { cause };
        }
        if !self.state.yields(thread) {
            return Turn::Held;
        }
        match self.state.step(thread) {
            Ok(stepped) => turn_of(stepped),
            Err(fault) => {
                let cause = halt_of(fault);
                self.halt = Some(cause);
                Turn::Halted { cause }
            }
        }
    }

    /// How many calls of a thread have ended.
    pub fn done(&self, thread: ThreadNo) -> u64
        requires { thread.0 < N.input.asked.config.threads }
        ensures { result ≡ done_in (allocator.rules N.input) (run (allocator.rules N.input) self.now.order) thread.0 }
    {
        self.state.done(thread)
    }

    /// The state, without the lock's rest. Each pick of its order moved, and was polite. So at each CPU the
    /// acts In are at most one more than the exits, commits and acts Grow, Leave and Back: threads that only
    /// switch in can't use up the picks that may move.
    pub fn into_state(self) -> CpuState
        ensures input { result.input ≡ N.input }
        ensures order { result.order ≡ self.order }
        ensures polite { IsPolite (allocator.rules N.input) (start (allocator.rules N.input)) result.order }
        ensures switches { SwitchesAreFew (allocator.rules N.input) result.order }
    {
        let World {
            state,
            halt: _,
            of: _,
        } = self;
        let _order = state.order();
        state
    }
}
