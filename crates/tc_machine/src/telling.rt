//! The calls of a run, in the order in which they were decided.
ghost use Rattle.std.specs.Prelude.{◌≡◌, ℕ, ◌+◌, ◌-◌, ◌^◌, ◌<◌, ◌≤◌, List, [], length, map, option_map, All, IfOk, Some, slice_get};
ghost use Rattle.std.specs.Option.{option_to_list};
ghost use Rattle.tc_model.specs.Limits.{most_picks};
ghost use Rattle.tc_model.specs.Blocks.{IsBlockRun};
ghost use Rattle.tc_model.specs.Calls.{AreRising, calls_of};
ghost use Rattle.call_steps.specs.Local.{Decided, told};
ghost use Rattle.tc_machine.specs.Arena.{most_huge_of_nodes};
ghost use Rattle.tc_machine.specs.Standing.{AreStanding};
ghost use Rattle.tc_machine.specs.Telling.{decided_at, first_mark, decides_next, HearsEach, IsMark};

use crate::listener::{Both, Listener};
use crate::standing::Standing;
use call_steps::{FrontEnd, Local};
use std::alloc::{AllocError, Global};
use tc_model::CallLine;
use tc_units::ThreadNo;

/// A thread that tells the calls which its acts decided.
pub trait Teller {
    // Its decided calls, in their order.
    ghost answers: { Self → List Decided };

    /// The act that decided the call behind `i` others. `None` exactly where no more are decided.
    fn act_of(&self, i: usize) -> Option<u64>
        ensures { result ≡ option_map (λ (d : Decided). d.act) (slice_get (answers self.now) i) };

    /// The call that was decided behind `i` others, as that of the thread of this number.
    fn line_of(&self, thread: ThreadNo, i: usize) -> CallLine
        requires { i < length (answers self.now) }
        ensures { Some result ≡ option_map (told thread.0) (slice_get (answers self.now) i) };
}

impl<F: FrontEnd> Teller for Local<F> {
    ghost answers = { λ l. l.answers };

    fn act_of(&self, i: usize) -> Option<u64> {
        Some(self.answers().get(i)?.act)
    }

    fn line_of(&self, thread: ThreadNo, i: usize) -> CallLine {
        CallLine {
            thread,
            ..self.call_line(i)
        }
    }
}

/// How far a thread has come: its picks so far, how many of its calls they decided, and the pick that decides the next one.
#[derive(Clone, Copy)]
pub(crate) struct Mark {
    pub picks: u64,
    pub told: usize,
    pub due: Option<u64>,
}

/// The mark of a thread before its first pick.
fn first_mark<T: Teller>(teller: &T) -> Mark
    ensures { result ≡ first_mark (T.answers teller.now) }
{
    Mark {
        picks: 0,
        told: 0,
        due: teller.act_of(0),
    }
}

/// The marks of all threads before their first picks.
fn first_marks<T: Teller>(alloc: Global, tellers: &[T]) -> Result<Vec<Mark>, AllocError>
    ensures { IfOk result (λ marks. marks.items ≡ map (λ l. first_mark (T.answers l)) tellers.now) }
{
    let mut marks = Vec::with_capacity(alloc, tellers.len())?;
    for teller in tellers {
        marks.push(first_mark(teller))?;
    }
    Ok(marks)
}

/// Whether the thread's next pick decided a call.
#[inline(always)]
fn is_due(mark: &Mark) -> bool
    ensures { result ≡ decides_next mark.now.picks mark.now.due }
{
    match mark.due {
        Some(act) => act == mark.picks,
        None => false,
    }
}

/// The call that the thread's next pick decided, if it decided one.
#[inline(always)]
fn next_line<T: Teller>(teller: &T, thread: ThreadNo, mark: &mut Mark) -> Option<CallLine>
    requires mark { IsMark (T.answers teller.now) mark.old }
    requires few { mark.old.picks < 2 ^ 64 - 1 }
    ensures line { option_to_list result ≡ map (told thread.0) (decided_at mark.old.picks (T.answers teller.now)) }
    ensures mark { IsMark (T.answers teller.now) mark.new }
    ensures picks { mark.new.picks ≡ mark.old.picks + 1 }
{
    let decided = is_due(mark);
    mark.picks += 1;
    if decided {
        let line = teller.line_of(thread, mark.told);
        mark.told += 1;
        mark.due = teller.act_of(mark.told);
        Some(line)
    } else {
        None
    }
}

/// Tells a listener the calls that the picks of an order decided, in their order. A thread's number is its place.
fn tell_calls<T: Teller, L: Listener>(
    alloc: Global,
    tellers: &[T],
    order: &[u16],
    listener: L,
) -> Result<L, AllocError>
    requires numbers { length tellers.now ≤ 2 ^ 8 }
    requires threads { All (λ t. t < length tellers.now) order.now }
    requires few { length order.now ≤ most_picks }
    requires rising { (t : ℕ) (l : T) → slice_get tellers.now t ≡ Some l → AreRising (λ (d : Decided). d.act) 0 (T.answers l) }
    requires first { L.heard listener listener [] }
    requires may { HearsEach (L.may_hear listener) (calls_of T.answers (λ (d : Decided). d.act) told tellers.now order.now) }
    ensures heard { IfOk result (λ heard. L.heard listener heard (calls_of T.answers (λ (d : Decided). d.act) told tellers.now order.now)) }
{
    let mut marks = first_marks(alloc, tellers)?;
    let mut listener = listener;
    for thread in order {
        let t = *thread as usize;
        if let Some(line) = next_line(&tellers[t], ThreadNo(t as u8), &mut marks[t]) {
            listener.hear(&line)?;
        }
    }
    Ok(listener)
}

/// Tells a listener the calls that the picks of an order decided, in their order, and gives what they leave. They are a run on
/// disjoint blocks.
pub fn tell_all<T: Teller, L: Listener>(
    alloc: Global,
    tellers: &[T],
    order: &[u16],
    listener: L,
) -> Result<(L, Standing), AllocError>
    requires numbers { length tellers.now ≤ 2 ^ 8 }
    requires threads { All (λ t. t < length tellers.now) order.now }
    requires few { length order.now ≤ most_picks }
    requires rising { (t : ℕ) (l : T) → slice_get tellers.now t ≡ Some l → AreRising (λ (d : Decided). d.act) 0 (T.answers l) }
    requires blocks { (huge : ℕ) × (round : ℕ → ℕ) × IsBlockRun huge round (calls_of T.answers (λ (d : Decided). d.act) told tellers.now order.now) × (huge ≤ most_huge_of_nodes) }
    requires first { L.heard listener listener [] }
    requires may { HearsEach (L.may_hear listener) (calls_of T.answers (λ (d : Decided). d.act) told tellers.now order.now) }
    ensures heard { IfOk result (λ r. L.heard listener r.0 (calls_of T.answers (λ (d : Decided). d.act) told tellers.now order.now)) }
    ensures standing { IfOk result (λ r. AreStanding (calls_of T.answers (λ (d : Decided). d.act) told tellers.now order.now) r.1) }
{
    let both = Both {
        first: Standing::new(alloc),
        second: listener,
    };
    let Both { first, second } = tell_calls(alloc, tellers, order, both)?;
    Ok((second, first))
}
