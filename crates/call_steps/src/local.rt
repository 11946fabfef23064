//! What one thread has: its script, the next act of its call under way with what that has in hand, and
//! its answers.
ghost use Rattle.std.specs.Prelude.{◌≡◌, ℕ, ◌+◌, ◌-◌, ◌<◌, ◌≤◌, ◌^◌, [], length, drop, map, option_map, slice_get, Option, Some, None, IfOk, is_some, true};
ghost use Rattle.tc_model.specs.declared.calls.Call as call;
ghost use Rattle.call_steps.specs.Local.{next_call, first_of_call, regs_of_call, first_act, regs_by, first_local, goes, ends, decided, told};
ghost use Rattle.call_steps.specs.Rows.{undecided, under, IsOf};
ghost use Rattle.call_steps.specs.Kept.{target_at, IsLowWant, over};

use crate::answers::Answers;
use crate::front::FrontEnd;
use crate::setting::Setting;
use crate::step::{Asking, HeapStep, NamesStep, ShardStep, Step, Target};
use rseq_core::{HAND_ROOM, Regs};
use std::alloc::{AllocError, Global};
use std::marker::Model;
use tc_model::{Answer, Answered, Call, CallLine, Plan, Planned, Script};
use tc_units::{Bag, Label, SpanRef, ThreadNo};

/// A thread's script, its place in it, the next act of the call there with what the call has in hand, and
/// the answers of the calls that were decided.
#[derive(Drop)]
pub struct Local<F: FrontEnd, A: Answers = Bag<Answered>> {
    pub(crate) seat: F::Seat,
    script: Plan,
    /// Calls that have ended.
    place: usize,
    pub(crate) step: Step<F::Row>,
    /// The registers, with the objects in hand.
    pub(crate) regs: Regs,
    /// Spans that left a shard and are to be given back.
    pub(crate) freed: Bag<SpanRef>,
    /// Acts that the thread has done.
    acts: u64,
    answers: A,
}

impl<F: FrontEnd, A: Answers> Model for Local<F, A> {
    ghost use Rattle.call_steps.specs.Local as meant;
    ghost use Rattle.call_steps.specs.Kept.{IsKept, local_of};

    ghost Value = { meant.Local F.Seat F.Row };

    ghost view = { λ l. local_of l.seat l.script l.place l.step l.regs l.freed l.acts (A.all l.answers).items };

    ghost invariant = { λ l. IsKept F.about l.script l.place l.step (A.all l.answers) };
}

impl<F: FrontEnd, A: Answers> Local<F, A> {
    /// A thread before its first act, at its seat at the start. All room for its answers, its hand and its
    /// spans is taken here.
    pub fn new(
        alloc: Global,
        setting: &Setting,
        thread: ThreadNo,
        script: Script,
    ) -> Result<Self, AllocError>
        requires { F.can_open setting.now }
        ensures { IfOk result (λ l. l ≡ first_local (F.rules setting.now).calls thread ((F.rules setting.now).seats thread.0) script.calls) }
    {
        let Script { calls } = script;
        let answers = A::open(alloc, calls.len())?;
        let freed = Bag::open(alloc, HAND_ROOM)?;
        let mut regs = Regs::open(alloc, thread)?;
        let mut seat = F::seat(setting, thread);
        let mut step = Step::Ended;
        let first = calls.get(0);
        begin::<F>(setting, first, &mut seat, &mut regs, &mut step);
        Ok(Local {
            seat,
            script: calls,
            place: 0,
            step,
            regs,
            freed,
            acts: 0,
            answers,
        })
    }

    /// The part that the next act is on. `None` where the script has ended.
    pub fn want(&self, setting: &Setting) -> Option<Target>
        ensures target { result ≡ target_at (F.rules setting.now).place self.now self.now.step }
        ensures low { IsLowWant result }
    {
        match &self.step {
            Step::Front(row) => Some(Target::Front(F::place(setting, &self.seat, &self.regs, row))),
            Step::Shard(_) => Some(Target::Shard(self.regs.class)),
            Step::Heap(_) => Some(Target::Heap),
            Step::Map(_) => Some(Target::Map),
            Step::Names(_) => Some(Target::Names),
            Step::Ended => None,
        }
    }

    /// The next act.
    pub fn step(&self) -> Step<F::Row>
        ensures { result ≡ self.now.step }
    {
        self.step
    }

    /// How many calls have ended.
    pub fn done(&self) -> u64
        ensures { result ≡ self.now.ended }
    {
        self.place as u64
    }

    /// How many acts the thread has done.
    pub fn acts(&self) -> u64
        ensures { result ≡ self.now.acts }
    {
        self.acts
    }

    /// How many calls were decided.
    pub fn decided(&self) -> usize
        ensures { result ≡ length self.now.answers }
    {
        self.answers.count()
    }

    /// The call that was decided last, with its answer.
    pub fn last_line(&self) -> CallLine
        requires { 0 < length self.now.answers }
        ensures { Some result ≡ option_map (told self.now.regs.thread.0) (slice_get self.now.answers (length self.now.answers - 1)) }
    {
        let Some(answered) = self.answers.last() else {
            unreachable!()
        };
        CallLine {
            thread: self.regs.thread,
            call: self.script.at(self.answers.count() - 1).call,
            answer: answered.answer,
        }
    }

    /// The act is done, and the call goes on with `next`.
    pub(crate) fn go(&mut self, next: Step<F::Row>)
        requires acts { self.old.acts < 2 ^ 64 - 1 }
        requires under { under F.about next ≡ under F.about self.old.step }
        requires call { undecided F.about next ≡ undecided F.about self.old.step }
        ensures { self.new ≡ goes self.old next }
    {
        self.step = next;
        self.acts += 1;
    }

    /// The act is done, and the call goes on with the row that stands.
    pub(crate) fn go_on(&mut self)
        requires acts { self.old.acts < 2 ^ 64 - 1 }
        ensures { self.new ≡ record self.old { acts = self.old.acts + 1 } }
    {
        self.acts += 1;
    }

    /// The act is done: it decides the call under way, which goes on with `next`.
    pub(crate) fn go_deciding(&mut self, answer: Answer, next: Step<F::Row>)
        requires acts { self.old.acts < 2 ^ 64 - 1 }
        requires undecided { is_some (undecided F.about self.old.step) ≡ true }
        requires decided { (under F.about next ≡ 1) × (undecided F.about next ≡ None) }
        ensures { (call : call.Call) → undecided F.about self.old.step ≡ Some call → self.new ≡ goes (decided self.old call answer) next }
    {
        self.decide(answer);
        self.go(next);
    }

    /// The act is done, and the call ends, which was decided before. A row of the front-end may come first.
    #[inline(always)]
    pub(crate) fn end(&mut self, setting: &Setting)
        requires acts { self.old.acts < 2 ^ 64 - 1 }
        requires decided { under F.about self.old.step ≡ 1 }
        ensures { self.new ≡ ends (F.rules setting.now).calls self.old }
    {
        self.acts += 1;
        match F::last(setting, &self.seat) {
            Some(row) => self.step = Step::Front(row),
            None => self.come_to_next(setting),
        }
    }

    /// The act is done: it decides the call under way and ends it.
    #[inline(always)]
    pub(crate) fn end_deciding(&mut self, setting: &Setting, answer: Answer)
        requires acts { self.old.acts < 2 ^ 64 - 1 }
        requires undecided { is_some (undecided F.about self.old.step) ≡ true }
        ensures { (call : call.Call) → undecided F.about self.old.step ≡ Some call → self.new ≡ ends (F.rules setting.now).calls (decided self.old call answer) }
    {
        self.decide(answer);
        self.end(setting);
    }

    /// The next act decides the call under way. What stands as its step then says nothing: the caller puts the next one there.
    pub(crate) fn decide(&mut self, answer: Answer)
        requires { is_some (undecided F.about self.old.step) ≡ true }
        ensures step { self.new.step ≡ over }
        ensures acts { self.new.acts ≡ self.old.acts }
        ensures seat { self.new.seat ≡ self.old.seat }
        ensures decided { (call : call.Call) → undecided F.about self.old.step ≡ Some call → self.new ≡ record (decided self.old call answer) { step = over } }
    {
        self.answers.push(Answered {
            act: self.acts,
            answer,
        });
        self.step = Step::Names(NamesStep::Publish {
            label: Label(0),
            value: None,
        });
    }

    /// The call under way has ended, and the thread comes to the next one.
    #[inline(always)]
    fn come_to_next(&mut self, setting: &Setting)
        requires { under F.about self.old.step ≡ 1 }
        ensures { self.new ≡ next_call (F.rules setting.now).calls (record self.old { ended = self.old.ended + 1 }) self.old.rest }
    {
        self.place += 1;
        let planned = self.script.get(self.place);
        begin::<F>(
            setting,
            planned,
            &mut self.seat,
            &mut self.regs,
            &mut self.step,
        );
    }
}

impl<F: FrontEnd> Local<F> {
    /// The answers of the calls that were decided, in the script's order.
    pub fn answers(&self) -> &[Answered]
        ensures acts { map (λ a. a.act) result.now ≡ map (λ d. d.act) self.now.answers }
        ensures answers { map (λ a. a.answer) result.now ≡ map (λ d. d.answer) self.now.answers }
    {
        self.answers.as_slice()
    }

    /// The call that was decided behind `i` others, with its answer.
    pub fn call_line(&self, i: usize) -> CallLine
        requires { i < length self.now.answers }
        ensures { Some result ≡ option_map (told self.now.regs.thread.0) (slice_get self.now.answers i) }
    {
        CallLine {
            thread: self.regs.thread,
            call: self.script.at(i).call,
            answer: self.answers.as_slice()[i].answer,
        }
    }
}

/// The call that is planned next begins: its first act stands where the last one of the call before it stood, and the registers
/// are set for it.
#[inline(always)]
fn begin<F: FrontEnd>(
    setting: &Setting,
    planned: Option<Planned>,
    seat: &mut F::Seat,
    regs: &mut Regs,
    step: &mut Step<F::Row>,
)
    ensures seat { seat.new ≡ (F.rules setting.now).calls.begins seat.old planned }
    ensures step { step.new ≡ first_act (F.rules setting.now).calls seat.new planned }
    ensures regs { regs.new ≡ regs_by (F.rules setting.now).calls planned regs.old }
    ensures of { IsOf F.about step.new (option_map (λ p. p.call) planned) }
    ensures none { under F.about step.new ≡ 0 }
{
    F::begin(setting, seat, planned);
    match planned {
        Some(planned) => {
            begin_call::<F>(setting, seat, regs, step, planned.call);
            regs.ran = 0;
        }
        None => *step = Step::Ended,
    }
}

/// The first act of a call, for whose class the registers are set, where it has one. It is put where the last act stands, since
/// a step is large.
fn begin_call<F: FrontEnd>(
    setting: &Setting,
    seat: &F::Seat,
    regs: &mut Regs,
    step: &mut Step<F::Row>,
    call: Call,
)
    ensures step { step.new ≡ first_of_call (F.rules setting.now).calls seat.now call }
    ensures regs { regs.new ≡ regs_of_call (F.rules setting.now).calls call regs.old }
    ensures of { IsOf F.about step.new (Some call) }
    ensures none { under F.about step.new ≡ 0 }
{
    match call {
        Call::Malloc { label, size } => match setting.table.class_of(size) {
            Some(class) => {
                regs.class = class;
                let asking = Asking { label, size };
                match F::first(setting, seat, regs, asking) {
                    Some(row) => *step = Step::Front(row),
                    None => *step = Step::Shard(ShardStep::Fetch(asking)),
                }
            }
            None => *step = Step::Heap(HeapStep::New { label, size }),
        },
        Call::Free { label } => *step = Step::Names(NamesStep::Take { label }),
        Call::Release { pages } => *step = Step::Heap(HeapStep::Unback { pages }),
        Call::Drain { .. } | Call::Resize { .. } => match F::other(setting, seat, regs, call) {
            Some(row) => *step = Step::Front(row),
            None => *step = Step::Ended,
        },
    }
}
