//! How a call goes on with the objects that it has in hand.
ghost use Rattle.std.specs.Prelude.{◌≡◌, ◌-◌, ◌<◌, ◌^◌, [], length, None, Some, is_some, true};
ghost use Rattle.tc_model.specs.declared.calls.Call.TheVariants.{Malloc};
ghost use Rattle.call_steps.specs.declared.step.Next.TheVariants as next;
ghost use Rattle.call_steps.specs.declared.step.Step.TheVariants as does;
ghost use Rattle.call_steps.specs.declared.step.NamesStep.TheVariants as named;
ghost use Rattle.call_steps.specs.Calls.{about_giving, about_onward, call_about};
ghost use Rattle.call_steps.specs.Rows.{undecided, under, without_call};
ghost use Rattle.call_steps.specs.Local.{goes};
ghost use Rattle.call_steps.specs.Hands.{serves, stock_step, stock_regs, clears, gave};
ghost use Rattle.call_steps.specs.Follows.{MayGoOnDecided, MayFollow, follows};

use crate::answers::Answers;
use crate::front::FrontEnd;
use crate::local::Local;
use crate::setting::{Setting, row_of};
use crate::step::{Asking, Giving, MapStep, NamesStep, Next, Onward, Serving, ShardStep, Step};
use rseq_core::Regs;
use tc_model::Answer;
use tc_units::Class;

impl<F: FrontEnd, A: Answers> Local<F, A> {
    /// An allocation is decided by the objects that came to its hand: the first is its answer, and with the
    /// others it is to stock the front-end, or gives these to the shard.
    #[inline(always)]
    pub(crate) fn serve(&mut self, setting: &Setting, asking: Asking)
        requires acts { self.old.acts < 2 ^ 64 - 1 }
        requires class { self.old.regs.class.0 < length (F.rules setting.now).calls.rows }
        requires some { 0 < length self.old.regs.hand.items }
        requires asks { undecided F.about self.old.step ≡ Some (Malloc asking.label asking.size) }
        ensures { self.new ≡ serves (F.rules setting.now).calls self.old asking }
    {
        let Some(addr) = self.regs.hand.take_first() else {
            unreachable!()
        };
        let serving = Serving {
            label: asking.label,
            addr,
        };
        let class = self.regs.class;
        let len = u64::from(row_of::<F>(setting, class).size);
        let answer = Answer::Block { addr, len };
        let next = stock::<F>(setting, &self.seat, &mut self.regs, serving);
        self.go_deciding(answer, next);
    }

    /// The call goes on with a row of the front-end, for this class.
    pub(crate) fn go_to(&mut self, class: Class, row: F::Row)
        requires acts { self.old.acts < 2 ^ 64 - 1 }
        requires call { undecided F.about self.old.step ≡ call_about (F.about row) }
        requires under { under F.about self.old.step ≡ without_call (call_about (F.about row)) }
        ensures { self.new ≡ goes (record self.old { regs = record self.old.regs { class = class } }) (does.Front row) }
    {
        self.regs.class = class;
        self.go(Step::Front(row));
    }

    /// The call goes on, which has no span to give back.
    pub(crate) fn go_onward(&mut self, setting: &Setting, onward: Onward<F::Row>)
        requires acts { self.old.acts < 2 ^ 64 - 1 }
        requires call { undecided F.about self.old.step ≡ call_about (about_onward F.about onward) }
        requires under { under F.about self.old.step ≡ without_call (call_about (about_onward F.about onward)) }
        ensures { self.new ≡ clears (F.rules setting.now).calls self.old onward [] }
    {
        match onward {
            Onward::Publish(serving) => self.go(publish(serving)),
            Onward::Row { class, row } => self.go_to(class, row),
            Onward::End => self.end(setting),
        }
    }

    /// The call gives the spans that left a shard back, if any, and goes on.
    pub(crate) fn clear(&mut self, setting: &Setting, onward: Onward<F::Row>)
        requires acts { self.old.acts < 2 ^ 64 - 1 }
        requires call { undecided F.about self.old.step ≡ call_about (about_onward F.about onward) }
        requires under { under F.about self.old.step ≡ without_call (call_about (about_onward F.about onward)) }
        ensures { self.new ≡ clears (F.rules setting.now).calls self.old onward self.old.freed.items }
    {
        if self.freed.as_slice().is_empty() {
            self.go_onward(setting, onward);
        } else {
            self.go(Step::Map(MapStep::ClearSpan(onward)));
        }
    }

    /// The hand was given away, which decides a free: the call gives the spans that left a shard back, if
    /// any, and goes on.
    pub(crate) fn go_on_behind(&mut self, setting: &Setting, giving: Giving<F::Row>)
        requires acts { self.old.acts < 2 ^ 64 - 1 }
        requires call { undecided F.about self.old.step ≡ call_about (about_giving F.about giving) }
        requires under { under F.about self.old.step ≡ without_call (call_about (about_giving F.about giving)) }
        ensures { self.new ≡ gave (F.rules setting.now).calls self.old giving self.old.freed.items }
    {
        match giving {
            Giving::Rest(serving) => self.clear(setting, Onward::Publish(serving)),
            Giving::Freed(freeing) => {
                self.decide(Answer::Freed { addr: freeing.addr });
                self.clear(setting, Onward::End);
            }
            Giving::Row { class, row } => self.clear(setting, Onward::Row { class, row }),
            Giving::End => self.clear(setting, Onward::End),
        }
    }

    /// What comes behind an act of the front-end. The calls alone decide, change steps and begin the next
    /// call.
    pub(crate) fn enter(&mut self, setting: &Setting, next: &Next<F::Row>)
        requires acts { self.old.acts < 2 ^ 64 - 1 }
        requires next { MayFollow F.about (F.rules setting.now).refuses (F.rules setting.now).calls.rows self.old.step self.old.regs next.now }
        ensures { self.new ≡ follows (F.rules setting.now).calls self.old (undecided F.about self.old.step) next.now }
    {
        match *next {
            Next::Row(row) => self.go(Step::Front(row)),
            Next::Serve(asking) => self.serve(setting, asking),
            Next::Fetch(asking) => self.go(Step::Shard(ShardStep::Fetch(asking))),
            Next::Give(giving) => self.go(Step::Shard(ShardStep::Give(giving))),
            Next::Gave(giving) => self.go_on_behind(setting, giving),
            Next::Publish(serving) => self.go(publish(serving)),
            Next::Freed(freeing) => {
                let addr = freeing.addr;
                self.end_deciding(setting, Answer::Freed { addr });
            }
            Next::Decide { answer, row } => self.decide_with(setting, answer, row),
            Next::End => self.end(setting),
        }
    }

    /// The call is decided, and goes on with a row, or ends.
    fn decide_with(&mut self, setting: &Setting, answer: Answer, row: Option<F::Row>)
        requires acts { self.old.acts < 2 ^ 64 - 1 }
        requires undecided { is_some (undecided F.about self.old.step) ≡ true }
        requires row { MayGoOnDecided F.about row }
        ensures { self.new ≡ follows (F.rules setting.now).calls self.old (undecided F.about self.old.step) (next.Decide answer row) }
    {
        match row {
            Some(row) => self.go_deciding(answer, Step::Front(row)),
            None => self.end_deciding(setting, answer),
        }
    }
}

/// An allocation publishes its object.
pub(crate) fn publish<R: Copy>(serving: Serving) -> Step<R>
    ensures { result ≡ does.Names (named.Publish serving.label (Some serving.addr)) }
{
    Step::Names(NamesStep::Publish {
        label: serving.label,
        value: Some(serving.addr),
    })
}

/// What comes once an allocation is decided: it publishes its object, and with others in hand it stocks the
/// front-end first, or gives these to the shard.
fn stock<F: FrontEnd>(
    setting: &Setting,
    seat: &F::Seat,
    regs: &mut Regs,
    serving: Serving,
) -> Step<F::Row>
    ensures step { result ≡ stock_step (F.rules setting.now).calls seat.now serving regs.old.hand.items }
    ensures regs { regs.new ≡ stock_regs (F.rules setting.now).calls regs.old regs.old.hand.items }
    ensures decided { (under F.about result ≡ 1) × (undecided F.about result ≡ None) }
{
    if regs.hand.as_slice().is_empty() {
        return publish(serving);
    }
    match F::rest(setting, seat, regs, serving) {
        Some(row) => Step::Front(row),
        None => Step::Shard(ShardStep::Give(Giving::Rest(serving))),
    }
}
