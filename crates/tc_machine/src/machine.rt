//! The allocator over a front-end, as a machine of parts and locals.
ghost use Rattle.std.specs.Prelude.{◌≡◌, ◌+◌, ◌≤◌, length, map, IfOk, OnErr};
ghost use Rattle.tc_model.specs.Input.{Asked};
ghost use Rattle.tc_model.specs.Run.{tried};
ghost use Rattle.tc_model.specs.Steps.{acted};
ghost use Rattle.call_steps.specs.declared.setting.Setting.{Setting as Under};
ghost use Rattle.alloc_rules.specs.Fits.{Fits};
ghost use Rattle.tc_units.specs.declared.units.ThreadNo.{ThreadNo};
ghost use Rattle.alloc_rules.specs.Inputs.{IsValidInput, not_taken};
ghost use Rattle.alloc_rules.specs.Machine.{rules, turns as turns_of, waits};
ghost use Rattle.alloc_rules.proofs.ValidProp.{valid_prop};
ghost use Rattle.tc_machine.specs.Inputs.{input_under};

use alloc_rules::{LawfulFront, Part, number_of};
use call_steps::{
    Answers, FrontEnd, Local, Setting, act_front, act_heap, act_map, act_names, act_shard,
    stay_front, waits, yields,
};
use std::alloc::{AllocError, Global};
use std::marker::PhantomData;
use std::snapshot::Snapshot;
use tc_model::{Acted, Answered, Machine, PartNo, Serial};
use tc_units::{Bag, Listed, Tail, ThreadNo};
use trace_reader::Trace;

/// The act of a thread at a part, whichever it is. Want of memory changes nothing.
#[inline(always)]
pub fn act_at<F: FrontEnd, A: Answers>(
    setting: &Setting,
    part: &mut Part<F::Part>,
    local: &mut Local<F, A>,
) -> Result<Acted, AllocError>
    requires { Fits (F.rules setting.now).calls.rows (F.fits setting.now) part.old local.old }
    ensures part { (asked : Asked) → IfOk result (λ _. part.new ≡ (tried (rules (F.rules setting.now) F.about asked) part.old local.old).0) }
    ensures local { (asked : Asked) → IfOk result (λ _. local.new ≡ (tried (rules (F.rules setting.now) F.about asked) part.old local.old).1) }
    ensures answer { IfOk result (λ a. a ≡ acted (waits part.old local.old)) }
    ensures err { OnErr result ((part.new ≡ part.old) × (local.new ≡ local.old)) }
{
    match part {
        Part::Front(part) => act_front(setting, part, local)?,
        Part::Shard(shard) => act_shard(setting, shard, local)?,
        Part::Heap(heap) => act_heap(setting, heap, local),
        Part::Map(map) => act_map(setting, map, local)?,
        Part::Names(names) => return Ok(act_names(setting, names, local)),
    }
    Ok(Acted::Moved)
}

/// Whether the act of a thread waits at a part.
pub fn waits_at<F: FrontEnd, A: Answers>(part: &Part<F::Part>, local: &Local<F, A>) -> bool
    requires { (setting : Under) × Fits (F.rules setting).calls.rows (F.fits setting) part.now local.now }
    ensures { result ≡ waits part.now local.now }
{
    match part {
        Part::Names(names) => waits(names, local),
        _ => false,
    }
}

/// The allocator under a class table, for the calls of a trace, over the front-end F.
#[derive(Drop)]
pub struct AllocMachine<F: LawfulFront, A: Answers = Bag<Answered>> {
    pub setting: Setting,
    /// The thread of each call, in trace order.
    pub turns: Listed<ThreadNo>,
    /// What the trace asked for, which contracts alone see.
    pub trace: Snapshot<Trace>,
    pub of: PhantomData<F>,
    pub answers: PhantomData<A>,
    pub ghost few: { setting.config.events ≤ 40000000 },
    pub ghost same_turns: { map (λ (t : ThreadNo). t.0) turns ≡ turns_of (input_under setting trace.value).asked },
    pub ghost valid: { IsValidInput (input_under setting trace.value) } by { valid_prop (input_under setting trace.value) },
    pub ghost taken: { not_taken F.takes (input_under setting trace.value).asked.calls ≡ 0 },
}

/// The same, whose threads keep their last answers alone.
pub type Forgetful<F> = AllocMachine<F, Tail<Answered>>;

impl<F: LawfulFront, A: Answers> AllocMachine<F, A> {
    /// The number of the page heap among the parts.
    pub(crate) fn heap_place(&self) -> usize
        ensures { result ≡ (F.rules self.now.setting).split + length self.now.setting.table }
    {
        usize::from(F::split(&self.setting)) + self.setting.table.len() as usize
    }
}

impl<F: LawfulFront, A: Answers> Machine for AllocMachine<F, A> {
    type Part = Part<F::Part>;

    type Local = Local<F, A>;

    ghost use Rattle.alloc_rules.specs.Machine.{rules};
    ghost use Rattle.alloc_rules.specs.Fits.{Fits};
    ghost use Rattle.tc_machine.specs.Inputs.{input_under};

    ghost rules = { λ m. rules (F.rules m.setting) F.about (input_under m.setting m.trace.value).asked };

    ghost fits = { λ m. Fits (F.rules m.setting).calls.rows (F.fits m.setting) };

    fn want(&self, local: &Local<F, A>) -> Option<PartNo> {
        match local.want(&self.setting) {
            Some(target) => Some(number_of(
                F::split(&self.setting),
                self.setting.table.len(),
                target,
            )),
            None => None,
        }
    }

    fn done(&self, local: &Local<F, A>) -> u64 {
        local.done()
    }

    fn waits(&self, part: &Part<F::Part>, local: &Local<F, A>) -> bool {
        waits_at(part, local)
    }

    fn yields(&self, part: &Part<F::Part>, local: &Local<F, A>) -> bool {
        match part {
            Part::Front(part) => yields(&self.setting, part, local),
            _ => true,
        }
    }

    #[inline(always)]
    fn act(
        &self,
        _alloc: Global,
        part: &mut Part<F::Part>,
        local: &mut Local<F, A>,
    ) -> Result<Acted, AllocError> {
        act_at(&self.setting, part, local)
    }

    #[inline(always)]
    fn stay(&self, part: &mut Part<F::Part>, local: &mut Local<F, A>) -> bool {
        match part {
            Part::Front(part) => stay_front(&self.setting, part, local),
            _ => false,
        }
    }

    ghost sound = { λ m. (F.lawful (input_under m.setting m.trace.value) m.valid m.taken).sound };
}

impl<F: LawfulFront, A: Answers> Serial for AllocMachine<F, A> {
    ghost use Rattle.alloc_rules.specs.Machine as allocator;
    ghost use Rattle.tc_machine.specs.Inputs.{input_under};

    ghost turns = { λ m. allocator.turns (input_under m.setting m.trace.value).asked };

    fn calls(&self) -> usize {
        self.turns.as_slice().len()
    }

    fn turn(&self, call: usize) -> u16 {
        u16::from(self.turns.as_slice()[call].0)
    }

    ghost threads = { λ m. (F.lawful (input_under m.setting m.trace.value) m.valid m.taken).threads };

    ghost never_waits = { λ m. (F.lawful (input_under m.setting m.trace.value) m.valid m.taken).never_waits };

    ghost rises = { λ m. (F.lawful (input_under m.setting m.trace.value) m.valid m.taken).rises };

    ghost ends = { λ m. (F.lawful (input_under m.setting m.trace.value) m.valid m.taken).ends };
}
