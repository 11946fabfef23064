//! The calls that were read so far, with an index of what they did with each label.
ghost use Rattle.std.specs.Prelude.{ℕ, ◌≡◌, ◌<◌, ◌≤◌, ◌==◌, ◌∷◌, [], ◌++◌, length, map, max, OnOk, IfOk, if◌then◌else◌};
ghost use Rattle.std.specs.List.{range_with_len};

use crate::limits::MOST_LABELS;
use std::alloc::{AllocError, Global};
use tc_model::{Call, MOST_THREADS, Plan, Planned, Script};
use tc_units::ThreadNo;

/// What the calls so far did with a label.
#[derive(Clone, Copy, Debug, PartialEq, Eq)]
pub enum LabelUse {
    New,
    Allocated,
    Freed,
}

/// The calls so far.
#[derive(Drop)]
pub struct Calls {
    /// The calls of each thread.
    scripts: Vec<Plan>,
    /// The thread of each call.
    turns: Vec<ThreadNo>,
    /// The greatest label of an allocation plus one, or 0.
    labels: u32,
    /// What was done with each label, by its number; with a label behind the last one, nothing.
    uses: Vec<LabelUse>,
}

impl Calls {
    ghost use Rattle.tc_model.specs.Input.{label_end, script_of};
    ghost use Rattle.trace_reader.specs.Kept.{calls_of, script_at, use_at, label_bound, IsKept, MayFollow, marked};

    /// No calls, of any thread.
    pub fn new(alloc: Global) -> Result<Self, AllocError>
        ensures none { IfOk result (λ calls. calls_of calls ≡ []) }
        ensures threads { IfOk result (λ calls. length calls.scripts.items ≡ MOST_THREADS) }
        ensures kept { IfOk result IsKept }
    {
        let mut scripts = Vec::with_capacity(alloc, MOST_THREADS)?;
        for _thread in 0..MOST_THREADS {
            scripts.push(Plan::new(alloc))?;
        }
        Ok(Calls {
            scripts,
            turns: Vec::new(alloc),
            labels: 0,
            uses: Vec::new(alloc),
        })
    }

    /// What the calls so far did with a label.
    pub fn use_of(&self, label: u64) -> LabelUse
        ensures { result ≡ use_at self.now label }
    {
        match self.uses.get(label as usize) {
            Some(label_use) => *label_use,
            None => LabelUse::New,
        }
    }

    /// Notes what a call does with a label.
    fn mark(&mut self, label: u32, now: LabelUse) -> Result<(), AllocError>
        ensures uses { OnOk result ((other : ℕ) → use_at self.new other ≡ (if other == label then now else use_at self.old other)) }
        ensures scripts { self.new.scripts ≡ self.old.scripts }
        ensures turns { self.new.turns ≡ self.old.turns }
        ensures labels { self.new.labels ≡ self.old.labels }
    {
        let place = label as usize;
        if place >= self.uses.len() {
            self.uses.resize(2 * place + 1, LabelUse::New)?;
        }
        self.uses[place] = now;
        Ok(())
    }

    /// Appends a call.
    fn push(&mut self, thread: ThreadNo, planned: Planned) -> Result<(), AllocError>
        requires { thread.0 < length self.old.scripts.items }
        ensures calls { OnOk result (calls_of self.new ≡ calls_of self.old ++ record { thread = thread; planned = planned } ∷ []) }
        ensures scripts { OnOk result ((t : ℕ) → script_at self.new t ≡ (if t == thread.0 then script_at self.old t ++ planned ∷ [] else script_at self.old t)) }
        ensures turns { OnOk result (self.new.turns.items ≡ self.old.turns.items ++ thread ∷ []) }
        ensures threads { length self.new.scripts.items ≡ length self.old.scripts.items }
        ensures uses { self.new.uses ≡ self.old.uses }
        ensures labels { self.new.labels ≡ self.old.labels }
    {
        let script = &mut self.scripts[usize::from(thread.0)];
        script.push(planned)?;
        self.turns.push(thread)?;
        Ok(())
    }

    /// Notes what a call does with its label.
    fn note(&mut self, call: Call) -> Result<(), AllocError>
        requires { label_end call ≤ MOST_LABELS }
        ensures uses { OnOk result ((label : ℕ) → use_at self.new label ≡ marked call label (use_at self.old label)) }
        ensures labels { OnOk result (self.new.labels ≡ max self.old.labels (label_end call)) }
        ensures scripts { self.new.scripts ≡ self.old.scripts }
        ensures turns { self.new.turns ≡ self.old.turns }
    {
        match call {
            Call::Malloc { label, .. } => {
                self.labels = self.labels.max(label.0 + 1);
                self.mark(label.0, LabelUse::Allocated)
            }
            Call::Free { label } => self.mark(label.0, LabelUse::Freed),
            Call::Release { .. } | Call::Drain { .. } | Call::Resize { .. } => Ok(()),
        }
    }

    /// Appends a call, with what it does with its label.
    pub fn add(&mut self, thread: ThreadNo, planned: Planned) -> Result<(), AllocError>
        requires room { thread.0 < length self.old.scripts.items }
        requires few { label_end planned.call ≤ MOST_LABELS }
        requires order { MayFollow (calls_of self.old) planned.call }
        requires kept { IsKept self.old }
        ensures calls { OnOk result (calls_of self.new ≡ calls_of self.old ++ record { thread = thread; planned = planned } ∷ []) }
        ensures threads { length self.new.scripts.items ≡ length self.old.scripts.items }
        ensures kept { OnOk result (IsKept self.new) }
    {
        self.push(thread, planned)?;
        self.note(planned.call)?;
        Ok(())
    }

    /// The script of each of the first threads, the thread of each call, and the greatest label plus
    /// one, or 0.
    pub fn into_scripts(
        self,
        alloc: Global,
        threads: usize,
    ) -> Result<(Vec<Script>, Vec<ThreadNo>, u32), AllocError>
        requires room { threads ≤ length self.scripts.items }
        requires kept { IsKept self }
        ensures scripts { IfOk result (λ r. r.0.items ≡ map (λ t. record { calls = script_of t (calls_of self) }) (range_with_len 0 threads)) }
        ensures turns { IfOk result (λ r. r.1.items ≡ map (λ c. c.thread) (calls_of self)) }
        ensures labels { IfOk result (λ r. r.2 ≡ label_bound (calls_of self)) }
    {
        let Calls {
            mut scripts,
            turns,
            labels,
            uses: _,
        } = self;
        scripts.truncate(threads);
        let scripts = as_scripts(alloc, scripts)?;
        Ok((scripts, turns, labels))
    }
}

/// Each thread's calls as its script.
fn as_scripts(alloc: Global, scripts: Vec<Plan>) -> Result<Vec<Script>, AllocError>
    ensures { IfOk result (λ r. r.items ≡ map (λ calls. record { calls = calls }) scripts.items) }
{
    scripts
        .into_iter()
        .map(|calls| Script { calls })
        .collect(alloc)
}
