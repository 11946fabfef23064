//! A profile that is kept call by call.
ghost use Rattle.std.specs.Prelude.{◌≡◌, ℕ, ◌+◌, ◌^◌, ◌<◌, List, [], ◌∷◌, ◌++◌, IfOk, OnOk, OnErr, filter, length, not};
ghost use Rattle.tc_model.specs.declared.answers.CallLine.{CallLine};
ghost use Rattle.tc_model.specs.Blocks.{frees};
ghost use Rattle.heap_sample.specs.Samples.{bytes_asked, sampled, sample_under, weight_of, weight_in, AreSame, HasLabel, IsFirstUse, IsFresh, most_calls};
ghost use Rattle.heap_sample.specs.Rows.{rows_of, IsRowsOf};
ghost use Rattle.heap_sample.specs.Profiles.{IsProfileOf, Follows};
ghost use Rattle.heap_sample.specs.Lines.{profile_text};

use crate::live::LiveSamples;
use crate::sample::{Peak, ProfileRow, Sample};
use crate::text::push_profile;
use std::alloc::{AllocError, Global};
use std::marker::Model;
use tc_model::{Answer, Call, CallLine};
use tc_units::{Label, ThreadNo};

/// A sampled profile of the calls that came.
#[derive(Drop)]
pub struct Profile {
    alloc: Global,
    /// In bytes of requests.
    step: u64,
    /// What each thread asked for, in bytes.
    asked: Vec<u64>,
    live: LiveSamples,
    calls: u64,
    peak: Peak,
}

impl Model for Profile {
    ghost use Rattle.std.specs.Prelude.{◌≡◌, ◌+◌, ◌*◌, ◌/◌, ◌<◌, ◌≤◌, length, sum_by, sum};
    ghost use Rattle.heap_sample.specs.Samples.{most_calls, most_size, weight_in};
    ghost use Rattle.heap_sample.specs.Profiles.{Noted};

    ghost Value = { Noted };

    ghost view = { λ p. record { step = p.step; asked = p.asked.items; live = p.live; calls = p.calls; peak = p.peak } };

    ghost invariant = { λ p. (0 < p.step) × (p.calls ≤ most_calls) × (length p.live ≤ p.calls) × (weight_in p.live ≤ sum_by (λ n. n / p.step * p.step) p.asked.items) × (sum p.asked.items ≤ p.calls * most_size) };
}

/// Adds an allocation that got a block of `len` bytes to what its thread asked for, and its sample to the
/// live ones, where it gives one. Where memory is wanting, all is as before.
fn allocate(
    step: u64,
    asked: &mut u64,
    live: &mut LiveSamples,
    label: Label,
    size: u64,
    len: u64,
) -> Result<(), AllocError>
    requires some { 0 < step }
    requires fresh { ¬ (HasLabel live.old label.0) }
    requires few { length live.old + 1 < 2 ^ 64 }
    requires sum { asked.old + size < 2 ^ 64 }
    requires fits { weight_in live.old + weight_of step asked.old (asked.old + size) < 2 ^ 64 }
    ensures asked { OnOk result (asked.new ≡ asked.old + size) }
    ensures live { OnOk result (AreSame live.new (sampled step asked.old label size len ++ live.old)) }
    ensures err { OnErr result ((asked.new ≡ asked.old) × (live.new ≡ live.old)) }
{
    let sum = *asked + size;
    let passed = sum / step - *asked / step;
    if passed > 0 {
        let weight = passed * step;
        live.note(label, Sample { len, weight })?;
    }
    *asked = sum;
    Ok(())
}

/// Adds a call to what its thread asked for and to the live samples. Where memory is wanting, all is as
/// before.
fn note_call(
    step: u64,
    asked: &mut u64,
    live: &mut LiveSamples,
    call: Call,
    answer: Answer,
) -> Result<(), AllocError>
    requires some { 0 < step }
    requires fresh { IsFresh live.old call }
    requires few { length live.old + 1 < 2 ^ 64 }
    requires sum { asked.old + bytes_asked call answer < 2 ^ 64 }
    requires fits { weight_in live.old + weight_of step asked.old (asked.old + bytes_asked call answer) < 2 ^ 64 }
    ensures asked { OnOk result (asked.new ≡ asked.old + bytes_asked call answer) }
    ensures live { OnOk result (AreSame live.new
        (sample_under step asked.old call answer ++ filter (λ s. not (frees s.0 call)) live.old)) }
    ensures err { OnErr result ((asked.new ≡ asked.old) × (live.new ≡ live.old)) }
{
    match (call, answer) {
        (Call::Malloc { label, size }, Answer::Block { len, .. }) => {
            allocate(step, asked, live, label, size, len)
        }
        (Call::Free { label }, _) => {
            live.forget(label);
            Ok(())
        }
        _ => Ok(()),
    }
}

impl Profile {
    /// The profile of no call, with a sample at each `step` bytes that one of `threads` threads asks for.
    pub fn open(alloc: Global, step: u64, threads: u8) -> Result<Self, AllocError>
        requires some { 0 < step }
        ensures step { IfOk result (λ profile. profile.step ≡ step) }
        ensures threads { IfOk result (λ profile. length profile.asked ≡ threads) }
        ensures of_none { IfOk result (λ profile. IsProfileOf [] profile) }
    {
        Ok(Profile {
            alloc,
            step,
            asked: vec![in alloc; 0; usize::from(threads)]?,
            live: LiveSamples::new(alloc),
            calls: 0,
            peak: Peak { bytes: 0, call: 0 },
        })
    }

    /// Adds the next call. Where memory is wanting, the profile is as before.
    pub fn add(&mut self, line: &CallLine) -> Result<(), AllocError>
        requires thread { line.now.thread.0 < length self.old.asked }
        requires fresh { IsFresh self.old.live line.now.call }
        requires few { self.old.calls < most_calls }
        ensures follows { OnOk result (Follows self.old line.now self.new) }
        ensures of_calls { OnOk result ((calls : List CallLine) → IsProfileOf calls self.old
            → IsFirstUse calls line.now.call → IsProfileOf (calls ++ line.now ∷ []) self.new) }
        ensures err { OnErr result (self.new ≡ self.old) }
    {
        let asked = &mut self.asked[usize::from(line.thread.0)];
        note_call(self.step, asked, &mut self.live, line.call, line.answer)?;
        self.calls += 1;
        self.peak = self.peak.after(self.live.weight(), self.calls);
        Ok(())
    }

    /// Adds the next call behind those whose profile it is. Where memory is wanting, the profile is as before.
    pub fn add_next(&mut self, line: &CallLine) -> Result<(), AllocError>
        requires thread { line.now.thread.0 < length self.old.asked }
        requires behind { (calls : List CallLine) × IsProfileOf calls self.old × IsFirstUse calls line.now.call × (length calls < most_calls) }
        ensures step { OnOk result (self.new.step ≡ self.old.step) }
        ensures threads { OnOk result (length self.new.asked ≡ length self.old.asked) }
        ensures of_calls { OnOk result ((calls : List CallLine) → IsProfileOf calls self.old → IsFirstUse calls line.now.call → IsProfileOf (calls ++ line.now ∷ []) self.new) }
        ensures err { OnErr result (self.new ≡ self.old) }
    {
        self.add(line)
    }

    /// The live samples by rising length: how many there are of each, and what they stand for.
    pub fn rows(&self) -> &[ProfileRow]
        ensures { IsRowsOf self.now.live result.now }
    {
        self.live.rows()
    }

    /// The greatest weight of live samples so far, and the least number of calls that reached it.
    pub fn peak(&self) -> Peak
        ensures { result ≡ self.now.peak }
    {
        self.peak
    }

    /// The lines of the rows, and the line of the peak.
    pub fn text(&self) -> Result<Vec<u8>, AllocError>
        ensures { IfOk result (λ text. text.items ≡ profile_text (rows_of self.now.live) self.now.peak) }
    {
        let mut text = Vec::new(self.alloc);
        push_profile(&mut text, self.rows(), self.peak)?;
        Ok(text)
    }
}
