//! Running a job: the order of its picks that moved, and the text of what the run came to.
ghost use Rattle.std.specs.Prelude.{◌≡◌, ◌*◌, ◌<◌, ◌≤◌, ◌++◌, ℕ, List, [], All, IfOk, IfErr, IfSome, IsFalse, IsOk, OnOk, None, if◌then◌else◌};
ghost use Rattle.tc_units.specs.Units.{page_bytes, huge_pages};
ghost use Rattle.tc_units.specs.Classes.{length_of};
ghost use Rattle.tc_model.specs.Blocks.{IsBlockRun};
ghost use Rattle.tc_model.specs.Replays.{HaveEnded};
ghost use Rattle.tc_model.specs.declared.steps.StepFault.TheVariants as faults;
ghost use Rattle.tc_model.specs.Serial.{IsCutShort};
ghost use Rattle.trace_reader.specs.Valid.{IsAsked};
ghost use Rattle.alloc_rules.specs.Inputs.{not_taken};
ghost use Rattle.alloc_rules.specs.Told.{TellsScripts};
ghost use Rattle.tc_machine.specs.Along.{IsStopped};
ghost use Rattle.tc_machine.specs.Arena.{most_huge_of_nodes};
ghost use Rattle.tc_machine.specs.Inputs.{asked_of};
ghost use Rattle.tc_machine.specs.Played.{told_at, world};
ghost use Rattle.usage_report.specs.Report.{IsTellable};
ghost use Rattle.tcreplay.specs.Verdict.{profile_if, summary_in, text_with, told_by, order_by};
ghost use Rattle.tcreplay.specs.Hearing.{totals_text};
ghost use Rattle.tcreplay.specs.Reads.{seen_job, IsRunnable};
ghost use Rattle.tcreplay.specs.Ran.{AreTellable, HasStep, IsPlain, IsRunOf};
ghost use Rattle.tcreplay.specs.declared.run.Telling.{Telling};

use crate::hearing::{Ignored, Lines, Sampled};
use crate::input::Job;
use crate::outcome::End;
use crate::task::Locks;
use alloc_rules::LawfulFront;
use heap_sample::{Profile, push_profile_of};
use journal_audit::journal_law;
use std::alloc::{AllocError, Global};
use tc_machine::{AllocMachine, Allocator, Decides, Forgetful, Recalls, State, Totals};
use tc_model::StepFault;
use tc_units::RowView;
use usage_report::{Summary, push_rows, push_summary, roomy_text, text_in};

/// What is told of a run that has ended.
#[derive(Clone, Copy, Debug)]
pub enum Telling {
    /// Its text, with a line for each hugepage on demand, and on demand with the profile of allocations that are
    /// sampled, one at each so many bytes of requests of a thread.
    Whole { rows: bool, sample: Option<u64> },
    /// The summary alone.
    Summary,
}

impl Telling {
    /// Whether a profile is told of it.
    fn samples(self) -> bool
        ensures { IsFalse result → IsPlain self }
    {
        match self {
            Telling::Whole { sample, .. } => sample.is_some(),
            Telling::Summary => false,
        }
    }
}

/// What a run came to.
#[derive(Drop)]
pub struct Ran {
    /// `Done`, or `Full` where the run stands at its limit.
    pub end: End,
    /// The threads whose picks moved, in order.
    pub order: Vec<u16>,
    /// What is told of a run that has ended; else there is nothing.
    pub text: Vec<u8>,
    /// Under which locks worker threads began it, if they did.
    pub under: Option<Locks>,
}

/// The numbers of a run's summary.
fn summary_of(totals: &Totals) -> Summary
    ensures { result ≡ record { calls = totals.now.calls; live = totals.now.live; live_bytes = totals.now.live_bytes; used = totals.now.used; resident = totals.now.resident } }
{
    Summary {
        calls: totals.calls,
        live: totals.live,
        live_bytes: totals.live_bytes,
        used: totals.used,
        resident: totals.resident,
    }
}

/// The arena's hugepages, where they are told.
fn rows_if(told: bool, totals: &Totals) -> &[RowView]
    ensures { result.now ≡ (if told then totals.now.rows else []) }
{
    if told { totals.rows.as_slice() } else { &[] }
}

/// Appends the summary of a run, and on demand a line for each hugepage.
fn push_totals(text: &mut Vec<u8>, totals: &Totals, rows: bool) -> Result<(), AllocError>
    requires covered { totals.now.live_bytes ≤ totals.now.resident * page_bytes }
    requires arena { totals.now.resident ≤ huge_pages * most_huge_of_nodes }
    ensures { OnOk result (text.new.items ≡ text.old.items ++ totals_text rows totals.now) }
{
    push_summary(text, &summary_of(totals))?;
    push_rows(text, rows_if(rows, totals))
}

/// Appends the profile of a run's sampled allocations, where a step is named.
fn push_sampled<M: Recalls>(
    alloc: Global,
    text: &mut Vec<u8>,
    state: &State<M>,
    sample: Option<u64>,
) -> Result<(), AllocError>
    requires step { IfSome sample (λ step. 1 ≤ step) }
    requires ended { HaveEnded (M.rules_of state.now.options state.now.input) (world M.rules_of state.now) }
    requires valid { (classes : ℕ) × IsAsked classes state.now.input.asked }
    requires blocks { IsBlockRun (M.arena state.now.options state.now.input) (length_of state.now.input.rows) (told_at M.told state.now).calls }
    requires scripts { TellsScripts state.now.input.asked (told_at M.told state.now).calls }
    ensures { OnOk result (text.new.items ≡ text.old.items ++ profile_if sample (told_at M.told state.now).calls) }
{
    let Some(step) = sample else {
        return Ok(());
    };
    let profile = Profile::open(alloc, step, state.threads())?;
    let (sampled, _) = state.tell(Sampled { profile })?;
    push_profile_of(text, &sampled.profile)
}

/// The whole text of a run that has ended: the line of each call as it is told, the summary, and on demand a line for each
/// hugepage and the profile.
fn whole<M: Recalls>(
    alloc: Global,
    state: &State<M>,
    rows: bool,
    sample: Option<u64>,
) -> Result<Vec<u8>, AllocError>
    requires step { IfSome sample (λ step. 1 ≤ step) }
    requires ended { HaveEnded (M.rules_of state.now.options state.now.input) (world M.rules_of state.now) }
    requires valid { (classes : ℕ) × IsAsked classes state.now.input.asked }
    ensures text { IfOk result (λ text. text.items ≡ text_with rows sample (told_at M.told state.now)) }
    ensures tellable { IfOk result (λ _. All IsTellable (told_at M.told state.now).calls) }
    ensures blocks { IfOk result (λ _. IsBlockRun (M.arena state.now.options state.now.input) (length_of state.now.input.rows) (told_at M.told state.now).calls) }
    ensures scripts { IfOk result (λ _. TellsScripts state.now.input.asked (told_at M.told state.now).calls) }
{
    let text = roomy_text(alloc, state.calls(), 0)?;
    let (lines, totals) = state.tell(Lines { text })?;
    let mut text = lines.text;
    push_totals(&mut text, &totals, rows)?;
    push_sampled(alloc, &mut text, state, sample)?;
    Ok(text)
}

/// The summary alone of a run that has ended.
fn brief<M: Recalls>(alloc: Global, state: &State<M>) -> Result<Vec<u8>, AllocError>
    requires ended { HaveEnded (M.rules_of state.now.options state.now.input) (world M.rules_of state.now) }
    ensures text { IfOk result (λ text. text.items ≡ summary_in (told_at M.told state.now)) }
    ensures blocks { IfOk result (λ _. IsBlockRun (M.arena state.now.options state.now.input) (length_of state.now.input.rows) (told_at M.told state.now).calls) }
    ensures scripts { IfOk result (λ _. TellsScripts state.now.input.asked (told_at M.told state.now).calls) }
{
    let (_, totals) = state.tell(Ignored)?;
    let mut text = roomy_text(alloc, 0, 0)?;
    push_summary(&mut text, &summary_of(&totals))?;
    Ok(text)
}

/// What is told of a run that has ended.
fn told<M: Recalls>(
    alloc: Global,
    state: &State<M>,
    telling: Telling,
) -> Result<Vec<u8>, AllocError>
    requires step { HasStep telling }
    requires ended { HaveEnded (M.rules_of state.now.options state.now.input) (world M.rules_of state.now) }
    requires valid { (classes : ℕ) × IsAsked classes state.now.input.asked }
    ensures text { IfOk result (λ text. text.items ≡ told_by telling (told_at M.told state.now)) }
    ensures tellable { IfOk result (λ _. AreTellable telling (told_at M.told state.now).calls) }
    ensures blocks { IfOk result (λ _. IsBlockRun (M.arena state.now.options state.now.input) (length_of state.now.input.rows) (told_at M.told state.now).calls) }
    ensures scripts { IfOk result (λ _. TellsScripts state.now.input.asked (told_at M.told state.now).calls) }
{
    match telling {
        Telling::Whole { rows, sample } => whole(alloc, state, rows, sample),
        Telling::Summary => brief(alloc, state),
    }
}

/// What a run came to whose scripts have all ended, with what is told of it.
fn end<M: Allocator>(state: State<M>, telling: Telling, text: Vec<u8>) -> Ran
    requires ended { HaveEnded (M.rules_of state.options state.input) (world M.rules_of state) }
    requires valid { (classes : ℕ) × IsAsked classes state.input.asked }
    requires text { text.items ≡ told_by telling (told_at M.told state) }
    requires tellable { AreTellable telling (told_at M.told state).calls }
    requires blocks { IsBlockRun (M.arena state.options state.input) (length_of state.input.rows) (told_at M.told state).calls }
    requires scripts { TellsScripts state.input.asked (told_at M.told state).calls }
    ensures { IsRunOf (M.rules_of state.options) (M.arena state.options) (M.told state.options) (M.lawful state.options) telling state.input state.order result }
{
    let _ = telling;
    let order = state.into_order();
    journal_law();
    Ran {
        end: End::Done,
        order,
        text,
        under: None,
    }
}

/// What a run came to whose scripts have all ended.
fn tell<M: Recalls>(alloc: Global, state: State<M>, telling: Telling) -> Result<Ran, AllocError>
    requires ended { HaveEnded (M.rules_of state.options state.input) (world M.rules_of state) }
    requires valid { (classes : ℕ) × IsAsked classes state.input.asked }
    requires step { HasStep telling }
    ensures { IfOk result (IsRunOf (M.rules_of state.options) (M.arena state.options) (M.told state.options) (M.lawful state.options) telling state.input state.order) }
{
    let text = told(alloc, &state, telling)?;
    Ok(end(state, telling, text))
}

/// What a run came to that stands at its limit, where one pick more would move; or that memory was wanting for it.
fn stop<M: Allocator>(alloc: Global, state: State<M>, fault: StepFault) -> Result<Ran, AllocError>
    requires stopped { (whole : List ℕ) × IsStopped (M.rules_of state.options state.input) state.input.asked.config.events whole state.order fault }
    ensures ran { (whole : List ℕ) (telling : Telling) → IsStopped (M.rules_of state.options state.input) state.input.asked.config.events whole state.order fault → IfOk result (IsRunOf (M.rules_of state.options) (M.arena state.options) (M.told state.options) (M.lawful state.options) telling state.input whole) }
    ensures full { (fault ≡ faults.Memory → ⊥) → IsOk result }
{
    match fault {
        StepFault::Full { ticket } => Ok(Ran {
            end: End::Full { ticket },
            order: state.into_order(),
            text: Vec::new(alloc),
            under: None,
        }),
        StepFault::Memory => Err(AllocError),
    }
}

/// What a run came to that was to be completed. Where it stands at its limit it is no want of memory that ends it.
pub fn come_to<M: Recalls>(
    alloc: Global,
    state: State<M>,
    completed: Result<(), StepFault>,
    telling: Telling,
) -> Result<Ran, AllocError>
    requires valid { (classes : ℕ) × IsAsked classes state.input.asked }
    requires step { HasStep telling }
    requires ended { OnOk completed (HaveEnded (M.rules_of state.options state.input) (world M.rules_of state)) }
    requires fault { (whole : List ℕ) × IfErr completed (IsCutShort (M.rules_of state.options state.input) state.input.asked.config.events whole state.order) }
    ensures ran { (whole : List ℕ) → OnOk completed (state.order ≡ whole) → IfErr completed (IsCutShort (M.rules_of state.options state.input) state.input.asked.config.events whole state.order) → IfOk result (IsRunOf (M.rules_of state.options) (M.arena state.options) (M.told state.options) (M.lawful state.options) telling state.input whole) }
    ensures full { IfErr completed (λ fault. (fault ≡ faults.Memory → ⊥) → IsOk result) }
{
    match completed {
        Ok(()) => tell(alloc, state, telling),
        Err(fault) => stop(alloc, state, fault),
    }
}

/// Runs a job on a machine with these options.
pub fn run<M: Recalls>(
    alloc: Global,
    options: M::Options,
    job: Job,
    telling: Telling,
) -> Result<Ran, AllocError>
    requires runs { IsRunnable job }
    requires step { HasStep telling }
    requires taken { not_taken M.takes (asked_of job.trace).calls ≡ 0 }
    ensures { IfOk result (IsRunOf (M.rules_of options) (M.arena options) (M.told options) (M.lawful options) telling (seen_job job).input (order_by (M.rules_of options) (seen_job job))) }
{
    let Job {
        table,
        trace,
        picks,
        room,
    } = job;
    drop(room);
    let mut state = State::<M>::open(alloc, options, table, trace)?;
    let completed = state.run_order(&picks);
    come_to(alloc, state, completed, telling)
}

/// The text of a run, whose calls are told as they are decided. It is written in this room.
fn whole_along<M: Decides>(
    state: &mut State<M>,
    picks: &[u16],
    rows: bool,
    room: Vec<u8>,
) -> Result<Vec<u8>, StepFault>
    requires threads { All (λ t. t < state.old.input.asked.config.threads) picks.now }
    requires start { state.old.order ≡ [] }
    ensures options { state.new.options ≡ state.old.options }
    ensures input { state.new.input ≡ state.old.input }
    ensures order { OnOk result (state.new.order ≡ order_by (M.rules_of state.old.options) (record { input = state.old.input; picks = picks.now })) }
    ensures ended { OnOk result (HaveEnded (M.rules_of state.new.options state.new.input) (world M.rules_of state.new)) }
    ensures text { IfOk result (λ text. text.items ≡ text_with rows None (told_at M.told state.new)) }
    ensures tellable { OnOk result (All IsTellable (told_at M.told state.new).calls) }
    ensures blocks { OnOk result (IsBlockRun (M.arena state.new.options state.new.input) (length_of state.new.input.rows) (told_at M.told state.new).calls) }
    ensures scripts { OnOk result (TellsScripts state.new.input.asked (told_at M.told state.new).calls) }
    ensures full { IfErr result (IsStopped (M.rules_of state.old.options state.old.input) state.old.input.asked.config.events (order_by (M.rules_of state.old.options) (record { input = state.old.input; picks = picks.now })) state.new.order) }
{
    let Ok(text) = text_in(room, state.calls(), 0) else {
        return Err(StepFault::Memory);
    };
    let (lines, totals) = match state.tell_order(picks, Lines { text }) {
        Ok(told) => told,
        Err(fault) => return Err(fault),
    };
    let mut text = lines.text;
    match push_totals(&mut text, &totals, rows) {
        Ok(()) => Ok(text),
        Err(AllocError) => Err(StepFault::Memory),
    }
}

/// The summary alone of a run, whose calls are counted as they are decided.
fn brief_along<M: Decides>(
    alloc: Global,
    state: &mut State<M>,
    picks: &[u16],
) -> Result<Vec<u8>, StepFault>
    requires threads { All (λ t. t < state.old.input.asked.config.threads) picks.now }
    requires start { state.old.order ≡ [] }
    ensures options { state.new.options ≡ state.old.options }
    ensures input { state.new.input ≡ state.old.input }
    ensures order { OnOk result (state.new.order ≡ order_by (M.rules_of state.old.options) (record { input = state.old.input; picks = picks.now })) }
    ensures ended { OnOk result (HaveEnded (M.rules_of state.new.options state.new.input) (world M.rules_of state.new)) }
    ensures text { IfOk result (λ text. text.items ≡ summary_in (told_at M.told state.new)) }
    ensures blocks { OnOk result (IsBlockRun (M.arena state.new.options state.new.input) (length_of state.new.input.rows) (told_at M.told state.new).calls) }
    ensures scripts { OnOk result (TellsScripts state.new.input.asked (told_at M.told state.new).calls) }
    ensures full { IfErr result (IsStopped (M.rules_of state.old.options state.old.input) state.old.input.asked.config.events (order_by (M.rules_of state.old.options) (record { input = state.old.input; picks = picks.now })) state.new.order) }
{
    let Ok(mut text) = roomy_text(alloc, 0, 0) else {
        return Err(StepFault::Memory);
    };
    let (_, totals) = match state.tell_order(picks, Ignored) {
        Ok(told) => told,
        Err(fault) => return Err(fault),
    };
    match push_summary(&mut text, &summary_of(&totals)) {
        Ok(()) => Ok(text),
        Err(AllocError) => Err(StepFault::Memory),
    }
}

/// What is told of a run, whose calls are told as they are decided, each as a line in this room where all are.
fn told_along<M: Decides>(
    alloc: Global,
    state: &mut State<M>,
    picks: &[u16],
    telling: Telling,
    room: Vec<u8>,
) -> Result<Vec<u8>, StepFault>
    requires plain { IsPlain telling }
    requires threads { All (λ t. t < state.old.input.asked.config.threads) picks.now }
    requires start { state.old.order ≡ [] }
    ensures options { state.new.options ≡ state.old.options }
    ensures input { state.new.input ≡ state.old.input }
    ensures order { OnOk result (state.new.order ≡ order_by (M.rules_of state.old.options) (record { input = state.old.input; picks = picks.now })) }
    ensures ended { OnOk result (HaveEnded (M.rules_of state.new.options state.new.input) (world M.rules_of state.new)) }
    ensures text { IfOk result (λ text. text.items ≡ told_by telling (told_at M.told state.new)) }
    ensures tellable { OnOk result (AreTellable telling (told_at M.told state.new).calls) }
    ensures blocks { OnOk result (IsBlockRun (M.arena state.new.options state.new.input) (length_of state.new.input.rows) (told_at M.told state.new).calls) }
    ensures scripts { OnOk result (TellsScripts state.new.input.asked (told_at M.told state.new).calls) }
    ensures full { IfErr result (IsStopped (M.rules_of state.old.options state.old.input) state.old.input.asked.config.events (order_by (M.rules_of state.old.options) (record { input = state.old.input; picks = picks.now })) state.new.order) }
{
    match telling {
        Telling::Whole { rows, .. } => whole_along(state, picks, rows, room),
        Telling::Summary => brief_along(alloc, state, picks),
    }
}

/// Runs a job on a machine with these options, and tells each call as it is decided.
fn run_along<M: Decides>(
    alloc: Global,
    options: M::Options,
    job: Job,
    telling: Telling,
) -> Result<Ran, AllocError>
    requires runs { IsRunnable job }
    requires plain { IsPlain telling }
    requires taken { not_taken M.takes (asked_of job.trace).calls ≡ 0 }
    ensures { IfOk result (IsRunOf (M.rules_of options) (M.arena options) (M.told options) (M.lawful options) telling (seen_job job).input (order_by (M.rules_of options) (seen_job job))) }
{
    let Job {
        table,
        trace,
        picks,
        room,
    } = job;
    let mut state = State::<M>::open(alloc, options, table, trace)?;
    match told_along(alloc, &mut state, &picks, telling, room) {
        Ok(text) => Ok(end(state, telling, text)),
        Err(fault) => stop(alloc, state, fault),
    }
}

/// Runs a job on the allocator over a front-end. Its calls are told as they are decided, and a profile needs them once more
/// behind the run.
pub fn run_over<F: LawfulFront>(
    alloc: Global,
    job: Job,
    telling: Telling,
) -> Result<Ran, AllocError>
    requires runs { IsRunnable job }
    requires step { HasStep telling }
    requires taken { not_taken F.takes (asked_of job.trace).calls ≡ 0 }
    ensures { IfOk result (IsRunOf (⟦<AllocMachine<F> as Allocator>⟧.rules_of tt) (⟦<AllocMachine<F> as Allocator>⟧.arena tt) (⟦<AllocMachine<F> as Allocator>⟧.told tt) (⟦<AllocMachine<F> as Allocator>⟧.lawful tt) telling (seen_job job).input (order_by (⟦<AllocMachine<F> as Allocator>⟧.rules_of tt) (seen_job job))) }
{
    if telling.samples() {
        run::<AllocMachine<F>>(alloc, (), job, telling)
    } else {
        run_along::<Forgetful<F>>(alloc, (), job, telling)
    }
}
