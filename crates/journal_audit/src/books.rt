//! What is kept of the calls that the lines so far told, and the rules on the next line.
ghost use Rattle.std.specs.Prelude.{ℕ, ◌≡◌, ◌^◌, ◌+◌, ◌<◌, ◌==◌, nat_lt, true, false, if◌then◌else◌};
ghost use Rattle.std.specs.Prelude.{List, [], ◌∷◌, ◌++◌, length, slice_index, slice_set, Some, IfSome, option_map};
ghost use Rattle.std.specs.Prelude.{Ok, Err, IfOk, OnOk, MatchResult};
ghost use Rattle.std.specs.List.{list_any, range_with_len};
ghost use Rattle.tc_model.specs.Blocks.{blocks_with};
ghost use Rattle.tc_model.specs.declared.answers.CallLine.{CallLine as Line};
ghost use Rattle.tc_model.specs.declared.calls.Script.{Script as Calls};
ghost use Rattle.journal_audit.specs.Forms.{names, answer_of, malloc_answer, free_answer};
ghost use Rattle.journal_audit.specs.Rules.{Plan, plan_of, next_call, script_at, call_told, line_of, overlaps, frees_own, broken, judged, at_end};
ghost use Rattle.journal_audit.specs.Given.{given_at, given_after, given_by, malloc_given};
ghost use Rattle.journal_audit.specs.Books.{AreOf, AreBooks, IsNext, HasBytes, HasRead};

use crate::answers::{Answers, Given};
use crate::live::Live;
use crate::place::{has_length, lies_in};
use crate::told::{Act, Place, Told};
use crate::verdict::{AuditWhy, Verdict};
use std::alloc::{AllocError, Global};
use tc_model::{Call, Script};
use tc_units::{ClassRow, Label};

/// The most lines of calls.
const MOST_LINES: u32 = 1_000_000;

/// The calls so far.
#[derive(Drop)]
pub struct Books {
    /// How many there are.
    pub calls: u32,
    /// How many of them are each thread's.
    done: Vec<usize>,
    live: Live,
    answers: Answers,
}

/// A line, with the call that it tells.
#[derive(Clone, Copy)]
struct Entry {
    told: Told,
    call: Call,
}

impl Books {
    /// No calls, of so many threads.
    pub fn new(alloc: Global, threads: usize) -> Result<Self, AllocError>
        ensures { IfOk result (λ books. (scripts : List Calls) → length scripts ≡ threads → AreOf scripts [] books) }
    {
        Ok(Books {
            calls: 0,
            done: vec![in alloc; 0usize; threads]?,
            live: Live::new(alloc),
            answers: Answers::new(alloc),
        })
    }

    /// A thread's next call.
    fn next_call(&self, scripts: &[Script], thread: u64) -> Option<Call>
        ensures { (calls : List Line) → AreOf scripts.now calls self.now → result ≡ next_call scripts.now calls thread }
    {
        let place = thread as usize;
        let script = scripts.get(place)?;
        let done = self.done.get(place)?;
        let planned = script.calls.get(*done)?;
        Some(planned.call)
    }

    /// The call that a line tells: its thread's next one, where the line names that.
    fn told_call(&self, scripts: &[Script], told: Told) -> Option<Call>
        ensures told { (calls : List Line) → AreOf scripts.now calls self.now → call_told scripts.now calls told ≡ option_map (line_of told) result }
        ensures named { IfSome result (λ call. names told.act call ≡ true) }
    {
        let call = self.next_call(scripts, told.thread)?;
        if told.act.names(call) {
            Some(call)
        } else {
            None
        }
    }

    /// The first rule on blocks that an allocation fails, where it got one.
    fn broken_block(
        &self,
        huge: u32,
        rows: &[ClassRow],
        size: u64,
        block: Option<Place>,
    ) -> Option<AuditWhy>
        ensures { (scripts : List Calls) (calls : List Line) (label : Label) → AreOf scripts calls self.now
            → result ≡ broken (plan_of huge rows.now scripts) calls (Call.Malloc label size) (malloc_answer block) }
    {
        let place = block?;
        if !has_length(rows, size, place.len) {
            Some(AuditWhy::Length)
        } else if !lies_in(huge, place.addr, place.len) {
            Some(AuditWhy::Arena)
        } else if self.live.meets(place.addr, place.len) {
            Some(AuditWhy::Overlap)
        } else {
            None
        }
    }

    /// Whether a free names the answer of an earlier line with its label, which no line has freed.
    fn frees_own(&self, label: Label, addr: Option<u64>) -> bool
        ensures { (scripts : List Calls) (calls : List Line) → AreOf scripts calls self.now
            → result ≡ frees_own calls (Call.Free label) (free_answer addr) }
    {
        match (self.answers.get(label), addr) {
            (Given::At(given), Some(addr)) => given == addr,
            (Given::Null, None) => true,
            _ => false,
        }
    }

    /// The first rule on a call and its answer that they fail.
    fn broken(&self, huge: u32, rows: &[ClassRow], call: Call, act: Act) -> Option<AuditWhy>
        requires { names act call ≡ true }
        ensures { (scripts : List Calls) (calls : List Line) → AreOf scripts calls self.now
            → result ≡ broken (plan_of huge rows.now scripts) calls call (answer_of act) }
    {
        match call {
            Call::Malloc { size, .. } => match act {
                Act::Malloc { block, .. } => self.broken_block(huge, rows, size, block),
                _ => None,
            },
            Call::Free { label } => match act {
                Act::Free { addr, .. } if !self.frees_own(label, addr) => Some(AuditWhy::Address),
                _ => None,
            },
            _ => None,
        }
    }

    /// The call that a line tells, or the first rule that the line fails.
    fn judge(
        &self,
        huge: u32,
        rows: &[ClassRow],
        scripts: &[Script],
        form: Option<Told>,
    ) -> Result<Entry, AuditWhy>
        ensures { (calls : List Line) → AreOf scripts.now calls self.now → MatchResult result
            (λ entry. (form ≡ Some entry.told) × (judged (plan_of huge rows.now scripts.now) calls form ≡ Ok (line_of entry.told entry.call)))
            (λ reason. judged (plan_of huge rows.now scripts.now) calls form ≡ Err reason) }
    {
        if self.calls >= MOST_LINES {
            return Err(AuditWhy::Lines);
        }
        let Some(told) = form else {
            return Err(AuditWhy::Form);
        };
        let Some(call) = self.told_call(scripts, told) else {
            return Err(AuditWhy::Order);
        };
        match self.broken(huge, rows, call, told.act) {
            Some(why) => Err(why),
            None => Ok(Entry { told, call }),
        }
    }

    /// Notes what an allocation was answered.
    fn note_malloc(&mut self, label: Label, block: Option<Place>) -> Result<(), AllocError>
        requires some { HasBytes (malloc_answer block) }
        requires apart { overlaps self.old.live (malloc_answer block) ≡ false }
        ensures calls { self.new.calls ≡ self.old.calls }
        ensures done { self.new.done ≡ self.old.done }
        ensures live { OnOk result (self.new.live ≡ blocks_with self.old.live (malloc_answer block)) }
        ensures label { OnOk result ((l : ℕ) → given_at self.new.answers l ≡ given_after l label.0 (malloc_given block) (given_at self.old.answers l)) }
    {
        let given = match block {
            Some(place) => {
                self.live.insert(place.addr, place.len)?;
                Given::At(place.addr)
            }
            None => Given::Null,
        };
        match self.answers.get(label) {
            Given::Unanswered => self.answers.set(label, given),
            _ => Ok(()),
        }
    }

    /// Notes what a free gave back.
    fn note_free(&mut self, label: Label, addr: Option<u64>) -> Result<(), AllocError>
        ensures calls { self.new.calls ≡ self.old.calls }
        ensures done { self.new.done ≡ self.old.done }
        ensures live { self.new.live ≡ blocks_with self.old.live (free_answer addr) }
        ensures label { OnOk result ((l : ℕ) → given_at self.new.answers l ≡ (if l == label.0 then Given.Freed else given_at self.old.answers l)) }
    {
        if let Some(addr) = addr {
            self.live.remove(addr);
        }
        self.answers.set(label, Given::Freed)
    }

    /// Notes what a call was answered.
    fn note(&mut self, call: Call, act: Act) -> Result<(), AllocError>
        requires named { names act call ≡ true }
        requires some { HasBytes (answer_of act) }
        requires apart { overlaps self.old.live (answer_of act) ≡ false }
        ensures calls { self.new.calls ≡ self.old.calls }
        ensures done { self.new.done ≡ self.old.done }
        ensures live { OnOk result (self.new.live ≡ blocks_with self.old.live (answer_of act)) }
        ensures label { OnOk result ((l : ℕ) → given_at self.new.answers l ≡ given_by call act l (given_at self.old.answers l)) }
    {
        match call {
            Call::Malloc { label, .. } => match act {
                Act::Malloc { block, .. } => self.note_malloc(label, block),
                _ => Ok(()),
            },
            Call::Free { label } => match act {
                Act::Free { addr, .. } => self.note_free(label, addr),
                _ => Ok(()),
            },
            _ => Ok(()),
        }
    }

    /// Counts one more call, of a thread.
    fn count(&mut self, thread: usize)
        requires there { thread < length self.old.done.items }
        requires fits { slice_index self.old.done.items thread + 1 < 2 ^ 64 }
        requires few { self.old.calls < 1000000 }
        ensures calls { self.new ≡ record self.old { calls = self.old.calls + 1; done = self.new.done } }
        ensures done { self.new.done.items ≡ slice_set self.old.done.items thread (slice_index self.old.done.items thread + 1) }
    {
        self.done[thread] += 1;
        self.calls += 1;
    }

    /// Enters a call that a line tells.
    fn enter(&mut self, entry: Entry) -> Result<(), AllocError>
        requires { IsNext self.old entry.told entry.call }
        ensures { OnOk result ((plan : Plan) (calls : List Line) → AreOf plan.scripts calls self.old
            → judged plan calls (Some entry.told) ≡ Ok (line_of entry.told entry.call)
            → AreOf plan.scripts (calls ++ line_of entry.told entry.call ∷ []) self.new) }
    {
        self.note(entry.call, entry.told.act)?;
        self.count(entry.told.thread as usize);
        Ok(())
    }

    /// Reads one line by its rules, in their order: the first one that it fails, if any.
    pub fn read(
        &mut self,
        huge: u32,
        rows: &[ClassRow],
        scripts: &[Script],
        form: Option<Told>,
    ) -> Result<Option<AuditWhy>, AllocError>
        requires { AreBooks scripts.now self.old }
        ensures { (calls : List Line) → AreOf scripts.now calls self.old
            → IfOk result (λ reason. HasRead (plan_of huge rows.now scripts.now) calls form reason self.new) }
    {
        match self.judge(huge, rows, scripts, form) {
            Err(why) => Ok(Some(why)),
            Ok(entry) => {
                self.enter(entry)?;
                Ok(None)
            }
        }
    }

    /// The verdict where no line is left.
    pub fn verdict(&self, scripts: &[Script]) -> Verdict
        requires { AreBooks scripts.now self.now }
        ensures { (calls : List Line) → AreOf scripts.now calls self.now → result ≡ at_end scripts.now calls }
    {
        if has_left(&self.done, scripts) {
            Verdict::No {
                line: self.calls + 1,
                why: AuditWhy::Missing,
            }
        } else {
            Verdict::Yes {
                calls: u64::from(self.calls),
            }
        }
    }
}

/// Whether some thread has done fewer calls than its script has.
fn has_left(done: &[usize], scripts: &[Script]) -> bool
    requires { length done.now ≡ length scripts.now }
    ensures { result ≡ list_any (λ t. nat_lt (slice_index done.now t) (length (script_at scripts.now t))) (range_with_len 0 (length scripts.now)) }
{
    for thread in 0..scripts.len() {
        if done[thread] < scripts[thread].calls.len() {
            return true;
        }
    }
    false
}
