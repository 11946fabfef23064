//! Reading a trace line by line.
ghost use Rattle.std.specs.Prelude.{ℕ, ◌≡◌, ◌<◌, ◌≤◌, Ok, Some, None, true, false, length, drop, nat_le, ◌+◌, OnOk, IfOk, IfErr, MatchResult};
ghost use Rattle.std.specs.Option.{option_map_or};
ghost use Rattle.trace_reader.specs.Words.{is_head};
ghost use Rattle.trace_reader.specs.Form.{is_head_form, IsInRange};
ghost use Rattle.trace_reader.specs.Reading.{first_word, is_some_and, thread_of, cpu_of, class_of, line_form, rules, verdict, nothing, read_line, with_call, with_form};
ghost use Rattle.tc_model.specs.Input.{label_end};
ghost use Rattle.trace_reader.specs.Kept.{MayFollow};
ghost use Rattle.trace_reader.specs.Steps.{broken, broken_label, so_far, line_at, IsLineFault, HasWord, Fits, IsReading, IsSoFar};
ghost use Rattle.trace_reader.specs.Traces.{trace_of};

use crate::calls::{Calls, LabelUse};
use crate::form::{Form, read_form};
use crate::limits::{MOST_CLASSES, MOST_LABELS, MOST_LINES};
use crate::trace::Trace;
use crate::why::{LineWhy, TraceFault};
use crate::word::{Word, read_word};
use std::alloc::{AllocError, Global};
use tc_model::{Call, Config, MOST_THREADS, MoveTo, Planned};
use tc_units::{Class, CpuNo, Label, Listed, ThreadNo};
use trace_text::Fields;

/// What the lines so far say, whether they are read or are being written.
#[derive(Drop)]
pub struct Reader {
    config: Config,
    /// Whether a line was no head.
    late: bool,
    /// The pending move of each thread.
    moves: [Option<MoveTo>; MOST_THREADS],
    calls: Calls,
}

/// Whether a number is there and isn't below a bound.
fn is_past(number: Option<u64>, bound: u64) -> bool
    ensures { result ≡ is_some_and (nat_le bound) number }
{
    number.is_some_and(|n| n >= bound)
}

impl Form {
    fn thread(self) -> Option<u64>
        ensures { result ≡ thread_of self }
    {
        match self {
            Form::Head { .. } => None,
            Form::Malloc { thread, .. }
            | Form::Free { thread, .. }
            | Form::Move { thread, .. }
            | Form::Release { thread, .. }
            | Form::Drain { thread, .. }
            | Form::Resize { thread, .. } => Some(thread),
        }
    }

    fn cpu(self) -> Option<u64>
        ensures { result ≡ cpu_of self }
    {
        match self {
            Form::Move { cpu, .. } | Form::Drain { cpu, .. } | Form::Resize { cpu, .. } => {
                Some(cpu)
            }
            Form::Head { .. } | Form::Malloc { .. } | Form::Free { .. } | Form::Release { .. } =>
                None,
        }
    }

    fn class(self) -> Option<u64>
        ensures { result ≡ class_of self }
    {
        match self {
            Form::Resize { class, .. } => Some(class),
            _ => None,
        }
    }
}

/// Whether a word names a head.
fn is_head(word: Word) -> bool
    ensures { result ≡ is_head word }
{
    matches!(word, Word::Head(_))
}

/// What the first of a line's fields names.
fn read_first(line: &mut Fields) -> Option<Word>
    ensures word { result ≡ first_word line.old.fields }
    ensures others { line.new.fields ≡ drop 1 line.old.fields }
{
    let field = line.next()?;
    read_word(field.bytes)
}

impl Reader {
    /// Before the first line.
    pub fn new(alloc: Global) -> Result<Self, AllocError>
        ensures nothing { IfOk result (λ reader. so_far reader ≡ nothing) }
        ensures reading { IfOk result IsReading }
    {
        Ok(Reader {
            config: Config::default(),
            late: false,
            moves: [None; MOST_THREADS],
            calls: Calls::new(alloc)?,
        })
    }

    /// The rule on labels that a form fails.
    fn broken_label(&self, form: Form) -> Option<LineWhy>
        requires { IsReading self.now }
        ensures { result ≡ broken_label (so_far self.now).asked.calls form }
    {
        match form {
            Form::Malloc { label, .. } => match self.calls.use_of(label) {
                LabelUse::New => None,
                LabelUse::Allocated | LabelUse::Freed => Some(LineWhy::LabelUsed),
            },
            Form::Free { label, .. } => match self.calls.use_of(label) {
                LabelUse::New => Some(LineWhy::LabelUnknown),
                LabelUse::Allocated => None,
                LabelUse::Freed => Some(LineWhy::LabelFreed),
            },
            _ => None,
        }
    }

    /// The first rule that a form fails.
    fn broken_rule(&self, classes: u32, form: Form) -> Option<LineWhy>
        requires { IsReading self.now }
        ensures { result ≡ broken classes (so_far self.now).asked form }
    {
        if is_past(form.thread(), u64::from(self.config.threads)) {
            Some(LineWhy::Thread)
        } else if is_past(form.cpu(), u64::from(self.config.cpus)) {
            Some(LineWhy::Cpu)
        } else if is_past(form.class(), u64::from(classes.min(MOST_CLASSES))) {
            Some(LineWhy::Class)
        } else {
            self.broken_label(form)
        }
    }

    /// What a line's first field names, or the first rule on it that the line fails.
    fn judge_word(&self, line: &mut Fields) -> Result<Word, LineWhy>
        ensures word { (classes : ℕ) → MatchResult result (HasWord (line_at classes self.now line.old)) (λ why. verdict rules (line_at classes self.now line.old) ≡ Some why) }
        ensures others { OnOk result (line.new.fields ≡ drop 1 line.old.fields) }
    {
        if line.line() > MOST_LINES {
            return Err(LineWhy::Lines);
        }
        let Some(word) = read_first(line) else {
            return Err(LineWhy::Word);
        };
        if self.late && is_head(word) {
            return Err(LineWhy::HeadLate);
        }
        Ok(word)
    }

    /// What a line says, or the first rule that it fails.
    fn judge(&self, classes: u32, line: &mut Fields) -> Result<Form, LineWhy>
        requires { IsReading self.now }
        ensures verdict { MatchResult result (λ _. verdict rules (line_at classes self.now line.old) ≡ None) (λ why. verdict rules (line_at classes self.now line.old) ≡ Some why) }
        ensures form { IfOk result (λ form. line_form line.old.fields ≡ Some form) }
        ensures range { IfOk result IsInRange }
        ensures fits { IfOk result (Fits classes (so_far self.now).asked) }
        ensures head { IfOk result (λ form. is_head_form form ≡ true → self.now.late ≡ false) }
        ensures few { IfOk result (λ _. line.old.line ≤ MOST_LINES) }
    {
        let word = self.judge_word(line)?;
        let form = read_form(word, line)?;
        match self.broken_rule(classes, form) {
            Some(why) => Err(why),
            None => Ok(form),
        }
    }

    /// Adds a call, which takes the thread's pending move.
    #[inline(always)]
    fn call(&mut self, line: u32, thread: u64, call: Call) -> Result<(), AllocError>
        requires thread { thread < self.old.config.threads }
        requires few { label_end call ≤ MOST_LABELS }
        requires order { MayFollow (so_far self.old).asked.calls call }
        requires reading { IsReading self.old }
        ensures added { OnOk result (so_far self.new ≡ with_call line thread call (so_far self.old)) }
        ensures reading { OnOk result (IsReading self.new) }
    {
        let place = thread as usize;
        let moved = self.moves[place];
        self.moves[place] = None;
        self.late = true;
        let planned = Planned { line, call, moved };
        self.calls.add(ThreadNo(thread as u8), planned)
    }

    /// Adds what a line says, which fails no rule where there are as many size classes as there can be.
    #[inline(always)]
    pub fn add(&mut self, line: u32, form: Form) -> Result<(), AllocError>
        requires range { IsInRange form }
        requires fits { Fits MOST_CLASSES (so_far self.old).asked form }
        requires reading { IsReading self.old }
        ensures added { OnOk result (so_far self.new ≡ with_form line form (so_far self.old)) }
        ensures reading { OnOk result (IsReading self.new) }
    {
        let (thread, call) = match form {
            Form::Head { head, value } => {
                self.config.set(head, value);
                return Ok(());
            }
            Form::Move {
                thread,
                before,
                cpu,
            } => {
                self.moves[thread as usize] = Some(MoveTo {
                    before: before as u32,
                    cpu: CpuNo(cpu as u8),
                });
                self.late = true;
                return Ok(());
            }
            Form::Malloc {
                thread,
                label,
                size,
            } => {
                let label = Label(label as u32);
                (thread, Call::Malloc { label, size })
            }
            Form::Free { thread, label } => {
                let label = Label(label as u32);
                (thread, Call::Free { label })
            }
            Form::Release { thread, pages } => (thread, Call::Release { pages }),
            Form::Drain { thread, cpu } => {
                let cpu = CpuNo(cpu as u8);
                (thread, Call::Drain { cpu })
            }
            Form::Resize {
                thread,
                cpu,
                class,
                cap,
            } => {
                let resize = Call::Resize {
                    cpu: CpuNo(cpu as u8),
                    class: Class(class as u8),
                    cap: cap as u32,
                };
                (thread, resize)
            }
        };
        self.call(line, thread, call)
    }

    /// Reads one line by its rules, in their order.
    pub fn read_line(&mut self, classes: u32, line: &mut Fields) -> Result<(), TraceFault>
        requires reading { IsReading self.old }
        requires valid { IsSoFar classes (so_far self.old) }
        ensures read { OnOk result (read_line (line_at classes self.old line.old) ≡ Ok (so_far self.new)) }
        ensures reading { OnOk result (IsReading self.new) }
        ensures valid { OnOk result (IsSoFar classes (so_far self.new)) }
        ensures grows { OnOk result (length (so_far self.new).asked.calls ≤ length (so_far self.old).asked.calls + 1) }
        ensures few { OnOk result (line.old.line ≤ MOST_LINES) }
        ensures fault { IfErr result (IsLineFault (line_at classes self.old line.old)) }
    {
        let number = line.line();
        let form = match self.judge(classes, line) {
            Ok(form) => form,
            Err(why) => return Err(TraceFault::BadLine { line: number, why }),
        };
        match self.add(number, form) {
            Ok(()) => Ok(()),
            Err(_) => Err(TraceFault::Memory),
        }
    }

    /// What the lines ask for.
    pub fn into_trace(self, alloc: Global) -> Result<Trace, AllocError>
        requires { IsReading self }
        ensures { IfOk result (λ trace. trace ≡ trace_of (so_far self).asked) }
    {
        let threads = usize::from(self.config.threads);
        let config = self.config;
        let (scripts, turns, labels) = self.calls.into_scripts(alloc, threads)?;
        Ok(Trace {
            config,
            scripts: Listed::new(scripts),
            turns: Listed::new(turns),
            labels,
        })
    }
}
