//! What a line of a trace says.
ghost use Rattle.std.specs.Prelude.{◌≡◌, ◌≢◌, ◌==◌, ◌<◌, ◌≤◌, ◌^◌, [], drop, length, slice_get, option_and_then, IfOk, IfSome, MatchOption};
ghost use Rattle.trace_reader.specs.Words.{from_to, place};
ghost use Rattle.trace_reader.specs.Form.{number_in, has_fields, form_of, read_fields, IsReadAs};
ghost use Rattle.trace_reader.specs.declared.word.Word.TheVariants as word;

use crate::limits::{
    MOST_BEFORE, MOST_CAPACITY, MOST_LABELS, MOST_PLACE, MOST_RELEASED, MOST_SIZE,
};
use crate::why::LineWhy;
use crate::word::Word;
use tc_model::Head;
use trace_text::Fields;

/// What a line says, its numbers in their ranges. Whether there are such a thread, CPU and class, and
/// whether the label may be used, isn't known yet.
#[derive(Clone, Copy, Debug, PartialEq, Eq)]
pub enum Form {
    /// A limit of the run.
    Head {
        head: Head,
        value: u64,
    },
    /// Allocates `size` bytes.
    Malloc {
        thread: u64,
        label: u64,
        size: u64,
    },
    Free {
        thread: u64,
        label: u64,
    },
    /// The thread's next call is preempted before this executed instruction, from 1, and goes on at
    /// another CPU.
    Move {
        thread: u64,
        before: u64,
        cpu: u64,
    },
    /// Gives back the backing of free pages.
    Release {
        thread: u64,
        pages: u64,
    },
    Drain {
        thread: u64,
        cpu: u64,
    },
    /// Sets how many objects of a class the cache of a CPU may hold.
    Resize {
        thread: u64,
        cpu: u64,
        class: u64,
        cap: u64,
    },
}

/// The number of the next field, from `least` to `most`.
#[inline(always)]
pub fn next_number(fields: &mut Fields, least: u64, most: u64) -> Option<u64>
    requires { most < 2 ^ 60 }
    ensures number { result ≡ option_and_then (number_in (from_to least most)) (slice_get fields.old.fields 0) }
    ensures others { IfSome result (λ _. fields.new.fields ≡ drop 1 fields.old.fields) }
    ensures range { IfSome result (λ n. (least ≤ n) × (n ≤ most)) }
{
    fields.number(most).filter(|n| *n >= least)
}

/// The same, of a number that likely has one digit.
#[inline(always)]
pub fn next_short_number(fields: &mut Fields, least: u64, most: u64) -> Option<u64>
    requires { most < 2 ^ 60 }
    ensures number { result ≡ option_and_then (number_in (from_to least most)) (slice_get fields.old.fields 0) }
    ensures others { IfSome result (λ _. fields.new.fields ≡ drop 1 fields.old.fields) }
    ensures range { IfSome result (λ n. (least ≤ n) × (n ≤ most)) }
{
    fields.short_number(most).filter(|n| *n >= least)
}

/// The number of the next field, of a thread, a CPU or a class.
#[inline(always)]
pub fn next_place(fields: &mut Fields) -> Option<u64>
    ensures number { result ≡ option_and_then (number_in place) (slice_get fields.old.fields 0) }
    ensures others { IfSome result (λ _. fields.new.fields ≡ drop 1 fields.old.fields) }
    ensures range { IfSome result (λ n. n ≤ MOST_PLACE) }
{
    next_short_number(fields, 0, MOST_PLACE)
}

/// `Some` exactly where no field is left.
#[inline(always)]
pub fn end(fields: &mut Fields) -> Option<()>
    ensures { MatchOption result (fields.old.fields ≢ []) (λ _. fields.old.fields ≡ []) }
{
    match fields.next() {
        None => Some(()),
        Some(_) => None,
    }
}

#[tactic(auto, using(crate::proofs::Values::head_most))]
fn head(fields: &mut Fields, head: Head) -> Option<Form>
    ensures form { result ≡ form_of (word.Head head) fields.old.fields }
    ensures range { IfSome result (IsReadAs (word.Head head)) }
{
    let rule = head.rule();
    let value = next_number(fields, rule.least, rule.most)?;
    end(fields)?;
    Some(Form::Head { head, value })
}

#[inline(always)]
fn malloc(fields: &mut Fields) -> Option<Form>
    ensures form { result ≡ form_of word.Malloc fields.old.fields }
    ensures range { IfSome result (IsReadAs word.Malloc) }
{
    let thread = next_place(fields)?;
    let label = next_number(fields, 0, MOST_LABELS - 1)?;
    let size = next_number(fields, 0, MOST_SIZE)?;
    end(fields)?;
    Some(Form::Malloc {
        thread,
        label,
        size,
    })
}

#[inline(always)]
fn free(fields: &mut Fields) -> Option<Form>
    ensures form { result ≡ form_of word.Free fields.old.fields }
    ensures range { IfSome result (IsReadAs word.Free) }
{
    let thread = next_place(fields)?;
    let label = next_number(fields, 0, MOST_LABELS - 1)?;
    end(fields)?;
    Some(Form::Free { thread, label })
}

fn preemption(fields: &mut Fields) -> Option<Form>
    ensures form { result ≡ form_of word.Move fields.old.fields }
    ensures range { IfSome result (IsReadAs word.Move) }
{
    let thread = next_place(fields)?;
    let before = next_number(fields, 1, MOST_BEFORE)?;
    let cpu = next_place(fields)?;
    end(fields)?;
    Some(Form::Move {
        thread,
        before,
        cpu,
    })
}

fn release(fields: &mut Fields) -> Option<Form>
    ensures form { result ≡ form_of word.Release fields.old.fields }
    ensures range { IfSome result (IsReadAs word.Release) }
{
    let thread = next_place(fields)?;
    let pages = next_number(fields, 0, MOST_RELEASED)?;
    end(fields)?;
    Some(Form::Release { thread, pages })
}

fn drain(fields: &mut Fields) -> Option<Form>
    ensures form { result ≡ form_of word.Drain fields.old.fields }
    ensures range { IfSome result (IsReadAs word.Drain) }
{
    let thread = next_place(fields)?;
    let cpu = next_place(fields)?;
    end(fields)?;
    Some(Form::Drain { thread, cpu })
}

fn resize(fields: &mut Fields) -> Option<Form>
    ensures form { result ≡ form_of word.Resize fields.old.fields }
    ensures range { IfSome result (IsReadAs word.Resize) }
{
    let thread = next_place(fields)?;
    let cpu = next_place(fields)?;
    let class = next_place(fields)?;
    let cap = next_number(fields, 0, MOST_CAPACITY)?;
    end(fields)?;
    Some(Form::Resize {
        thread,
        cpu,
        class,
        cap,
    })
}

/// What a word says with the fields behind it, where they are as many as it wants, each a number in its range.
fn form_with(word: Word, fields: &mut Fields) -> Option<Form>
    ensures form { result ≡ form_of word fields.old.fields }
    ensures range { IfSome result (IsReadAs word) }
{
    match word {
        Word::Head(name) => head(fields, name),
        Word::Malloc => malloc(fields),
        Word::Free => free(fields),
        Word::Move => preemption(fields),
        Word::Release => release(fields),
        Word::Drain => drain(fields),
        Word::Resize => resize(fields),
    }
}

/// Whether so many fields are left.
fn are_left(fields: &mut Fields, count: u8) -> bool
    ensures { result ≡ (length fields.old.fields == count) }
{
    for _field in 0..count {
        if fields.next().is_none() {
            return false;
        }
    }
    fields.next().is_none()
}

/// Whether the fields behind a word are as many as it wants.
fn has_fields(word: Word, fields: &mut Fields) -> bool
    ensures { result ≡ has_fields word fields.old.fields }
{
    let count = match word {
        Word::Head(_) => 1,
        Word::Free | Word::Release | Word::Drain => 2,
        Word::Malloc | Word::Move => 3,
        Word::Resize => 4,
    };
    are_left(fields, count)
}

/// What a word says with the fields behind it, by the rules `Fields` and `Number`.
pub fn read_form(word: Word, fields: &mut Fields) -> Result<Form, LineWhy>
    ensures form { result ≡ read_fields word fields.old.fields }
    ensures range { IfOk result (IsReadAs word) }
{
    let mut all = fields.again();
    match form_with(word, fields) {
        Some(form) => Ok(form),
        None if has_fields(word, &mut all) => Err(LineWhy::Number),
        None => Err(LineWhy::Fields),
    }
}
