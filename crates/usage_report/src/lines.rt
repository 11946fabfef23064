//! The lines of calls, each written from its end to its begin, since a number's last digit is known first.
ghost use Rattle.std.specs.Prelude.{◌≡◌, ◌+◌, ◌≤◌, [], ◌∷◌, ◌++◌, All, OnOk, decimal, drop, length};
ghost use Rattle.std.specs.List.{flat_map};
ghost use Rattle.usage_report.specs.Report.{spaced, letter_of, named_words, answer_words, call_line};
ghost use Rattle.usage_report.specs.Report.{IsSmall, NamesSmall, AnswersSmall, IsTellable};

use crate::words::{write_counted, write_number, write_word};
use std::alloc::AllocError;
use tc_model::{Answer, Call, CallLine};
use tc_units::ThreadNo;

/// Room for a letter, six numbers of twenty digits behind a space each, or fewer of them with a word, and a line feed. No call's
/// line has as many bytes.
const LINE_BYTES: usize = 128;

/// Writes what a call answered so that it ends at `end`.
fn write_answer(answer: Answer, line: &mut [u8], end: usize) -> usize
    requires within { end ≤ length line.old }
    requires room { 42 ≤ end }
    ensures written { drop result line.new ≡ spaced (answer_words answer) ++ drop end line.old }
    ensures begin { (result ≤ end) × (end ≤ result + 42) }
    ensures small { AnswersSmall answer }
{
    match answer {
        Answer::Block { addr, len } => {
            let len = write_number(len, line, end);
            write_number(addr.0, line, len)
        }
        Answer::NoBlock | Answer::FreedNull => write_word(b" none", line, end),
        Answer::Freed { addr } => write_number(addr.0, line, end),
        Answer::Released { pages } => write_number(pages, line, end),
        Answer::Drained { objects } => write_counted(b" ok", objects, line, end),
        Answer::Busy { owner } => write_counted(b" busy", u64::from(owner.0), line, end),
        Answer::CapSet => write_word(b" ok", line, end),
        Answer::OverLimit { sum } => write_counted(b" overlimit", sum, line, end),
        Answer::OverStatic { cap } => write_counted(b" overstatic", u64::from(cap), line, end),
    }
}

/// Writes what a call names so that it ends at `end`.
fn write_named(call: Call, line: &mut [u8], end: usize) -> usize
    requires within { end ≤ length line.old }
    requires room { 63 ≤ end }
    ensures written { drop result line.new ≡ spaced (named_words call) ++ drop end line.old }
    ensures begin { (result ≤ end) × (end ≤ result + 63) }
    ensures small { NamesSmall call }
{
    match call {
        Call::Malloc { label, .. } | Call::Free { label } => {
            write_number(u64::from(label.0), line, end)
        }
        Call::Release { .. } => end,
        Call::Drain { cpu } => write_number(u64::from(cpu.0), line, end),
        Call::Resize { cpu, class, cap } => {
            let cap = write_number(u64::from(cap), line, end);
            let class = write_number(u64::from(class.0), line, cap);
            write_number(u64::from(cpu.0), line, class)
        }
    }
}

/// The letter of a call's kind.
fn letter_of(call: Call) -> u8
    ensures { result ∷ [] ≡ letter_of call }
{
    match call {
        Call::Malloc { .. } => b'a',
        Call::Free { .. } => b'f',
        Call::Release { .. } => b'r',
        Call::Drain { .. } => b'd',
        Call::Resize { .. } => b'z',
    }
}

/// Writes what a call asked so that it ends at `end`.
fn write_call(thread: ThreadNo, call: Call, line: &mut [u8], end: usize) -> usize
    requires within { end ≤ length line.old }
    requires room { 85 ≤ end }
    ensures written { drop result line.new ≡ letter_of call ++ spaced (decimal thread.0 ∷ named_words call) ++ drop end line.old }
    ensures within { result ≤ end }
    ensures small { IsSmall thread.0 × NamesSmall call }
{
    let named = write_named(call, line, end);
    let begin = write_number(u64::from(thread.0), line, named) - 1;
    line[begin] = letter_of(call);
    begin
}

/// Appends a call's line.
pub fn push_call_line(text: &mut Vec<u8>, line: &CallLine) -> Result<(), AllocError>
    ensures line { OnOk result (text.new.items ≡ text.old.items ++ call_line line.now) }
    ensures tellable { OnOk result (IsTellable line.now) }
{
    let mut bytes = [b'\n'; LINE_BYTES];
    let answer = write_answer(line.answer, &mut bytes, LINE_BYTES - 1);
    let begin = write_call(line.thread, line.call, &mut bytes, answer);
    text.extend_from_slice(&bytes[begin..])
}

/// Appends the lines of calls.
pub fn push_call_lines(text: &mut Vec<u8>, calls: &[CallLine]) -> Result<(), AllocError>
    ensures lines { OnOk result (text.new.items ≡ text.old.items ++ flat_map call_line calls.now) }
    ensures tellable { OnOk result (All IsTellable calls.now) }
{
    for call in calls {
        push_call_line(text, call)?;
    }
    Ok(())
}
