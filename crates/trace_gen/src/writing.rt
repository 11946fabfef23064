//! The text of lines.
ghost use Rattle.std.specs.Prelude.{◌≡◌, ◌+◌, ◌*◌, ◌<◌, ◌≤◌, ◌++◌, OnOk, codes, decimal, drop, length};
ghost use Rattle.trace_gen.specs.TraceText.{line_of, line_text};

use itoa::write_digits;
use std::alloc::AllocError;
use trace_reader::Form;

/// Bytes of a space and the digits of the greatest number.
const MOST_NUMBER: usize = 21;

/// Bytes that the longest line has room in.
const MOST_LINE: usize = 96;

/// Writes a word so that it ends at `end`, and tells where it begins.
fn write_word(word: &[u8], line: &mut [u8], end: usize) -> usize
    requires within { end ≤ length line.old }
    requires room { length word.now ≤ end }
    ensures written { drop result line.new ≡ word.now ++ drop end line.old }
    ensures begin { result + length word.now ≡ end }
{
    let begin = end - word.len();
    line[begin..end].copy_from_slice(word);
    begin
}

/// Writes a number behind a space so that it ends at `end`, and tells where the space stands.
#[tactic(auto, using(crate::proofs::Digits::twenty_digits))]
fn write_number(n: u64, line: &mut [u8], end: usize) -> usize
    requires within { end ≤ length line.old }
    requires room { MOST_NUMBER ≤ end }
    ensures written { drop result line.new ≡ codes " " ++ decimal n ++ drop end line.old }
    ensures begin { (result ≤ end) × (end ≤ result + MOST_NUMBER) }
{
    let digits = write_digits(n, line, end);
    line[digits - 1] = b' ';
    digits - 1
}

/// Appends a line of a word and numbers. It is written from its end, and then appended as a whole.
fn push_words(text: &mut Vec<u8>, word: &[u8], numbers: &[u64]) -> Result<(), AllocError>
    requires { length word.now + MOST_NUMBER * length numbers.now < MOST_LINE }
    ensures { OnOk result (text.new.items ≡ text.old.items ++ line_of word.now numbers.now) }
{
    let mut line = [b'\n'; MOST_LINE];
    let mut end = MOST_LINE - 1;
    for place in (0..numbers.len()).rev() {
        end = write_number(numbers[place], &mut line, end);
    }
    let begin = write_word(word, &mut line, end);
    text.extend_from_slice(&line[begin..])
}

/// Appends the line that says this.
pub fn push_line(text: &mut Vec<u8>, form: Form) -> Result<(), AllocError>
    ensures { OnOk result (text.new.items ≡ text.old.items ++ line_text form) }
{
    match form {
        Form::Head { head, value } => push_words(text, head.rule().name.as_bytes(), &[value]),
        Form::Malloc {
            thread,
            label,
            size,
        } => push_words(text, b"a", &[thread, label, size]),
        Form::Free { thread, label } => push_words(text, b"f", &[thread, label]),
        Form::Move {
            thread,
            before,
            cpu,
        } => push_words(text, b"p", &[thread, before, cpu]),
        Form::Release { thread, pages } => push_words(text, b"r", &[thread, pages]),
        Form::Drain { thread, cpu } => push_words(text, b"d", &[thread, cpu]),
        Form::Resize {
            thread,
            cpu,
            class,
            cap,
        } => push_words(text, b"z", &[thread, cpu, class, cap]),
    }
}
