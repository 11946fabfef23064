//! Words and numbers, written into a line from its end, or appended to a text.
ghost use Rattle.std.specs.Prelude.{◌≡◌, ◌+◌, ◌≤◌, [], ◌∷◌, ◌++◌, OnOk, decimal, drop, length};
ghost use Rattle.usage_report.specs.Report.{spaced, line_of};

use itoa::write_digits;
use std::alloc::AllocError;

/// Bytes of a space and the digits of the greatest number.
const MOST_BYTES: usize = 21;

/// Writes a word so that it ends at `end`, and tells where it begins.
pub(crate) fn write_word(word: &[u8], line: &mut [u8], end: usize) -> usize
    requires within { end ≤ length line.old }
    requires room { length word.now ≤ end }
    ensures written { drop result line.new ≡ word.now ++ drop end line.old }
    ensures begin { result + length word.now ≡ end }
{
    let begin = end - word.len();
    line[begin..end].copy_from_slice(word);
    begin
}

/// Writes a number behind a space so that it ends at `end`, and tells where the space stands.
pub(crate) fn write_number(n: u64, line: &mut [u8], end: usize) -> usize
    requires within { end ≤ length line.old }
    requires room { 21 ≤ end }
    ensures written { drop result line.new ≡ spaced (decimal n ∷ []) ++ drop end line.old }
    ensures begin { (result ≤ end) × (end ≤ result + 21) }
{
    let digits = write_digits(n, line, end);
    line[digits - 1] = b' ';
    digits - 1
}

/// Writes a word, and a number behind a space, so that they end at `end`.
pub(crate) fn write_counted(word: &[u8], n: u64, line: &mut [u8], end: usize) -> usize
    requires within { end ≤ length line.old }
    requires room { 21 + length word.now ≤ end }
    ensures written { drop result line.new ≡ word.now ++ spaced (decimal n ∷ []) ++ drop end line.old }
    ensures begin { (result ≤ end) × (end ≤ result + 21 + length word.now) }
{
    let number = write_number(n, line, end);
    write_word(word, line, number)
}

/// Appends a number behind a space.
pub fn push_number(text: &mut Vec<u8>, n: u64) -> Result<(), AllocError>
    ensures { OnOk result (text.new.items ≡ text.old.items ++ spaced (decimal n ∷ [])) }
{
    let mut word = [b' '; MOST_BYTES];
    let begin = write_number(n, &mut word, MOST_BYTES);
    text.extend_from_slice(&word[begin..])
}

/// Appends a word behind a space.
pub fn push_word(text: &mut Vec<u8>, word: &[u8]) -> Result<(), AllocError>
    ensures { OnOk result (text.new.items ≡ text.old.items ++ spaced (word.now ∷ [])) }
{
    text.extend_from_slice(b" ")?;
    text.extend_from_slice(word)
}

/// Appends a word, and a number behind a space.
pub fn push_counted(text: &mut Vec<u8>, word: &[u8], n: u64) -> Result<(), AllocError>
    ensures { OnOk result (text.new.items ≡ text.old.items ++ word.now ++ spaced (decimal n ∷ [])) }
{
    text.extend_from_slice(word)?;
    push_number(text, n)?;
    Ok(())
}

/// Appends a letter, and a number behind a space.
pub fn push_lettered(text: &mut Vec<u8>, letter: u8, n: u64) -> Result<(), AllocError>
    ensures { OnOk result (text.new.items ≡ text.old.items ++ letter ∷ spaced (decimal n ∷ [])) }
{
    text.push(letter)?;
    push_number(text, n)
}

/// Appends a line of a word and a number.
pub fn push_count_line(text: &mut Vec<u8>, word: &[u8], n: u64) -> Result<(), AllocError>
    ensures { OnOk result (text.new.items ≡ text.old.items ++ line_of word.now (decimal n ∷ [])) }
{
    push_counted(text, word, n)?;
    text.push(b'\n')?;
    Ok(())
}
