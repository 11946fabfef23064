//! The fields of one line.
ghost use Rattle.std.specs.Prelude.{◌≡◌, ◌≢◌, ◌+◌, ◌-◌, ◌*◌, ◌^◌, ◌<◌, ◌≤◌, ◌&&◌, [], ◌∷◌, Some, None, if◌then◌else◌, length, nat_le, option_map, slice_index, slice_range, take, MatchOption, IfSome, IfNone};
ghost use Rattle.std.specs.List.{position_or_len};
ghost use Rattle.tc_units.specs.Decimal.{is_digit, number_of};
ghost use Rattle.trace_text.specs.Lines.{is_space};

use crate::digits::{few_digits, only_digit};
use crate::search::length_before;
use std::marker::Model;

/// A field: its bytes, and where they begin in the text, in bytes from 0.
#[derive(Clone, Copy, Debug)]
pub struct Field<'a> {
    pub bytes: &'a [u8],
    pub start: usize,
}

/// The fields of a line that are left. They are separated by one space each.
#[derive(Drop)]
pub struct Fields<'a> {
    text: &'a [u8],
    line: u32,
    /// Where the next field begins, or one past the end where none is left.
    start: usize,
    end: usize,
}

impl<'a> Model for Fields<'a> {
    ghost use Rattle.std.specs.Prelude.{◌≤◌, ◌+◌, length};
    ghost use Rattle.trace_text.specs.Places.{LineLeft, fields_between};

    ghost Value = { LineLeft };

    ghost view = { λ f. record { text = f.text.now; line = f.line; start = f.start; end = f.end; fields = fields_between f.text.now f.start f.end } };

    ghost invariant = { λ f. (f.start ≤ f.end + 1) × (f.end ≤ length f.text.now) };
}

/// The number with one more digit. `None` exactly where the byte is no digit or the number is above `most`.
fn with_digit(value: u64, byte: u8, most: u64) -> Option<u64>
    requires within { value ≤ most }
    requires small { most < 2 ^ 60 }
    ensures { result ≡ (if is_digit byte && nat_le (10 * value + (byte - 48)) most then Some (10 * value + (byte - 48)) else None) }
{
    if !byte.is_ascii_digit() {
        return None;
    }
    let more = 10 * value + u64::from(byte - b'0');
    if more > most {
        return None;
    }
    Some(more)
}

/// The number of the first field of a line's rest, and how many bytes that field has. `None` exactly where it is no
/// canonical decimal of at most `most`.
#[inline(never)]
fn first_number(rest: &[u8], most: u64) -> Option<(u64, usize)>
    requires { most < 2 ^ 60 }
    ensures number { option_map (λ n. n.0) result ≡ number_of most (take (position_or_len is_space rest.now) rest.now) }
    ensures length { IfSome result (λ n. n.1 ≡ position_or_len is_space rest.now) }
{
    let mut value = 0;
    let mut length = 0;
    for byte in rest {
        match with_digit(value, *byte, most) {
            Some(more) => value = more,
            None if *byte == b' ' => break,
            None => return None,
        }
        length += 1;
    }
    if length == 0 || (length > 1 && rest[0] == b'0') {
        return None;
    }
    Some((value, length))
}

/// The number of the field that begins at `start` in a line that ends at `end`, and how many bytes that field has. `None`
/// exactly where it is no canonical decimal of at most `most`.
#[inline(always)]
fn number_at(text: &[u8], start: usize, end: usize, most: u64) -> Option<(u64, usize)>
    requires order { start ≤ end }
    requires within { end ≤ length text.now }
    requires small { most < 2 ^ 60 }
    ensures number { option_map (λ n. n.0) result ≡ number_of most (take (position_or_len is_space (slice_range text.now start end)) (slice_range text.now start end)) }
    ensures length { IfSome result (λ n. n.1 ≡ position_or_len is_space (slice_range text.now start end)) }
{
    match few_digits(text, start, end, most) {
        Some(number) => Some(number),
        None => first_number(&text[start..end], most),
    }
}

/// The same, of a number that likely has one digit.
#[inline(always)]
fn short_number_at(text: &[u8], start: usize, end: usize, most: u64) -> Option<(u64, usize)>
    requires order { start ≤ end }
    requires within { end ≤ length text.now }
    requires small { most < 2 ^ 60 }
    ensures number { option_map (λ n. n.0) result ≡ number_of most (take (position_or_len is_space (slice_range text.now start end)) (slice_range text.now start end)) }
    ensures length { IfSome result (λ n. n.1 ≡ position_or_len is_space (slice_range text.now start end)) }
{
    match only_digit(&text[start..end]) {
        Some(digit) if digit <= most => Some((digit, 1)),
        _ => number_at(text, start, end, most),
    }
}

impl<'a> Fields<'a> {
    ghost use Rattle.std.specs.Prelude.{◌≡◌, ◌==◌, ◌^◌, ◌<◌, ◌≤◌, drop, length, option_and_then, slice_get, slice_range};
    ghost use Rattle.tc_units.specs.Decimal.{number_of};
    ghost use Rattle.trace_text.specs.Lines.{fields_of};

    /// The fields of the line with this number that stands from `start` to `end`.
    pub(crate) fn new(text: &'a [u8], line: u32, start: usize, end: usize) -> Self
        requires order { start ≤ end }
        requires within { end ≤ length text.now }
        ensures { result ≡ record { text = text.now; line = line; start = start; end = end; fields = fields_of (slice_range text.now start end) } }
    {
        Fields {
            text,
            line,
            start,
            end,
        }
    }

    /// The number of the line, from 1.
    pub fn line(&self) -> u32
        ensures { result ≡ self.now.line }
    {
        self.line
    }

    /// Whether no field is left.
    pub fn is_empty(&self) -> bool
        ensures { result ≡ (length self.now.fields == 0) }
    {
        self.start > self.end
    }

    /// The same fields, to be read once more.
    pub fn again(&self) -> Self
        ensures { result ≡ self.now }
    {
        Fields { ..*self }
    }

    /// The next field. `None` exactly where none is left.
    pub fn next(&mut self) -> Option<Field<'a>>
        ensures fields { MatchOption result (self.old.fields ≡ []) (λ field. self.old.fields ≡ field.bytes.now ∷ self.new.fields) }

        // A field is its slice of the text. It begins where the last one's space ended.
        ensures start { IfSome result (λ field. field.start ≡ self.old.start) }
        ensures slice { IfSome result (λ field. field.bytes.now ≡ slice_range self.old.text field.start (field.start + length field.bytes.now)) }
        ensures space { IfSome result (λ field. self.new.fields ≢ [] → slice_index self.old.text (field.start + length field.bytes.now) ≡ 32) }

        ensures after { IfSome result (λ field. self.new ≡ record self.old { start = field.start + length field.bytes.now + 1; fields = self.new.fields }) }
        ensures none { IfNone result (self.new ≡ self.old) }
    {
        if self.start > self.end {
            return None;
        }
        let rest = &self.text[self.start..self.end];
        let bytes = &rest[..length_before(rest, b' ')];
        let field = Field {
            bytes,
            start: self.start,
        };
        self.start += bytes.len() + 1;
        Some(field)
    }

    /// The number of the next field. `None` exactly where none is left or it is no canonical decimal of at
    /// most `most`; what is left then isn't told.
    #[inline(always)]
    #[tactic(auto, using(crate::proofs::Cuts::first_field))]
    pub fn number(&mut self, most: u64) -> Option<u64>
        requires { most < 2 ^ 60 }
        ensures number { result ≡ option_and_then (number_of most) (slice_get self.old.fields 0) }
        ensures others { IfSome result (λ _. self.new.fields ≡ drop 1 self.old.fields) }
        ensures same { (self.new.text ≡ self.old.text) × (self.new.line ≡ self.old.line) × (self.new.end ≡ self.old.end) }
    {
        if self.start > self.end {
            return None;
        }
        let (value, length) = number_at(self.text, self.start, self.end, most)?;
        self.start += length + 1;
        Some(value)
    }

    /// The same, of a number that likely has one digit.
    #[inline(always)]
    #[tactic(auto, using(crate::proofs::Cuts::first_field))]
    pub fn short_number(&mut self, most: u64) -> Option<u64>
        requires { most < 2 ^ 60 }
        ensures number { result ≡ option_and_then (number_of most) (slice_get self.old.fields 0) }
        ensures others { IfSome result (λ _. self.new.fields ≡ drop 1 self.old.fields) }
        ensures same { (self.new.text ≡ self.old.text) × (self.new.line ≡ self.old.line) × (self.new.end ≡ self.old.end) }
    {
        if self.start > self.end {
            return None;
        }
        let (value, length) = short_number_at(self.text, self.start, self.end, most)?;
        self.start += length + 1;
        Some(value)
    }
}
