//! The lines of a text.
ghost use Rattle.std.specs.Prelude.{◌≡◌, ◌+◌, ◌-◌, ◌^◌, ◌<◌, ◌≤◌, [], ◌∷◌, length, MatchOption, IfSome, IfNone};
ghost use Rattle.trace_text.specs.Lines.{lines_of, without_return};

use crate::fields::Fields;
use crate::search::length_before_near;
use std::marker::Model;

/// The lines of a text that are left. A line ends before a line feed, and the last one may lack it. A
/// carriage return that is a line's last byte is dropped. What stands behind the last line feed is a
/// line only where there is something.
#[derive(Drop)]
pub struct Lines<'a> {
    text: &'a [u8],
    /// Where the next line begins.
    start: usize,
    /// How many lines were given.
    given: u32,
}

impl<'a> Model for Lines<'a> {
    ghost use Rattle.std.specs.Prelude.{◌≤◌, length, drop};
    ghost use Rattle.trace_text.specs.Lines.{lines_of};
    ghost use Rattle.trace_text.specs.Places.{TextLeft};

    ghost Value = { TextLeft };

    ghost view = { λ l. record { text = l.text.now; start = l.start; given = l.given; lines = lines_of (drop l.start l.text.now) } };

    ghost invariant = { λ l. l.start ≤ length l.text.now };
}

/// How many bytes a line has without the carriage return that is its last one.
fn length_without_return(line: &[u8]) -> usize
    ensures { result ≡ length (without_return line.now) }
{
    match line {
        [.., b'\r'] => line.len() - 1,
        _ => line.len(),
    }
}

impl<'a> Lines<'a> {
    ghost use Rattle.trace_text.specs.Places.{TakesLine};

    /// All lines of a text.
    pub fn new(bytes: &'a [u8]) -> Self
        ensures text { result.text ≡ bytes.now }
        ensures start { result.start ≡ 0 }
        ensures given { result.given ≡ 0 }
        ensures lines { result.lines ≡ lines_of bytes.now }
    {
        Lines {
            text: bytes,
            start: 0,
            given: 0,
        }
    }

    /// The next line, with its fields. `None` exactly where no line is left.
    pub fn next(&mut self) -> Option<Fields<'a>>
        requires { self.old.given < 2 ^ 32 - 1 }
        ensures lines { MatchOption result (self.old.lines ≡ []) (λ line. self.old.lines ≡ line.fields ∷ self.new.lines) }
        ensures number { IfSome result (λ line. line.line ≡ self.old.given + 1) }
        ensures given { IfSome result (λ line. self.new.given ≡ self.old.given + 1) }

        // The line stands where the rest of the text began, and nothing of the text is left out.
        ensures text { self.new.text ≡ self.old.text }
        ensures of_text { IfSome result (λ line. line.text ≡ self.old.text) }
        ensures place { IfSome result (λ line. TakesLine self.old line self.new) }

        ensures none { IfNone result (self.new ≡ self.old) }
    {
        if self.start == self.text.len() {
            return None;
        }
        let rest = &self.text[self.start..];
        let length = length_before_near(rest, b'\n');
        let end = self.start + length_without_return(&rest[..length]);
        self.given += 1;
        let line = Fields::new(self.text, self.given, self.start, end);
        self.start += (length + 1).min(rest.len());
        Some(line)
    }
}
