//! The line that tells an end. Making and writing it takes no memory.
ghost use Rattle.std.specs.Prelude.{◌≡◌, ◌+◌, ◌≤◌, ◌++◌, length, decimal};
ghost use Rattle.tcreplay.specs.Notes.{row_word, line_word, order_word, audit_word, place_of, cause_of, note_of};
ghost use Rattle.tcreplay.specs.Writes.{IsNoted};

use crate::outcome::End;
use arrayvec::ArrayString;
use itoa::{Buffer, Integer};
use journal_audit::AuditWhy;
use size_classes::RowWhy;
use tc_ports::Sink;
use trace_reader::{LineWhy, OrderWhy};

/// Room for the longest line, in bytes.
const MOST_BYTES: usize = 64;

type Line = ArrayString<MOST_BYTES>;

/// The rule that a record of a class table fails.
fn row_word(why: RowWhy) -> &'static str
    ensures word { result.now ≡ row_word why }
    ensures short { length result.now ≤ 12 }
{
    match why {
        RowWhy::Rows => "rows",
        RowWhy::Fields => "fields",
        RowWhy::Number => "number",
        RowWhy::Size => "size",
        RowWhy::Rise => "rise",
        RowWhy::Pages => "pages",
        RowWhy::Fit => "fit",
        RowWhy::Batch => "batch",
        RowWhy::Empty => "empty",
    }
}

/// The rule that a line of a trace fails.
fn line_word(why: LineWhy) -> &'static str
    ensures word { result.now ≡ line_word why }
    ensures short { length result.now ≤ 12 }
{
    match why {
        LineWhy::Lines => "lines",
        LineWhy::Word => "word",
        LineWhy::HeadLate => "headlate",
        LineWhy::Fields => "fields",
        LineWhy::Number => "number",
        LineWhy::Thread => "thread",
        LineWhy::Cpu => "cpu",
        LineWhy::Class => "class",
        LineWhy::LabelUsed => "labelused",
        LineWhy::LabelUnknown => "labelunknown",
        LineWhy::LabelFreed => "labelfreed",
        LineWhy::NotHere => "nothere",
    }
}

/// The rule that a line of an order file fails.
fn order_word(why: OrderWhy) -> &'static str
    ensures word { result.now ≡ order_word why }
    ensures short { length result.now ≤ 12 }
{
    match why {
        OrderWhy::Lines => "lines",
        OrderWhy::Fields => "fields",
        OrderWhy::Number => "number",
        OrderWhy::Thread => "thread",
        OrderWhy::Picks => "picks",
    }
}

/// The rule that a journal fails.
fn audit_word(why: AuditWhy) -> &'static str
    ensures word { result.now ≡ audit_word why }
    ensures short { length result.now ≤ 12 }
{
    match why {
        AuditWhy::Lines => "lines",
        AuditWhy::Form => "form",
        AuditWhy::Order => "order",
        AuditWhy::Length => "length",
        AuditWhy::Arena => "arena",
        AuditWhy::Overlap => "overlap",
        AuditWhy::Address => "address",
        AuditWhy::Missing => "missing",
    }
}

/// Appends a number.
fn push_number<I: Integer>(line: &mut Line, n: I)
    requires { length line.old.bytes + I.MAX_STR_LEN ≤ 64 }
    ensures text { line.new.bytes ≡ line.old.bytes ++ I.text n }
    ensures short { length line.new.bytes ≤ length line.old.bytes + I.MAX_STR_LEN }
{
    line.push_str(Buffer::new().format(n));
}

/// Appends the number of a record or a line, and the rule that it fails.
fn push_place(line: &mut Line, what: &str, number: u32, why: &str)
    requires { length line.old.bytes + length what.now + length why.now ≤ 40 }
    ensures place { line.new.bytes ≡ line.old.bytes ++ place_of what.now number why.now }
    ensures short { length line.new.bytes ≤ 52 }
{
    line.push_str(what);
    push_number(line, number);
    line.push_str(": ");
    line.push_str(why);
}

/// Appends the cause of an end.
fn push_cause(line: &mut Line, end: End)
    requires { length line.old.bytes ≤ 10 }
    ensures cause { line.new.bytes ≡ line.old.bytes ++ cause_of end }
    ensures short { length line.new.bytes ≤ 52 }
{
    match end {
        End::Done => {}
        End::Usage => line.push_str("usage"),
        End::BadTable { row, why } => push_place(line, "table row ", row, row_word(why)),
        End::BadTrace { line: number, why } => push_place(
            line,
            "trace line ",
            number,
            line_word(why),
        ),
        End::ReadFault => line.push_str("read fault"),
        End::WriteFault => line.push_str("write fault"),
        End::Memory => line.push_str("out of memory"),
        End::TooLong { limit } => {
            line.push_str("longer than ");
            push_number(line, limit);
            line.push_str(" bytes");
        }
        End::Full { ticket } => {
            line.push_str("events limit ");
            push_number(line, ticket);
        }
        End::BadOrder { line: number, why } => push_place(
            line,
            "order line ",
            number,
            order_word(why),
        ),
        End::FileFault => line.push_str("file fault"),
        End::AuditNo { line: number, why } => push_place(
            line,
            "audit line ",
            number,
            audit_word(why),
        ),
    }
}

/// The line that tells an end.
fn note_of(end: End) -> Line
    ensures { result.bytes ≡ note_of end }
{
    let mut line = Line::new();
    line.push_str("tcreplay: ");
    push_cause(&mut line, end);
    line.push_str("\n");
    line
}

/// Tells an end, unless it is `Done`, by one put. That this put may fail is passed over.
pub fn note<N: Sink>(notes: &mut N, end: End)
    ensures { IsNoted end (N.seen notes.old) (N.seen notes.new) }
{
    match end {
        End::Done => {}
        _ => {
            let _ = notes.put(note_of(end).as_bytes());
        }
    }
}
