//! The laws of texts that are put together, as contracts of functions that do nothing.
ghost use Rattle.trace_text.specs.Joined.{JoinedAreCut, DecimalsAreRead};

/// Lines whose fields have no line feed, carriage return or space, put together into a text with one
/// space between two fields and a line feed behind each line, are cut out of it again.
pub fn joined_lines_are_cut()
    ensures { JoinedAreCut }
{}

/// The decimal of a number is a field, and a decimal of 64 bits is read as its number again.
pub fn decimals_are_read()
    ensures { DecimalsAreRead }
{}
