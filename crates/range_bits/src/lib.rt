//! Which places of a row are used, a bit a place, and where its free ranges are: work goes by whole
//! words of 64 places where it can.
#![tactic(auto)]

mod counting;
mod narrowing;
mod ranges;
#[cfg(test)]
mod tests;
mod wide_bits;
mod words;

pub use wide_bits::WideBits;
pub use words::{end_bit, next_bit, with_bit};
