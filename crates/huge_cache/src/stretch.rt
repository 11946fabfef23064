//! Hugepages that follow each other.
use tc_units::Huge;

/// Adjacent hugepages.
#[derive(Clone, Copy, Debug, PartialEq, Eq)]
pub struct Stretch {
    pub first: Huge,
    /// How many there are.
    pub many: u32,
}
