//! The limits of a line's numbers, and of how many lines and picks there may be. They are this project's
//! own rule; docs/FORMATS.md has them.

/// The most lines of a trace or of an order file.
pub const MOST_LINES: u32 = 1_000_000;

/// The most size classes, since a class's number is a `u8`.
pub const MOST_CLASSES: u32 = 256;

/// The greatest number that a thread, a CPU or a class may have in a line. Whether there is such a
/// one is a later rule.
pub const MOST_PLACE: u64 = 65_535;

/// The most labels, which are numbered from 0.
pub const MOST_LABELS: u64 = 1_000_000;

/// The most bytes of a request: 1 TiB.
pub const MOST_SIZE: u64 = 1 << 40;

/// The last instruction of a call before which it can be preempted.
pub const MOST_BEFORE: u64 = 1_000_000;

/// The most pages that are released at a time.
pub const MOST_RELEASED: u64 = 1_048_576;

/// The greatest capacity that a line can ask for, in objects.
pub const MOST_CAPACITY: u64 = 1_000_000;

/// The most picks of a line of an order file.
pub const MOST_TURNS: u64 = 1_000_000;
