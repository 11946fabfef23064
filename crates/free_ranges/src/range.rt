//! A free range as a key, by its length.
ghost use Rattle.std.specs.Prelude.{◌≡◌};

use sorted_list::SortKey;

/// Free places that follow each other.
#[derive(Clone, Copy, Debug, PartialEq, Eq)]
pub struct FreeRange {
    pub len: u32,
    /// Its first place.
    pub start: u32,
}

impl SortKey for FreeRange {
    ghost use Rattle.free_ranges.specs.Ranges.{comes_before, sample};
    ghost use Rattle.free_ranges.specs.Total.{total};

    ghost before = { comes_before };

    ghost sample = { sample };

    fn sample() -> FreeRange {
        FreeRange { len: 0, start: 0 }
    }

    /// The shorter first, and of equal ones the earlier.
    fn comes_before(&self, other: FreeRange) -> bool {
        self.len < other.len || self.len == other.len && self.start < other.start
    }

    ghost order = { total };
}
