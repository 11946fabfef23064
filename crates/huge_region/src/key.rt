//! What decides which region a run goes to.
ghost use Rattle.std.specs.Prelude.{◌≡◌};

use sorted_list::SortKey;
use tc_units::Huge;

/// The measures of a region.
#[derive(Clone, Copy, Debug, PartialEq, Eq)]
pub struct RegionKey {
    /// Pages of its longest unused range.
    pub longest: u32,
    /// Its first hugepage.
    pub first: Huge,
}

impl SortKey for RegionKey {
    ghost use Rattle.huge_region.specs.Order.{comes_before, sample};
    ghost use Rattle.huge_region.specs.Total.{total};

    ghost before = { comes_before };

    ghost sample = { sample };

    fn sample() -> RegionKey {
        RegionKey {
            longest: 0,
            first: Huge(0),
        }
    }

    /// The shorter longest range first, and of equal ones the least first hugepage. The order is this
    /// project's own.
    fn comes_before(&self, other: RegionKey) -> bool {
        self.longest < other.longest
            || self.longest == other.longest && self.first.0 < other.first.0
    }

    ghost order = { total };
}
