//! The order in which hugepages of the filler give pages up.
ghost use Rattle.std.specs.Prelude.{◌≡◌};

use sorted_list::SortKey;
use tc_units::Huge;

/// A hugepage of the filler with what decides when it gives pages up.
#[derive(Clone, Copy)]
pub struct Giver {
    /// Whether all its backed pages are used.
    pub spent: bool,
    /// Its used pages.
    pub used: u32,
    pub huge: Huge,
}

impl SortKey for Giver {
    ghost use Rattle.huge_filler.specs.Keys.{comes_before, sample};
    ghost use Rattle.huge_filler.specs.GivingOrder.{total};

    ghost before = { comes_before };

    ghost sample = { sample };

    fn sample() -> Giver {
        Giver {
            spent: false,
            used: 0,
            huge: Huge(0),
        }
    }

    /// Those that have pages to give come first, by fewest used pages, then by greatest number.
    fn comes_before(&self, other: Giver) -> bool {
        !self.spent && other.spent
            || self.spent == other.spent
                && (self.used < other.used || self.used == other.used && other.huge.0 < self.huge.0)
    }

    ghost order = { total };
}
