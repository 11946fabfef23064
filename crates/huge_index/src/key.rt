//! The measures of a hugepage by which it is preferred.
ghost use Rattle.std.specs.Prelude.{◌≡◌, ◌^◌, ◌<◌, nat_lt};

use sorted_list::SortKey;
use tc_units::Huge;

/// What a measure counts for in the number of a key where another one stands behind it.
const FIELD: u64 = 0x1_0000_0000;

/// The same where two stand behind it.
const FIELDS: u128 = 0x1_0000_0000_0000_0000;

/// The measures of a hugepage, and its number.
#[derive(Clone, Copy, Debug, PartialEq, Eq)]
pub struct Key {
    /// Pages of its longest free range.
    pub longest: u32,
    /// Live runs with a page in it.
    pub allocs: u32,
    pub huge: Huge,
    /// 0 is preferred to 1, and 1 to 2.
    pub tier: u8,
}

impl Key {
    ghost use Rattle.huge_index.specs.Order.{least_of, rank};

    /// The key before which no key of a tier comes that has a longest range of at least `n` pages.
    pub fn least(tier: u8, n: u32) -> Self
        ensures { result ≡ least_of tier n }
    {
        Key {
            tier,
            longest: n,
            allocs: u32::MAX,
            huge: Huge(0),
        }
    }

    /// The measures as one number, those that decide first before the rest: two keys are compared at once.
    fn rank(self) -> u128
        ensures rank { result ≡ rank self }
        ensures longest { self.longest < 2 ^ 32 }
        ensures allocs { self.allocs < 2 ^ 32 }
        ensures huge { self.huge.0 < 2 ^ 16 }
    {
        let first = u64::from(self.tier) * FIELD + u64::from(self.longest);
        let rest = u64::from(u32::MAX - self.allocs) * FIELD + u64::from(self.huge.0);
        u128::from(first) * FIELDS + u128::from(rest)
    }
}

impl SortKey for Key {
    ghost use Rattle.huge_index.specs.Order.{comes_before, sample};
    ghost use Rattle.huge_index.specs.Total.{total};

    ghost before = { comes_before };

    ghost sample = { sample };

    fn sample() -> Key {
        Key {
            tier: 0,
            longest: 0,
            allocs: 0,
            huge: Huge(0),
        }
    }

    /// By least tier, then by shortest longest range, then by most runs, then by least number. The order
    /// is this project's own.
    fn comes_before(&self, other: Key) -> bool {
        self.rank() < other.rank()
    }

    ghost order = { total };
}
