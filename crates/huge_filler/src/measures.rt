//! What the filler knows of a hugepage, and the keys by which it is found.
ghost use Rattle.std.specs.Prelude.{◌≡◌};
ghost use Rattle.huge_filler.specs.Measures.{free_of_donated};
ghost use Rattle.huge_filler.specs.Keys.{key_of, giver_of};

use crate::giver::Giver;
use huge_index::Key;
use tc_units::{HUGE_PAGES, Huge};

/// Behind all tiers that serve.
pub const NO_TIER: u8 = 3;

/// What decides whether a hugepage of the filler is chosen, and when it gives pages up.
#[derive(Clone, Copy, Debug, PartialEq, Eq)]
pub struct Measures {
    /// Its longest range of unused pages.
    pub longest: u32,
    /// Live runs that have a page in it.
    pub allocs: u32,
    /// Its used pages.
    pub used: u32,
    /// Its backed pages that no run has.
    pub spare: u32,
    /// 2 where a page of it is unbacked, else 1 where it is donated, else 0.
    pub tier: u8,
    /// Whether it is the donated tail of a larger run.
    pub donated: bool,
}

/// The key of a hugepage in the order of preference: one that isn't the filler's comes last.
pub fn key_of(huge: Huge, measures: Option<Measures>) -> Key
    ensures { result ≡ key_of huge.0 measures }
{
    match measures {
        Some(its) => Key {
            tier: its.tier,
            longest: its.longest,
            allocs: its.allocs,
            huge,
        },
        None => Key {
            tier: NO_TIER,
            longest: 0,
            allocs: 0,
            huge,
        },
    }
}

/// Its key in the order in which hugepages give pages up: one that has none to give comes last. Those that
/// aren't the filler's stand by their numbers: the least, which are taken first, have the shortest way.
pub fn giver_of(huge: Huge, measures: Option<Measures>) -> Giver
    ensures { result ≡ giver_of huge.0 measures }
{
    match measures {
        Some(its) => Giver {
            spent: its.spare == 0,
            used: its.used,
            huge,
        },
        None => Giver {
            spent: true,
            used: u32::from(huge.0),
            huge,
        },
    }
}

/// Its free pages, if it is donated.
pub fn free_of_donated(measures: Option<Measures>) -> u64
    ensures { result ≡ free_of_donated measures }
{
    match measures {
        Some(its) if its.donated => u64::from(HUGE_PAGES.saturating_sub(its.used)),
        _ => 0,
    }
}
