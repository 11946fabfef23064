//! What a sorted list wants of its keys.
ghost use Rattle.std.specs.Prelude.{◌≡◌, Bool};
ghost use Rattle.sorted_list.specs.Order.{IsOrder};

/// A key: two of them are equal, or one of them comes before the other.
pub trait SortKey: Copy + Drop {
    ghost before: { Self → Self → Bool };

    ghost sample: { Self };

    /// Some key, with which room is filled.
    fn sample() -> Self
        ensures { result ≡ sample };

    /// Whether this key comes before another one.
    fn comes_before(&self, other: Self) -> bool
        ensures { result ≡ before self.now other };

    ghost order: { IsOrder Self before };
}
