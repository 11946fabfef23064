//! Where a release takes pages from.

/// Free hugepages, those of regions without a used page, and the filler's, in this order.
#[derive(Clone, Copy)]
pub(crate) enum Source {
    Free,
    Regions,
    Filler,
}
