//! That no caches at all meet the law of a front-end, and what holds of the allocator then.
ghost use Rattle.no_caches.specs.Laws.{AreNoCachesLawful, InEveryOrder};

/// Under every class table, a front-end without parts and rows meets the law of a front-end. It serves
/// traces without a drain and a resize, which are calls of the per-CPU caches.
pub fn no_caches_are_lawful()
    ensures { AreNoCachesLawful }
{}

/// For every class table, every such trace of calls by any threads, and every order of their picks, all
/// holds that holds of the allocator over any front-end.
pub fn holds_in_every_order()
    ensures { InEveryOrder }
{}
