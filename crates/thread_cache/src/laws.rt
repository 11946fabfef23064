//! That the caches of threads meet the law of a front-end, and what holds of the allocator over them in every order.
ghost use Rattle.thread_cache.specs.Laws.{CachesAreLawful, InEveryOrder};

/// Under every class table of the call programs' limits, and heads of a trace that the caches can serve,
/// the caches of threads meet the law of a front-end.
pub fn caches_are_lawful()
    ensures { CachesAreLawful }
{}

/// For every class table, every valid trace of allocations, frees and releases by any threads, and every
/// order of their picks: all holds that holds of the allocator over any front-end; no cache has more bytes
/// than its limit; and limits only move: their sum, with what a victim gave up and its thread's cache isn't
/// raised by yet, is the number of threads times the first limit.
pub fn holds_in_every_order()
    ensures { InEveryOrder }
{}
