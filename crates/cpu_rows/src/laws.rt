//! That the per-CPU caches meet the law of a front-end, and what holds of the allocator over them in every order.
ghost use Rattle.cpu_rows.specs.Laws.{CpuIsLawful};
ghost use Rattle.cpu_rows.specs.Law.{InEveryOrder};

/// Under every class table of the call programs' limits, and heads of a trace that the caches can serve, the
/// per-CPU caches with the domains' transfer caches meet the law of a front-end.
pub fn cpu_is_lawful()
    ensures { CpuIsLawful }
{}

/// For every class table, every valid trace of calls by any threads, and every order of their picks: each
/// pick finds a part that fits, whichever instruction an abort, a migration, a stop or a fence comes before,
/// and after it the decided calls are a run on disjoint blocks and the first ones of each thread's script,
/// each object and each live run is at one place, and an act answers none exactly where it asks for a run
/// that fits nowhere. The rules are this project's own; docs/ARCHITECTURE.md says which follow design
/// documents.
pub fn holds_in_every_order()
    ensures { InEveryOrder }
{}
