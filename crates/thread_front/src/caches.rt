//! The caches of threads as a front-end, with the law that it meets.
ghost use Rattle.std.specs.Prelude.{◌≡◌, ◌<◌};

use crate::opening::caches_of;
use alloc_rules::LawfulFront;
use call_steps::{Asking, Came, Freeing, FrontEnd, Local, Next, Serving, Setting};
use rseq_core::Regs;
use std::alloc::{AllocError, Global};
use tc_machine::{AllocMachine, State};
use tc_model::{Call, Planned};
use tc_units::ThreadNo;
use thread_cache::{CachePart, CacheRow, CacheSeat, act_cache};

/// One cache for each thread, each with a limit in bytes of which the others may take the unused part. It
/// takes no drain and no resize.
pub struct ThreadCaches;

/// A thread over the caches of threads.
pub type CacheLocal = Local<ThreadCaches>;

/// The allocator over the caches of threads.
pub type ThreadMachine = AllocMachine<ThreadCaches>;

/// Its parts and its threads, after the picks of an order.
pub type CacheState = State<ThreadMachine>;

impl FrontEnd for ThreadCaches {
    type Part = CachePart;

    type Seat = CacheSeat;

    type Row = CacheRow;

    ghost use Rattle.thread_cache.specs.Rows.{cache_front, about_row};
    ghost use Rattle.thread_cache.specs.Fits.{FitsCache};
    ghost use Rattle.thread_cache.specs.Laws.{AreCacheLimits};
    ghost use Rattle.thread_cache.proofs.CachesLaw.{split_first};
    ghost use Rattle.std.proofs.Common.{refl};

    ghost rules = { λ u. cache_front u.table u.config };

    ghost about = { about_row };

    ghost same_rows = { λ u. refl };

    ghost split_is_within = { λ u. split_first u.table u.config };

    ghost can_open = { λ u. AreCacheLimits u.config };

    ghost fits = { λ u. FitsCache u.table };

    fn split(setting: &Setting) -> u8 {
        setting.config.threads
    }

    fn first_parts(setting: &Setting, alloc: Global) -> Result<Vec<CachePart>, AllocError> {
        caches_of(setting, alloc)
    }

    fn later_parts(_setting: &Setting, alloc: Global) -> Result<Vec<CachePart>, AllocError> {
        Ok(Vec::new(alloc))
    }

    fn seat(setting: &Setting, thread: ThreadNo) -> CacheSeat {
        CacheSeat::new(thread, setting.config.threads)
    }

    fn begin(_setting: &Setting, _seat: &mut CacheSeat, _planned: Option<Planned>) {}

    fn first(
        _setting: &Setting,
        _seat: &CacheSeat,
        _regs: &mut Regs,
        asking: Asking,
    ) -> Option<CacheRow> {
        Some(CacheRow::Pop(asking))
    }

    fn rest(
        _setting: &Setting,
        _seat: &CacheSeat,
        _regs: &mut Regs,
        serving: Serving,
    ) -> Option<CacheRow> {
        Some(CacheRow::Stock(serving))
    }

    fn free(
        _setting: &Setting,
        _seat: &CacheSeat,
        _regs: &mut Regs,
        freeing: Freeing,
    ) -> Option<CacheRow> {
        Some(CacheRow::Add(freeing))
    }

    fn other(
        _setting: &Setting,
        _seat: &CacheSeat,
        _regs: &mut Regs,
        _call: Call,
    ) -> Option<CacheRow> {
        None
    }

    fn last(_setting: &Setting, _seat: &CacheSeat) -> Option<CacheRow> {
        None
    }

    fn place(_setting: &Setting, seat: &CacheSeat, _regs: &Regs, row: &CacheRow) -> u16 {
        seat.place(*row)
    }

    fn act(
        setting: &Setting,
        part: &mut CachePart,
        seat: &mut CacheSeat,
        regs: &mut Regs,
        row: &mut CacheRow,
        next: &mut Next<CacheRow>,
    ) -> Result<Came, AllocError> {
        *next = act_cache(&setting.table, part, seat, regs, *row)?;
        Ok(Came::Next)
    }

    fn yields(
        _setting: &Setting,
        _part: &CachePart,
        _seat: &CacheSeat,
        _regs: &Regs,
        _row: CacheRow,
    ) -> bool {
        true
    }
}

impl LawfulFront for ThreadCaches {
    ghost use Rattle.thread_cache.specs.Holds.{CachesHold};
    ghost use Rattle.alloc_rules.specs.Inputs.{is_common};
    ghost use Rattle.thread_cache.specs.Laws.{HoldsAfter};
    ghost use Rattle.thread_cache.proofs.Orders.{limits_of, caches_in_every_order};

    ghost takes = { is_common };

    ghost keeps = { λ u. CachesHold u.table u.config };

    ghost after = { HoldsAfter };

    fn can_take(call: Call) -> bool {
        match call {
            Call::Malloc { .. } | Call::Free { .. } | Call::Release { .. } => true,
            Call::Drain { .. } | Call::Resize { .. } => false,
        }
    }

    ghost shared = { λ input order holds. holds.all };

    ghost opens = { λ setting are. limits_of setting.config are };

    ghost lawful = { caches_in_every_order };
}
