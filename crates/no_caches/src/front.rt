//! No caches before the shards, as a front-end.
ghost use Rattle.std.specs.Prelude.{◌≡◌};

use alloc_rules::LawfulFront;
use call_steps::{Asking, Came, Freeing, FrontEnd, Local, Next, Serving, Setting};
use rseq_core::Regs;
use std::alloc::{AllocError, Global};
use tc_machine::{AllocMachine, State};
use tc_model::{Call, Planned};
use tc_units::ThreadNo;

/// What a part would be; there is none.
#[derive(Drop)]
pub struct NoPart;

/// What a row would be; no call comes to one.
#[derive(Clone, Copy)]
pub struct NoRow;

/// A thread has nothing there.
#[derive(Drop)]
pub struct NoSeat;

/// No part, and no row that a call comes to: what an allocation fetches besides goes back to the shard, and so does each
/// object that is freed.
/// A drain and a resize are no calls of it.
pub struct NoCaches;

/// A thread whose objects come from the shards.
pub type PlainLocal = Local<NoCaches>;

/// The allocator without caches.
pub type PlainMachine = AllocMachine<NoCaches>;

/// Its parts and its threads, after the picks of an order.
pub type PlainState = State<PlainMachine>;

impl FrontEnd for NoCaches {
    type Part = NoPart;

    type Seat = NoSeat;

    type Row = NoRow;

    ghost use Rattle.std.proofs.Common.{refl, arith};
    ghost use Rattle.no_caches.specs.NoCaches.{no_caches, about_none, fits};

    ghost rules = { λ setting. no_caches setting.table };

    ghost about = { about_none };

    ghost same_rows = { λ setting. refl };

    ghost split_is_within = { λ setting. omega arith };

    ghost can_open = { λ setting. Unit {0} };

    ghost fits = { λ setting. fits };

    fn split(_setting: &Setting) -> u8 {
        0
    }

    fn first_parts(_setting: &Setting, alloc: Global) -> Result<Vec<NoPart>, AllocError> {
        Ok(Vec::new(alloc))
    }

    fn later_parts(_setting: &Setting, alloc: Global) -> Result<Vec<NoPart>, AllocError> {
        Ok(Vec::new(alloc))
    }

    fn seat(_setting: &Setting, _thread: ThreadNo) -> NoSeat {
        NoSeat
    }

    fn begin(_setting: &Setting, _seat: &mut NoSeat, _planned: Option<Planned>) {}

    fn first(
        _setting: &Setting,
        _seat: &NoSeat,
        _regs: &mut Regs,
        _asking: Asking,
    ) -> Option<NoRow> {
        None
    }

    fn rest(
        _setting: &Setting,
        _seat: &NoSeat,
        _regs: &mut Regs,
        _serving: Serving,
    ) -> Option<NoRow> {
        None
    }

    fn free(
        _setting: &Setting,
        _seat: &NoSeat,
        _regs: &mut Regs,
        _freeing: Freeing,
    ) -> Option<NoRow> {
        None
    }

    fn other(_setting: &Setting, _seat: &NoSeat, _regs: &mut Regs, _call: Call) -> Option<NoRow> {
        None
    }

    fn last(_setting: &Setting, _seat: &NoSeat) -> Option<NoRow> {
        None
    }

    fn place(_setting: &Setting, _seat: &NoSeat, _regs: &Regs, _row: &NoRow) -> u16 {
        0
    }

    fn act(
        _setting: &Setting,
        _part: &mut NoPart,
        _seat: &mut NoSeat,
        _regs: &mut Regs,
        _row: &mut NoRow,
        next: &mut Next<NoRow>,
    ) -> Result<Came, AllocError> {
        *next = Next::End;
        Ok(Came::Next)
    }

    fn yields(
        _setting: &Setting,
        _part: &NoPart,
        _seat: &NoSeat,
        _regs: &Regs,
        _row: NoRow,
    ) -> bool {
        true
    }
}

impl LawfulFront for NoCaches {
    ghost use Rattle.alloc_rules.specs.Law.{HoldsAfter};
    ghost use Rattle.alloc_rules.specs.Inputs.{is_common};
    ghost use Rattle.no_caches.specs.NoCaches.{no_caches, about_none, Holds};
    ghost use Rattle.no_caches.specs.NoCachesLaw.{lawful_in};

    ghost takes = { is_common };

    ghost keeps = { λ setting. Holds };

    ghost after = { λ input. HoldsAfter (no_caches input.rows) about_none Holds input.asked };

    fn can_take(call: Call) -> bool {
        match call {
            Call::Malloc { .. } | Call::Free { .. } | Call::Release { .. } => true,
            Call::Drain { .. } | Call::Resize { .. } => false,
        }
    }

    ghost shared = { λ input order holds. holds };

    ghost opens = { λ setting limits. tt };

    ghost lawful = { lawful_in };
}
