//! Two counters that two workers count up, as a machine.
ghost use Rattle.std.specs.Prelude.{◌≡◌, ◌≤◌, [], IfOk};

use std::alloc::{AllocError, Global};
use tc_model::{Acted, MOST_PICKS, Machine, PartNo, Replay, Serial};

/// A counter, which is a part.
#[derive(Drop)]
pub struct Counter {
    pub count: u64,
}

/// A worker, which is a local: how many acts are left to it at either counter.
#[derive(Drop)]
pub struct Worker {
    pub first: u64,
    pub second: u64,
}

/// Two workers, each with one call: to count each of two counters up by `each`, first the one and then
/// the other.
#[derive(Drop)]
pub struct Counters {
    pub each: u64,
    pub ghost few: { each ≤ 900 },
}

impl Counters {
    /// A run without picks, of which at most `limit` may move.
    pub fn open(alloc: Global, each: u64, limit: u64) -> Result<Replay<Counters>, AllocError>
        requires few { each ≤ 900 }
        requires limit { limit ≤ MOST_PICKS }
        ensures machine { IfOk result (λ run. run.machine.each ≡ each) }
        ensures order { IfOk result (λ run. run.order.items ≡ []) }
        ensures limit { IfOk result (λ run. run.limit ≡ limit) }
    {
        let mut parts = Vec::new(alloc);
        let mut locals = Vec::new(alloc);
        parts.push(Counter { count: 0 })?;
        parts.push(Counter { count: 0 })?;
        locals.push(Worker {
            first: each,
            second: each,
        })?;
        locals.push(Worker {
            first: each,
            second: each,
        })?;
        let order = Vec::new(alloc);
        Ok(Replay::gather(alloc, Counters { each }, parts, locals, order, limit))
    }
}

impl Machine for Counters {
    type Part = Counter;

    type Local = Worker;

    ghost use Rattle.counters.specs.Counters.{counters_rules, CounterFits, counters_sound};

    ghost rules = { counters_rules };

    ghost fits = { λ m p l. CounterFits p l };

    fn want(&self, local: &Worker) -> Option<PartNo> {
        if local.first > 0 {
            Some(PartNo(0))
        } else if local.second > 0 {
            Some(PartNo(1))
        } else {
            None
        }
    }

    fn done(&self, local: &Worker) -> u64 {
        if local.first == 0 && local.second == 0 {
            1
        } else {
            0
        }
    }

    fn waits(&self, _part: &Counter, _local: &Worker) -> bool {
        false
    }

    fn yields(&self, _part: &Counter, _local: &Worker) -> bool {
        true
    }

    fn act(
        &self,
        _alloc: Global,
        part: &mut Counter,
        local: &mut Worker,
    ) -> Result<Acted, AllocError> {
        part.count += 1;
        if local.first > 0 {
            local.first -= 1;
        } else {
            local.second -= 1;
        }
        Ok(Acted::Moved)
    }

    ghost sound = { counters_sound };
}

impl Serial for Counters {
    ghost use Rattle.std.specs.Prelude.{[], ◌∷◌};
    ghost use Rattle.counters.specs.Counters.{counters_threads, counters_never_wait, counters_rise, counters_end};

    ghost turns = { λ m. 0 ∷ 1 ∷ [] };

    fn calls(&self) -> usize {
        2
    }

    fn turn(&self, call: usize) -> u16 {
        if call == 0 { 0 } else { 1 }
    }

    ghost threads = { counters_threads };

    ghost never_waits = { counters_never_wait };

    ghost rises = { counters_rise };

    ghost ends = { counters_end };
}
