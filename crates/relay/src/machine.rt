//! Runners that count lanes up, as a machine: a runner may wait for another's counts, may yield to
//! another, and may want memory that isn't there.
ghost use Rattle.std.specs.Prelude.{◌<◌};

use std::alloc::{AllocError, Global};
use tc_model::{Acted, Machine, PartNo};

/// A counter, which is a part.
#[derive(Drop)]
pub struct Lane {
    pub count: u64,
}

/// A runner, which is a local: how many acts are left to it. It waits at a lane whose count is below
/// `from`, yields at a lane whose count is `shuns`, and its act is refused memory when `breaks` acts are
/// left.
#[derive(Clone, Copy, Drop)]
pub struct Runner {
    pub left: u64,
    pub from: u64,
    pub shuns: u64,
    pub breaks: u64,
}

/// So many lanes, and runners. A runner's next act counts the lane of the number of acts that are left to
/// it, modulo the number of lanes.
#[derive(Drop)]
pub struct Relay {
    pub lanes: u16,
    pub runners: Vec<Runner>,
    pub ghost some: { 0 < lanes },
}

impl Machine for Relay {
    type Part = Lane;

    type Local = Runner;

    ghost use Rattle.relay.specs.Relay.{relay_rules, relay_sound};

    ghost rules = { relay_rules };

    ghost fits = { λ m p l. Unit {0} };

    fn want(&self, local: &Runner) -> Option<PartNo> {
        if local.left == 0 {
            None
        } else {
            Some(PartNo((local.left % self.lanes as u64) as u16))
        }
    }

    fn done(&self, local: &Runner) -> u64 {
        if local.left == 0 { 1 } else { 0 }
    }

    fn waits(&self, part: &Lane, local: &Runner) -> bool {
        part.count < local.from
    }

    fn yields(&self, part: &Lane, local: &Runner) -> bool {
        part.count != local.shuns
    }

    fn act(
        &self,
        _alloc: Global,
        part: &mut Lane,
        local: &mut Runner,
    ) -> Result<Acted, AllocError> {
        if part.count < local.from {
            return Ok(Acted::NotYet);
        }
        if local.left == local.breaks {
            return Err(AllocError);
        }
        part.count = part.count.wrapping_add(1);
        local.left = local.left.saturating_sub(1);
        Ok(Acted::Moved)
    }

    ghost sound = { relay_sound };
}
