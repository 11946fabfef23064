//! A relay at its start.
ghost use Rattle.std.specs.Prelude.{◌≡◌, ◌<◌, IfOk};
ghost use Rattle.relay.specs.Relay.{relay_rules};

use crate::machine::{Lane, Relay, Runner};
use std::alloc::{AllocError, Global};

impl Relay {
    /// A relay with its lanes and runners at their start.
    pub fn open(
        alloc: Global,
        lanes: u16,
        runners: &[Runner],
    ) -> Result<(Relay, Vec<Lane>, Vec<Runner>), AllocError>
        requires some { 0 < lanes }
        ensures parts { IfOk result (λ s. s.1.items ≡ (relay_rules s.0).parts) }
        ensures locals { IfOk result (λ s. s.2.items ≡ (relay_rules s.0).locals) }
        ensures few { IfOk result (λ s. s.2.items ≡ runners.now) }
    {
        let mut parts = Vec::new(alloc);
        for _i in 0..lanes {
            parts.push(Lane { count: 0 })?;
        }
        let mut kept = Vec::new(alloc);
        kept.extend_from_slice(runners)?;
        let mut locals = Vec::new(alloc);
        locals.extend_from_slice(runners)?;
        let relay = Relay {
            lanes,
            runners: kept,
        };
        Ok((relay, parts, locals))
    }
}
