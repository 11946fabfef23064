//! The profile of a finished list of calls.
ghost use Rattle.std.specs.Prelude.{◌≡◌, ◌<◌, ◌≤◌, All, IfOk, length};
ghost use Rattle.heap_sample.specs.Samples.{most_calls};
ghost use Rattle.heap_sample.specs.Profiles.{IsProfileOf, AreFirstUses};

use crate::profile::Profile;
use std::alloc::{AllocError, Global};
use tc_model::CallLine;

/// The profile of calls that `threads` threads made, with a sample at each `step` bytes.
pub fn profile_of(
    alloc: Global,
    lines: &[CallLine],
    step: u64,
    threads: u8,
) -> Result<Profile, AllocError>
    requires some { 0 < step }
    requires few { length lines.now ≤ most_calls }
    requires threads { All (λ c. c.thread.0 < threads) lines.now }
    requires labels { AreFirstUses lines.now }
    ensures step { IfOk result (λ profile. profile.step ≡ step) }
    ensures profile { IfOk result (λ profile. IsProfileOf lines.now profile) }
{
    let mut profile = Profile::open(alloc, step, threads)?;
    for line in lines {
        profile.add_next(line)?;
    }
    Ok(profile)
}
