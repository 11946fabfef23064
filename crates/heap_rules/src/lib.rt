//! The laws of a page heap, over values alone.
#![tactic(auto)]

ghost use Rattle.heap_rules.specs.Laws.{NewGives, FreeLeaves, ReleaseKeeps, NoneIsBacked, ReleaseIsEnough};
ghost use Rattle.heap_rules.specs.ReleaseDoes.{ReleaseDoes};

mod config;

pub use config::HeapConfig;

/// A new run takes unused pages of the arena, and there is none exactly where none fits.
pub fn new_gives()
    ensures { NewGives }
{}

/// A free takes the run away.
pub fn free_leaves()
    ensures { FreeLeaves }
{}

/// A release keeps the runs and their backing.
pub fn release_keeps()
    ensures { ReleaseKeeps }
{}

/// A free and a release back no page.
pub fn none_is_backed()
    ensures { NoneIsBacked }
{}

/// A release answers at least what is asked exactly where so many pages may be given.
pub fn release_is_enough()
    ensures { ReleaseIsEnough }
{}

/// A release unbacks as many pages as are asked for, or all that it may, and tells how many.
pub fn release_does()
    ensures { ReleaseDoes }
{}
