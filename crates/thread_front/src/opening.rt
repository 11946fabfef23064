//! The caches at the start.
ghost use Rattle.std.specs.Prelude.{◌≡◌, replicate, IfOk};
ghost use Rattle.thread_cache.specs.Cache.{opened};

use call_steps::Setting;
use std::alloc::{AllocError, Global};
use thread_cache::CachePart;

/// An empty cache with the first limit.
fn cache_of(setting: &Setting, alloc: Global) -> Result<CachePart, AllocError>
    ensures { IfOk result (λ cache. cache ≡ opened setting.now.table setting.now.config.percpu) }
{
    CachePart::open(alloc, setting.table.rows(), setting.config.percpu)
}

/// A cache for each thread.
pub(crate) fn caches_of(setting: &Setting, alloc: Global) -> Result<Vec<CachePart>, AllocError>
    ensures { IfOk result (λ parts. parts.items ≡ replicate setting.now.config.threads (opened setting.now.table setting.now.config.percpu)) }
{
    let mut parts = Vec::new(alloc);
    for _ in 0..setting.config.threads {
        parts.push(cache_of(setting, alloc)?)?;
    }
    Ok(parts)
}
