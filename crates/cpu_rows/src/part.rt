//! The parts of the per-CPU caches, each of which one act works on at a time.
use rseq_core::CpuPart;
use tc_units::Class;
use transfer_cache::TransferCache;

/// A part of the per-CPU caches. The CPUs come before the shards, and behind the names the transfer caches of
/// the domains, each domain's by classes.
#[derive(Drop)]
pub enum CpuFrontPart {
    /// A CPU: who runs there, and its slab.
    Cpu(CpuPart),
    /// The transfer cache of a size class in a domain of CPUs.
    Domain { class: Class, cache: TransferCache },
}
