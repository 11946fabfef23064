//! The parts of the caches at the start.
ghost use Rattle.std.specs.Prelude.{◌≡◌, ◌++◌, replicate, IfOk, OnOk};
ghost use Rattle.cpu_rows.specs.declared.part.CpuFrontPart.TheVariants.{Cpu};
ghost use Rattle.cpu_rows.specs.CpuFront.{first_cpu, domain_caches, all_caches};
ghost use Rattle.cpu_rows.specs.Laws.{AreCpuLimits};

use call_steps::Setting;
use cpu_rows::CpuFrontPart;
use cpu_slab::Slab;
use rseq_core::CpuPart;
use std::alloc::{AllocError, Global};
use tc_units::Class;
use transfer_cache::TransferCache;

/// A CPU at which nobody runs, with an empty slab.
fn cpu_of(setting: &Setting, alloc: Global) -> Result<CpuPart, AllocError>
    requires { AreCpuLimits setting.now.config }
    ensures { IfOk result (λ cpu. cpu ≡ first_cpu setting.now.table setting.now.config) }
{
    let slab = Slab::open(
        alloc,
        setting.table.rows(),
        setting.config.slab,
        setting.config.percpu,
    )?;
    Ok(CpuPart::new(slab))
}

/// The CPUs.
pub(crate) fn cpus_of(setting: &Setting, alloc: Global) -> Result<Vec<CpuFrontPart>, AllocError>
    requires { AreCpuLimits setting.now.config }
    ensures { IfOk result (λ parts. parts.items ≡ replicate setting.now.config.cpus (Cpu (first_cpu setting.now.table setting.now.config))) }
{
    let mut parts = Vec::new(alloc);
    for _ in 0..setting.config.cpus {
        parts.push(CpuFrontPart::Cpu(cpu_of(setting, alloc)?))?;
    }
    Ok(parts)
}

/// The caches of one domain, by classes.
fn add_caches(
    setting: &Setting,
    alloc: Global,
    parts: &mut Vec<CpuFrontPart>,
) -> Result<(), AllocError>
    ensures { OnOk result (parts.new.items ≡ parts.old.items ++ domain_caches setting.now.table setting.now.config) }
{
    for class in 0..setting.table.len() {
        let cache = TransferCache::open(alloc, setting.config.transfer)?;
        let class = Class(class as u8);
        parts.push(CpuFrontPart::Domain { class, cache })?;
    }
    Ok(())
}

/// The caches of all domains.
pub(crate) fn caches_of(setting: &Setting, alloc: Global) -> Result<Vec<CpuFrontPart>, AllocError>
    ensures { IfOk result (λ parts. parts.items ≡ all_caches setting.now.config.domains (domain_caches setting.now.table setting.now.config)) }
{
    let mut parts = Vec::new(alloc);
    for _ in 0..setting.config.domains {
        add_caches(setting, alloc, &mut parts)?;
    }
    Ok(parts)
}
