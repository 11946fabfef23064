//! The rows of the per-CPU caches and of the domains' transfer caches, their acts, and the law that they meet.
#![tactic(auto)]

mod cpu;
mod domain;
mod laws;
mod part;
mod row;
mod seat;

pub use cpu::{act_cpu, stay_at_cpu, yields};
pub use domain::act_domain;
pub use laws::{cpu_is_lawful, holds_in_every_order};
pub use part::CpuFrontPart;
pub use row::{CpuRow, CpuStep, DomainStep, Draining, Resizing, Stopping};
pub use seat::{CpuSeat, place, stop_row};
