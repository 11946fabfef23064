//! The allocator as a machine: any number of threads, whose picks come in any order.
#![tactic(auto)]

mod allocator;
mod along;
mod decides;
mod finish;
mod listener;
mod machine;
mod opened;
mod opening;
mod recalls;
mod standing;
mod state;
mod taking;
mod telling;
mod totals;

pub use allocator::{Allocator, Opened};
pub use decides::Decides;
pub use finish::{heap_of, rows_of};
pub use listener::Listener;
pub use machine::{AllocMachine, Forgetful, act_at, waits_at};
pub use opening::parts_of;
pub use recalls::Recalls;
pub use standing::Standing;
pub use state::State;
pub use taking::refused_line;
pub use telling::{Teller, tell_all};
pub use totals::Totals;
