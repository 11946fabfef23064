//! Why workers were halted.
ghost use Rattle.std.specs.Prelude.{◌≡◌};
ghost use Rattle.std.specs.Prelude.{IfOk};
ghost use Rattle.replay_workers.specs.Runs.{is_halt_for, is_any_halted, halt_of, lasts_of};

use crate::worker::Worker;
use std::alloc::{AllocError, Global};
use tc_model::{Board, Halt, Turn};

/// Whether a turn was halted for a cause.
fn is_halt_for(cause: Halt, answer: Turn) -> bool
    ensures { result ≡ is_halt_for cause answer }
{
    match answer {
        Turn::Halted {
            cause: Halt::Memory,
        } => cause == Halt::Memory,
        Turn::Halted { cause: Halt::Full } => cause == Halt::Full,
        _ => false,
    }
}

/// Whether a worker was halted for a cause.
fn is_any_halted<B: Board>(workers: &[Worker<B>], cause: Halt) -> bool
    ensures { result ≡ is_any_halted cause (lasts_of workers.now) }
{
    workers
        .iter()
        .map(|worker| worker.last)
        .any(|last| is_halt_for(cause, last))
}

/// The last answers of workers, in their order.
pub fn lasts_of<B: Board>(alloc: Global, workers: &[Worker<B>]) -> Result<Vec<Turn>, AllocError>
    ensures { IfOk result (λ lasts. lasts.items ≡ lasts_of workers.now) }
{
    workers.iter().map(|worker| worker.last).collect(alloc)
}

/// Why workers were halted, where one was: for want of memory where any was, and else for the limit.
pub fn halt_of<B: Board>(workers: &[Worker<B>]) -> Option<Halt>
    ensures { result ≡ halt_of workers.now }
{
    if is_any_halted(workers, Halt::Memory) {
        Some(Halt::Memory)
    } else if is_any_halted(workers, Halt::Full) {
        Some(Halt::Full)
    } else {
        None
    }
}
