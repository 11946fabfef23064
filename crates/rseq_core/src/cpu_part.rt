//! A CPU, as the threads that run there share it.
ghost use Rattle.std.specs.Prelude.{◌≡◌, ◌+◌, ◌-◌, ◌^◌, ◌<◌, true, false, Some, None};

use cpu_slab::Slab;
use tc_units::ThreadNo;

/// A CPU.
#[derive(Drop)]
pub struct CpuPart {
    /// The thread that runs there.
    pub running: Option<ThreadNo>,
    /// Rises by one with each switch and each fence.
    pub epoch: u64,
    /// Whether a sequence or a growth was begun and is not ended yet.
    pub is_open: bool,
    /// Executed instructions since the last switch, up to 256.
    pub ran: u32,
    /// The thread that stops new sequences.
    pub stopper: Option<ThreadNo>,
    /// Whether the stopper has sent back the sequences that were begun.
    pub fenced: bool,
    pub slab: Slab,
}

impl CpuPart {
    ghost use Rattle.rseq_core.specs.Acts.{runs};

    /// A CPU at which nobody runs and nobody stands as stopper.
    pub fn new(slab: Slab) -> Self
        ensures { result ≡ record { running = None; epoch = 0; is_open = false; ran = 0; stopper = None; fenced = false; slab = slab } }
    {
        CpuPart {
            running: None,
            epoch: 0,
            is_open: false,
            ran: 0,
            stopper: None,
            fenced: false,
            slab,
        }
    }

    /// Whether a thread runs there.
    pub(crate) fn runs(&self, thread: ThreadNo) -> bool
        ensures { result ≡ runs self.now.running thread }
    {
        match self.running {
            None => false,
            Some(running) => running.0 == thread.0,
        }
    }

    /// Switches a thread in, and tells the new epoch.
    pub(crate) fn enter(&mut self, thread: ThreadNo) -> u64
        requires { self.old.epoch < 2 ^ 64 - 1 }
        ensures entered { self.new ≡ record self.old { running = Some thread; epoch = self.old.epoch + 1; is_open = true; ran = 0 } }
        ensures epoch { result ≡ self.old.epoch + 1 }
    {
        self.running = Some(thread);
        self.epoch += 1;
        self.is_open = true;
        self.ran = 0;
        self.epoch
    }
}
