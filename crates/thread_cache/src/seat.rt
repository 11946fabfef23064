//! What a thread has at the caches beside its registers.
ghost use Rattle.std.specs.Prelude.{◌≡◌, ◌<◌, ◌%◌};
ghost use Rattle.thread_cache.specs.Rows.{next_cache, next_victim, cache_place, seat_of};

use crate::row::CacheRow;
use tc_units::ThreadNo;

/// A thread's seat at the caches: which one is its own, and which one it asks next. The victims of a thread
/// are the caches behind its own, round to the one before it. Which of them comes next stays from call to
/// call.
#[derive(Clone, Copy, Debug, PartialEq, Eq)]
pub struct CacheSeat {
    /// The number of the thread's own cache.
    pub own: u8,
    /// How many caches there are.
    pub caches: u8,
    /// The number of the next victim.
    pub victim: u8,
}

/// The number of the cache behind one, round so many.
fn next_cache(caches: u8, number: u8) -> u8
    ensures { result ≡ next_cache caches number }
{
    if u16::from(number) + 1 < u16::from(caches) {
        number + 1
    } else {
        0
    }
}

impl CacheSeat {
    /// The seat of a thread at the start, where there are so many threads.
    pub fn new(thread: ThreadNo, threads: u8) -> Self
        requires { 0 < threads }
        ensures { result ≡ seat_of threads thread.0 }
    {
        let own = thread.0 % threads;
        CacheSeat {
            own,
            caches: threads,
            victim: next_cache(threads, own),
        }
    }

    /// The victim was asked: the next one is the cache behind it, but not the thread's own.
    pub(crate) fn pass(&mut self)
        ensures { self.new ≡ next_victim self.old }
    {
        let next = next_cache(self.caches, self.victim);
        self.victim = if next == self.own {
            next_cache(self.caches, next)
        } else {
            next
        };
    }

    /// The number of the cache that a row is at.
    pub fn place(&self, row: CacheRow) -> u16
        ensures place { result ≡ cache_place self.now row }
        ensures low { result < 32768 }
    {
        match row {
            CacheRow::Ask(_) => u16::from(self.victim),
            _ => u16::from(self.own),
        }
    }
}
