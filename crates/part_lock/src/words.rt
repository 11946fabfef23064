//! Where the words of the table lie: far enough from each other that threads don't wait for a line of a cache that another word is in.
ghost use Rattle.std.specs.Prelude.{◌≡◌, ◌<◌, replicate, IfOk};
ghost use Rattle.part_lock.specs.Lock.{part_word};

use std::alloc::{AllocError, Global};

/// Words from one that threads write to the next one: two lines of a cache, since processors fetch lines in pairs.
const APART: usize = 16;

/// The word of halt.
pub(crate) const HALT: usize = 0;

/// The word of tickets.
pub(crate) const TICKET: usize = APART;

/// The word of a part.
pub(crate) fn word_of(part: usize) -> usize
    requires { part < 65536 }
    ensures { result ≡ part_word part }
{
    APART * (part + 2)
}

/// The words at their start, for so many parts.
pub(crate) fn zeros(alloc: Global, parts: usize) -> Result<Vec<u64>, AllocError>
    ensures { IfOk result (λ v. v.items ≡ replicate (part_word parts) 0) }
{
    let Some(words) = parts.checked_add(2).and_then(|n| n.checked_mul(APART)) else {
        return Err(AllocError);
    };
    Ok(vec![in alloc; 0; words]?)
}
