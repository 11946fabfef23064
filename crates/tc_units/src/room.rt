//! Room for one more in a vector, so that it grows neither by one nor by more than twice.
ghost use Rattle.std.specs.Prelude.{◌≡◌, ◌<◌, ◌≤◌, OnOk, OnErr, vec_len, vec_capacity};
ghost use Rattle.tc_units.specs.Room.{room_after};

use std::alloc::AllocError;

/// Room that is made at least where there was none.
const LEAST_ROOM: usize = 4;

/// Sees that there is room for one more: where there is none, as much again as there are items, and four at least.
#[inline(always)]
pub fn make_room<T: Drop>(items: &mut Vec<T>) -> Result<(), AllocError>
    ensures items { items.new.items ≡ items.old.items }
    ensures len { vec_len items.new ≡ vec_len items.old }
    ensures room { OnOk result (vec_len items.new < vec_capacity items.new) }
    ensures grown { OnOk result (vec_capacity items.new ≡ room_after (vec_len items.old) (vec_capacity items.old)) }
    ensures full { OnErr result (vec_capacity items.new ≤ vec_len items.new) }
    ensures kept { OnErr result (vec_capacity items.new ≡ vec_capacity items.old) }
{
    if items.len() < items.capacity() {
        return Ok(());
    }
    items.reserve_exact(items.len().max(LEAST_ROOM))
}
