//! The merge of three small journals, worked out by hand.
ghost use Rattle.std.specs.Prelude.{◌≡◌};

use crate::{merge, merge_threads};
use std::test::Fail;
use tc_model::Entry;
use tc_units::ThreadNo;

fn entry(ticket: u32, thread: u8) -> Entry
    ensures ticket { result.ticket ≡ ticket }
{
    Entry {
        ticket,
        thread: ThreadNo(thread),
    }
}

#[test]
fn entries_stand_by_their_tickets(rt: HostRuntime) -> Result<(), Fail> {
    let alloc = rt.alloc();
    let first = vec![in alloc; entry(1, 0), entry(4, 1), entry(9, 0)]?;
    let second = Vec::new(alloc);
    let third = vec![in alloc; entry(0, 2), entry(5, 2)]?;
    let fourth = vec![in alloc; entry(2, 1), entry(3, 1), entry(7, 0)]?;
    let lists = vec![in alloc; first, second, third, fourth]?;
    let merged = merge(alloc, lists.as_slice())?;
    let by_hand = [
        entry(0, 2),
        entry(1, 0),
        entry(2, 1),
        entry(3, 1),
        entry(4, 1),
        entry(5, 2),
        entry(7, 0),
        entry(9, 0),
    ];
    assert_eq!(rt; merged.as_slice(), by_hand.as_slice());
    let threads = merge_threads(alloc, lists.as_slice())?;
    assert_eq!(rt; threads.as_slice(), [2, 0, 1, 1, 1, 2, 0, 0].as_slice());
    Ok(())
}

#[test]
fn no_lists_have_no_entries(rt: HostRuntime) -> Result<(), Fail> {
    let alloc = rt.alloc();
    let lists: Vec<Vec<Entry>> = Vec::new(alloc);
    assert_eq!(rt; merge(alloc, lists.as_slice())?.len(), 0);
    assert_eq!(rt; merge_threads(alloc, lists.as_slice())?.len(), 0);
    Ok(())
}
