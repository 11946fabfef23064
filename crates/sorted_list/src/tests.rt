//! Keys whose order was worked out by hand.
ghost use Rattle.std.specs.Prelude.{◌≡◌};

use crate::{SortKey, SortedList};
use std::test::Fail;

/// A task: the greatest weight first, and of equal ones the least number.
#[derive(Clone, Copy, Debug, PartialEq, Eq)]
struct Task {
    weight: u32,
    number: u32,
}

impl SortKey for Task {
    ghost use Rattle.std.specs.Prelude.{nat_lt};
    ghost use Rattle.sorted_list.specs.Order.{first_by};
    ghost use Rattle.std.proofs.Common.{ap, ◌∙◌, sym};
    ghost use Rattle.sorted_list.specs.Measures.{order_of, by_number, greatest_first};

    ghost before = { λ a b. first_by b.weight a.weight (nat_lt a.number b.number) };

    ghost sample = { record { weight = 0; number = 0 } };

    fn sample() -> Task {
        job(0, 0)
    }

    fn comes_before(&self, other: Task) -> bool {
        other.weight < self.weight || other.weight == self.weight && self.number < other.number
    }

    ghost order = { order_of _ _ (greatest_first (λ a. a.weight) _ _ (by_number (λ a. a.number)))
        (λ a b e. ap (λ w. record { weight = w; number = a.number }) (sym e.0) ∙ ap (λ n. record { weight = b.weight; number = n }) e.1) };
}

/// A task of a weight.
fn job(weight: u32, number: u32) -> Task
    ensures weight { result.weight ≡ weight }
    ensures number { result.number ≡ number }
{
    Task { weight, number }
}

#[test]
fn jobs_come_and_leave(rt: HostRuntime) -> Result<(), Fail> {
    let mut list = SortedList::open(rt.alloc(), 5)?;
    assert_eq!(rt; list.first(), None);
    assert_eq!(rt; list.last(), None);
    assert_eq!(rt; list.first_at_or_after(job(9, 9)), None);
    list.insert(job(10, 5));
    list.insert(job(30, 1));
    list.insert(job(20, 7));
    list.insert(job(20, 3));
    let middle = job(20, 5);
    list.insert(middle);
    // In order: 30/1, 20/3, 20/5, 20/7, 10/5.
    assert_eq!(rt; list.len(), 5);
    assert_eq!(rt; list.first(), Some(job(30, 1)));
    assert_eq!(rt; list.last(), Some(job(10, 5)));
    assert_eq!(rt; list.first_at_or_after(job(20, 4)), Some(job(20, 5)));
    assert_eq!(rt; list.first_at_or_after(job(20, 8)), Some(job(10, 5)));
    assert_eq!(rt; list.first_at_or_after(job(10, 6)), None);
    list.remove(middle);
    assert_eq!(rt; list.first_at_or_after(job(20, 4)), Some(job(20, 7)));
    // A slot that became free is used again.
    list.insert(job(20, 4));
    assert_eq!(rt; list.first_at_or_after(job(20, 4)), Some(job(20, 4)));
    Ok(())
}

#[test]
fn a_task_with_another_weight(rt: HostRuntime) -> Result<(), Fail> {
    let mut list = SortedList::open(rt.alloc(), 3)?;
    list.insert(job(10, 1));
    list.insert(job(20, 2));
    list.insert(job(15, 3));
    // From the middle to the end, and from there to the front.
    list.rekey(job(15, 3), job(5, 3));
    assert_eq!(rt; list.last(), Some(job(5, 3)));
    list.rekey(job(5, 3), job(40, 3));
    assert_eq!(rt; list.first(), Some(job(40, 3)));
    assert_eq!(rt; list.last(), Some(job(10, 1)));
    assert_eq!(rt; list.first_at_or_after(job(20, 3)), Some(job(10, 1)));
    assert_eq!(rt; list.len(), 3);
    // Looked for behind all keys, and at a place behind it.
    assert_eq!(rt; list.rekey_near(7, job(40, 3), job(15, 3)), 1);
    assert_eq!(rt; list.rekey_near(2, job(15, 3), job(30, 3)), 0);
    assert_eq!(rt; list.first(), Some(job(30, 3)));
    Ok(())
}

#[test]
fn more_keys_than_slots_have_numbers(rt: HostRuntime) {
    assert!(rt; SortedList::<Task>::open(rt.alloc(), 65_537).is_err());
}
