//! The threads of a merge alone: each is put at its entry's ticket, so that no list is copied.
ghost use Rattle.std.specs.Prelude.{◌≡◌, ℕ, ◌+◌, ◌<◌, ◌≤◌, ◌++◌, vec_len, vec_capacity, option_map, option_to_list, map, length, replicate, None, IfOk, OnOk};
ghost use Rattle.std.specs.List.{sum_by};
ghost use Rattle.tc_model.specs.declared.board.Entry.{Entry};
ghost use Rattle.tc_model.specs.Rises.{Has, Rising, Stands, AreApart, ticket_of};
ghost use Rattle.merge_journal.specs.Threads.{AreMerged};
ghost use Rattle.merge_journal.specs.Placed.{put_all, all_in, threads_among};

use std::alloc::{AllocError, Global};
use std::marker::Brand;
use std::sync::ledger::{Blank, Ledger};
use tc_model::Entry;
use tc_units::{Steps, ThreadNo};

/// The least number above each ticket of a list that rises.
fn places_of(entries: &[Entry]) -> usize
    requires rises { Rising ticket_of entries.now }
    ensures enough { (e : Entry) → Has entries.now e → e.ticket < result }
    ensures least { (most : ℕ) → ((e : Entry) → Has entries.now e → e.ticket < most) → result ≤ most }
{
    match entries.last() {
        Some(last) => last.ticket as usize + 1,
        None => 0,
    }
}

/// The least number above each ticket of lists that rise.
fn places_for(lists: &[Vec<Entry>]) -> usize
    requires apart { AreApart (map (λ v. v.items) lists.now) }
    ensures enough { (e : Entry) → Has (all_in (map (λ v. v.items) lists.now)) e → e.ticket < result }
    ensures least { (most : ℕ) → ((e : Entry) → Has (all_in (map (λ v. v.items) lists.now)) e → e.ticket < most) → result ≤ most }
{
    let mut places = 0;
    for list in lists {
        places = places.max(places_of(list));
    }
    places
}

/// Places for tickets below a number, at which no thread stands.
fn empty_places(alloc: Global, places: usize) -> Result<Vec<Option<ThreadNo>>, AllocError>
    ensures { IfOk result (λ placed. placed.items ≡ replicate places None) }
{
    vec![in alloc; None; places]
}

/// Puts the threads of a list's entries at their tickets.
fn put_list<L: Ledger>(placed: &mut [Option<ThreadNo>], entries: &[Entry], steps: &mut Steps<L>)
    requires tickets { (e : Entry) → Has entries.now e → e.ticket < length placed.old }
    ensures placed { placed.new ≡ put_all placed.old entries.now }
    ensures counted { steps.new ≡ steps.old + length entries.now }
{
    for entry in entries {
        steps.tick();
        placed[entry.ticket as usize] = Some(entry.thread);
    }
}

/// Puts the threads of the entries of lists at their tickets.
fn put_lists<L: Ledger>(placed: &mut [Option<ThreadNo>], lists: &[Vec<Entry>], steps: &mut Steps<L>)
    requires tickets { (e : Entry) → Has (all_in (map (λ v. v.items) lists.now)) e → e.ticket < length placed.old }
    ensures placed { placed.new ≡ put_all placed.old (all_in (map (λ v. v.items) lists.now)) }
    ensures counted { steps.new ≡ steps.old + sum_by (λ v. length v.items) lists.now }
{
    for list in lists {
        put_list(placed, list, steps);
    }
}

/// Puts the thread that stands at a ticket behind the others, if one does.
fn push_thread(threads: &mut Vec<u16>, place: Option<ThreadNo>)
    requires room { vec_len threads.old < vec_capacity threads.old }
    ensures items { threads.new.items ≡ threads.old.items ++ option_to_list (option_map (λ t. t.0) place) }
    ensures len { vec_len threads.new ≤ vec_len threads.old + 1 }
    ensures room { vec_capacity threads.new ≡ vec_capacity threads.old }
{
    if let Some(thread) = place {
        threads.push_reserved(u16::from(thread.0));
    }
}

/// The threads among what stands at tickets.
fn threads_of<L: Ledger>(
    alloc: Global,
    placed: &[Option<ThreadNo>],
    steps: &mut Steps<L>,
) -> Result<Vec<u16>, AllocError>
    ensures threads { IfOk result (λ threads. threads.items ≡ threads_among placed.now) }
    ensures counted { OnOk result (steps.new ≡ steps.old + length placed.now) }
{
    let mut threads = Vec::with_capacity(alloc, placed.len())?;
    for place in placed {
        steps.tick();
        push_thread(&mut threads, *place);
    }
    Ok(threads)
}

/// The threads of the merge of lists of entries, by ticket. Each list rises by ticket, and no ticket stands twice. Each entry
/// is read once, and so is each number up to the greatest ticket.
pub fn merge_threads_counted<L: Ledger>(
    alloc: Global,
    lists: &[Vec<Entry>],
    steps: &mut Steps<L>,
) -> Result<Vec<u16>, AllocError>
    requires apart { AreApart (map (λ v. v.items) lists.now) }
    ensures merged { IfOk result (λ threads. AreMerged (map (λ v. v.items) lists.now) threads.items) }
    ensures cost { OnOk result ((most : ℕ) → ((e : Entry) → Stands (map (λ v. v.items) lists.now) e → e.ticket < most)
        → steps.new ≤ steps.old + sum_by (λ v. length v.items) lists.now + most) }
{
    let mut placed = empty_places(alloc, places_for(lists))?;
    put_lists(&mut placed, lists, steps);
    threads_of(alloc, &placed, steps)
}

/// The same, by steps that are counted on a ledger of its own.
fn merge_threads_on<L: Ledger>(
    alloc: Global,
    lists: &[Vec<Entry>],
    blank: Blank,
) -> Result<Vec<u16>, AllocError>
    requires name { blank.name ≡ L.name }
    requires parts { blank.parts ≡ L.parts }
    requires some { 0 < L.parts }
    requires apart { AreApart (map (λ v. v.items) lists.now) }
    ensures { IfOk result (λ threads. AreMerged (map (λ v. v.items) lists.now) threads.items) }
{
    merge_threads_counted(alloc, lists, &mut Steps::<L>::new(blank))
}

/// The same, for a caller that counts no steps.
pub fn merge_threads(alloc: Global, lists: &[Vec<Entry>]) -> Result<Vec<u16>, AllocError>
    requires apart { AreApart (map (λ v. v.items) lists.now) }
    ensures { IfOk result (λ threads. AreMerged (map (λ v. v.items) lists.now) threads.items) }
{
    merge_threads_on::<Brand>(alloc, lists, Blank::new(1))
}
