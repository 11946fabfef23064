//! Merges lists by halves, so that an entry is copied about as often as the number of lists can be
//! halved.
ghost use Rattle.std.specs.Prelude.{◌≡◌, ◌≢◌, map, length, ◌≤◌, IfOk};
ghost use Rattle.tc_model.specs.declared.board.Entry.{Entry};
ghost use Rattle.tc_model.specs.Rises.{Has, Rising, ticket_of, AreApart, IsMerge};
ghost use Rattle.merge_journal.specs.Two.{IsMergeOfTwo};

use std::alloc::{AllocError, Global};
use tc_model::Entry;

/// The entries of two lists by ticket.
fn merge_two(alloc: Global, first: &[Entry], second: &[Entry]) -> Result<Vec<Entry>, AllocError>
    requires rise { Rising ticket_of first.now × Rising ticket_of second.now }
    requires apart { (a : Entry) (b : Entry) → Has first.now a → Has second.now b → a.ticket ≢ b.ticket }
    ensures { IfOk result (λ es. IsMergeOfTwo first.now second.now es.items) }
{
    let mut merged = Vec::with_capacity(alloc, first.len() + second.len())?;
    let mut i = 0;
    let mut j = 0;
    while i < first.len() && j < second.len() {
        if first[i].ticket < second[j].ticket {
            merged.push_reserved(first[i]);
            i += 1;
        } else {
            merged.push_reserved(second[j]);
            j += 1;
        }
    }
    merged.extend_from_slice(&first[i..])?;
    merged.extend_from_slice(&second[j..])?;
    Ok(merged)
}

/// The entries of the one list, or none.
fn first_of(alloc: Global, entries: &[Vec<Entry>]) -> Result<Vec<Entry>, AllocError>
    requires one { length entries.now ≤ 1 }
    requires apart { AreApart (map (λ v. v.items) entries.now) }
    ensures { IfOk result (λ es. IsMerge (map (λ v. v.items) entries.now) es.items) }
{
    let mut merged = Vec::new(alloc);
    if entries.is_empty() {
        return Ok(merged);
    }
    merged.extend_from_slice(entries[0].as_slice())?;
    Ok(merged)
}

/// The merge of lists of entries: the entries of all lists by ticket, each as often as it was given. Each
/// list rises by ticket, and no ticket stands twice. For n entries of k lists it takes n steps for each
/// time that k can be halved.
pub fn merge(alloc: Global, entries: &[Vec<Entry>]) -> Result<Vec<Entry>, AllocError>
    requires apart { AreApart (map (λ v. v.items) entries.now) }
    ensures { IfOk result (λ es. IsMerge (map (λ v. v.items) entries.now) es.items) }
{
    if entries.len() <= 1 {
        return first_of(alloc, entries);
    }
    let (front, back) = entries.split_at(entries.len() / 2);
    let front = merge(alloc, front)?;
    let back = merge(alloc, back)?;
    let merged = merge_two(alloc, front.as_slice(), back.as_slice())?;
    Ok(merged)
}
