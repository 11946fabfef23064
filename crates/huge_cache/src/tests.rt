//! Free hugepages whose runs and limits were worked out by hand.
ghost use Rattle.std.specs.Prelude.{◌≡◌, ◌+◌, ◌-◌, ◌<◌, ◌≤◌, length, IfSome};
ghost use Rattle.range_bits.specs.Ranges.{used_from};

use crate::HugeCache;
use std::alloc::{AllocError, Global};
use std::test::Fail;
use tc_units::Huge;

/// Finds a run of `many`, and takes it out.
fn take(cache: &mut HugeCache, many: u32) -> Option<Huge>
    requires { 0 < many }
    ensures low { IfSome result (λ h. 0 < h.0) }
    ensures inside { IfSome result (λ h. h.0 - 1 + many ≤ length cache.new.taken) }
    ensures out { IfSome result (λ h. many ≤ used_from cache.new.taken (h.0 - 1)) }
{
    let first = cache.find_run(many)?;
    cache.take_out(first, many);
    Some(first)
}

/// Notes how many hugepages are in use.
fn note(cache: &mut HugeCache)
    ensures { cache.new.taken ≡ cache.old.taken }
{
    let in_use = cache.in_use();
    cache.note_use(in_use);
}

/// Takes a run of `many` out and gives it back with its backing. The use is noted behind each.
fn use_run(cache: &mut HugeCache, many: u32)
    requires { 0 < many }
{
    if let Some(first) = cache.find_run(many) {
        cache.take_out(first, many);
        note(cache);
        cache.give_run(first, many);
        note(cache);
    }
}

/// Takes a run of `many` out, and gives its first hugepage back.
fn keep_first(cache: &mut HugeCache, many: u32, backed: bool) -> Option<Huge>
    requires { 0 < many }
{
    let first = take(cache, many)?;
    cache.give(first, backed);
    Some(first)
}

/// Takes the backing of the last hugepage that has one.
fn unback(cache: &mut HugeCache) -> Option<Huge> {
    let last = cache.last_stretch(1)?;
    cache.unback(last.first, last.many);
    Some(last.first)
}

/// The last backed hugepages, at most so many: the first of them, and how many they are.
fn stretch(cache: &HugeCache, most: u64) -> Option<(Huge, u32)>
    requires { 0 < most }
{
    let last = cache.last_stretch(most)?;
    Some((last.first, last.many))
}

/// Takes the backing of those above the limit, and answers how many they were.
fn trim(cache: &mut HugeCache) -> u32 {
    let over = cache.over();
    for _turn in 0..over {
        let _last = unback(cache);
    }
    over
}

/// All hugepages free and backed.
fn all_backed(alloc: Global, huge: u32, limit: u32, window: u32) -> Result<HugeCache, AllocError>
    requires some { 0 < huge }
    requires huge { huge ≤ 4096 }
    requires limit { limit ≤ 4096 }
    requires window { window ≤ 65536 }
{
    let mut cache = HugeCache::open(alloc, huge, limit, window)?;
    if let Some(first) = cache.find_run(huge) {
        cache.take_out(first, huge);
        cache.give_run(first, huge);
    }
    Ok(cache)
}

#[test]
fn backed_runs_come_first(rt: HostRuntime) -> Result<(), Fail> {
    let mut cache = HugeCache::open(rt.alloc(), 6, 4096, 0)?;
    assert_eq!(rt; cache.find_run(6), Some(Huge(1)));
    // 1 is free and backed, 2 and 3 are out; 4 to 6 are free.
    assert_eq!(rt; keep_first(&mut cache, 3, true), Some(Huge(1)));
    assert_eq!(rt; cache.find_run(1), Some(Huge(1)));
    assert_eq!(rt; cache.find_run(3), Some(Huge(4)));
    assert_eq!(rt; cache.find_run(4), None);
    // 4 and 5 are backed then, too: the shorter run serves.
    use_run(&mut cache, 2);
    assert_eq!(rt; cache.find_run(1), Some(Huge(1)));
    assert_eq!(rt; cache.find_run(2), Some(Huge(4)));
    assert_eq!(rt; cache.find_run(3), Some(Huge(4)));
    // The run that 1 is of is shorter, and not backed any more.
    assert_eq!(rt; keep_first(&mut cache, 1, false), Some(Huge(1)));
    assert_eq!(rt; cache.find_run(1), Some(Huge(4)));
    assert_eq!(rt; cache.in_use(), 2);
    assert_eq!(rt; cache.backed(), 2);
    Ok(())
}

#[test]
fn arenas_of_whole_words_and_more(rt: HostRuntime) -> Result<(), Fail> {
    for huge in [1, 63, 64, 65, 4096] {
        let mut cache = all_backed(rt.alloc(), huge, 0, 0)?;
        assert_eq!(rt; cache.find_run(huge + 1), None, "of {huge}");
        assert_eq!(rt; cache.backed(), huge);
        assert_eq!(rt; unback(&mut cache), Some(Huge(huge as u16)), "of {huge}");
        assert_eq!(rt; trim(&mut cache), huge.saturating_sub(1), "of {huge}");
        assert_eq!(rt; unback(&mut cache), None, "of {huge}");
        assert_eq!(rt; take(&mut cache, huge.max(1)), Some(Huge(1)), "of {huge}");
        assert_eq!(rt; take(&mut cache, 1), None, "of {huge}");
    }
    Ok(())
}

#[test]
fn no_hugepages(rt: HostRuntime) -> Result<(), Fail> {
    let mut cache = HugeCache::open(rt.alloc(), 0, 0, 0)?;
    assert_eq!(rt; take(&mut cache, 1), None);
    assert_eq!(rt; cache.over(), 0);
    assert_eq!(rt; cache.last_stretch(1), None);
    Ok(())
}

#[test]
fn the_last_stretch_ends_at_what_is_not_backed(rt: HostRuntime) -> Result<(), Fail> {
    let mut cache = all_backed(rt.alloc(), 8, 0, 0)?;
    // 1 to 4 are out, and 8 is unbacked: 5 to 7 are the last ones.
    let four = take(&mut cache, 4);
    assert_eq!(rt; unback(&mut cache), Some(Huge(8)));
    assert_eq!(rt; stretch(&cache, 100), Some((Huge(5), 3)));
    assert_eq!(rt; stretch(&cache, 3), Some((Huge(5), 3)));
    // Fewer are wanted: the last of them.
    assert_eq!(rt; stretch(&cache, 2), Some((Huge(6), 2)));
    if let Some(last) = cache.last_stretch(2) {
        cache.unback(last.first, last.many);
    }
    assert_eq!(rt; stretch(&cache, 2), Some((Huge(5), 1)));
    assert_eq!(rt; four, Some(Huge(1)));
    assert_eq!(rt; cache.backed(), 1);
    assert_eq!(rt; cache.in_use(), 4);
    assert_eq!(rt; unback(&mut cache), Some(Huge(5)));
    assert_eq!(rt; stretch(&cache, 1), None);
    Ok(())
}

#[test]
fn the_limit_follows_the_counts(rt: HostRuntime) -> Result<(), Fail> {
    // With a window of 2, the limit is what the greater count is above the newer one, at most 3.
    let mut cache = all_backed(rt.alloc(), 8, 3, 2)?;
    // No count yet: 3 stay, those of the least numbers.
    assert_eq!(rt; trim(&mut cache), 5);
    assert_eq!(rt; stretch(&cache, 8), Some((Huge(1), 3)));
    // Counts 5 and 0.
    use_run(&mut cache, 5);
    assert_eq!(rt; trim(&mut cache), 2);
    // 0 and 0.
    note(&mut cache);
    assert_eq!(rt; trim(&mut cache), 3);
    // 2 and 0, and then 2 and 2.
    use_run(&mut cache, 2);
    assert_eq!(rt; trim(&mut cache), 0);
    let _pair = take(&mut cache, 2);
    note(&mut cache);
    note(&mut cache);
    use_run(&mut cache, 1);
    assert_eq!(rt; cache.over(), 0);
    note(&mut cache);
    assert_eq!(rt; cache.over(), 1);
    Ok(())
}

#[test]
fn a_window_of_one_count_or_none(rt: HostRuntime) -> Result<(), Fail> {
    // The newest of one count is the greatest.
    let mut one = all_backed(rt.alloc(), 8, 2, 1)?;
    use_run(&mut one, 8);
    assert_eq!(rt; one.over(), 8);
    // Without a window no count stays.
    let mut none = all_backed(rt.alloc(), 8, 2, 0)?;
    use_run(&mut none, 8);
    assert_eq!(rt; none.over(), 6);
    Ok(())
}
