//! Free ranges of rows that were worked out by hand, and by looking at every place.
ghost use Rattle.std.specs.Prelude.{◌*◌, ◌^◌, ◌<◌, length};

use crate::{WideBits, ranges};
use std::test::Fail;

/// Puts places that are in the row into a state.
fn put(bits: &mut WideBits, start: u16, n: u16, used: bool) {
    let (start, n) = (u32::from(start), u32::from(n));
    if start + n <= bits.places() {
        bits.put(start, n, used);
    }
}

/// How many places are used.
fn used(bits: &WideBits) -> u32 {
    bits.used_in(0, bits.places())
}

#[test]
fn the_shortest_range_that_is_long_enough(rt: HostRuntime) -> Result<(), Fail> {
    let mut bits = WideBits::open(rt.alloc(), 4)?;
    assert_eq!(rt; bits.best(256), Some(0));
    assert_eq!(rt; bits.longest(), 256);
    put(&mut bits, 0, 1, true);
    put(&mut bits, 63, 2, true);
    put(&mut bits, 128, 64, true);
    put(&mut bits, 255, 1, true);
    // Free are 1 to 62, 65 to 127 and 192 to 254: 62, 63 and 63 places.
    assert_eq!(rt; used(&bits), 68);
    assert_eq!(rt; bits.longest(), 63);
    assert_eq!(rt; bits.best(1), Some(1));
    assert_eq!(rt; bits.best(62), Some(1));
    assert_eq!(rt; bits.best(63), Some(65));
    assert_eq!(rt; bits.best(64), None);
    put(&mut bits, 64, 1, false);
    // 64 to 127 are 64 places now.
    assert_eq!(rt; bits.best(63), Some(192));
    assert_eq!(rt; bits.best(64), Some(64));
    put(&mut bits, 128, 64, false);
    assert_eq!(rt; bits.best(64), Some(64));
    assert_eq!(rt; bits.longest(), 191);
    assert_eq!(rt; used(&bits), 3);
    put(&mut bits, 0, 256, true);
    assert_eq!(rt; bits.longest(), 0);
    assert_eq!(rt; bits.best(1), None);
    put(&mut bits, 255, 1, false);
    assert_eq!(rt; bits.best(1), Some(255));
    Ok(())
}

#[test]
fn no_words_and_too_many(rt: HostRuntime) -> Result<(), Fail> {
    let none = WideBits::open(rt.alloc(), 0)?;
    assert_eq!(rt; none.longest(), 0);
    assert_eq!(rt; none.best(1), None);
    assert_eq!(rt; used(&none), 0);
    // More places than a number of 32 bits tells.
    assert!(rt; WideBits::open(rt.alloc(), 67_108_864).is_err());
    Ok(())
}

/// Where the best range begins and how long the longest one is, by looking at every place.
fn by_every_place(words: &[u64], n: usize) -> (Option<usize>, usize)
    requires { 64 * length words.now < 2 ^ 32 }
{
    let places = words.len() * 64;
    let mut best = None;
    let mut shortest = usize::MAX;
    let mut longest = 0;
    let mut start = 0;
    for place in 0..places + 1 {
        if place < places && words[place / 64] >> (place % 64) & 1 == 0 {
            continue;
        }
        let len = place.saturating_sub(start);
        if n <= len && len < shortest {
            best = Some(start);
            shortest = len;
        }
        longest = len.max(longest);
        start = place + 1;
    }
    (best, longest)
}

#[test]
fn as_by_every_place(rt: HostRuntime) {
    for words in [
        [0, 0, 0, 0],
        [u64::MAX, u64::MAX, u64::MAX, u64::MAX],
        [u64::MAX, 0, u64::MAX, 0],
        [0, u64::MAX, 0, u64::MAX],
        [1 << 63, 1, 0, 1 << 63],
        [1, 1 << 63, 1, 1 << 63],
        [0x5555_5555_5555_5555, 0xaaaa_aaaa_aaaa_aaaa, 0, 1],
        [
            0x0123_4567_89ab_cdef,
            0xfedc_ba98_7654_3210,
            0x00ff_0000_0000_ff00,
            0x8000_0000_0000_0001,
        ],
    ] {
        for n in [
            1, 2, 3, 4, 7, 8, 16, 32, 62, 63, 64, 65, 127, 128, 192, 255, 256,
        ] {
            let found = ranges::best(&words, n).map(|start| start as usize);
            let (best, longest) = by_every_place(&words, n as usize);
            assert_eq!(rt; found, best, "of {n} in {words:?}");
            assert_eq!(rt; ranges::longest(&words) as usize, longest, "in {words:?}");
        }
    }
}

/// Where the best range of some words of the row begins.
fn best_in(bits: &WideBits, first: u8, words: u8, n: u32) -> Option<u32> {
    if n == 0 || 64 * (u32::from(first) + u32::from(words)) > bits.places() {
        return None;
    }
    bits.best_in(usize::from(first), usize::from(words), n)
}

/// Whether all places of some words of the row are used, or all are free.
fn are_all(bits: &WideBits, first: u8, words: u8, used: bool) -> bool {
    64 * (u32::from(first) + u32::from(words)) <= bits.places()
        && bits.are_all(usize::from(first), usize::from(words), used)
}

#[test]
fn a_part_of_a_row(rt: HostRuntime) -> Result<(), Fail> {
    let mut bits = WideBits::open(rt.alloc(), 4)?;
    // Used are 10 to 199, and then, by words, 10 to 63, none, 128 to 149, and 192 to 199.
    put(&mut bits, 10, 190, true);
    assert_eq!(rt; used(&bits), 190);
    put(&mut bits, 150, 42, false);
    put(&mut bits, 60, 68, false);
    put(&mut bits, 60, 4, true);
    put(&mut bits, 70, 0, true);
    assert_eq!(rt; used(&bits), 84);
    // Words 0 and 2 have free and used places, word 1 has free ones alone.
    assert!(rt; are_all(&bits, 1, 1, false) && !are_all(&bits, 1, 1, true));
    assert!(rt; !are_all(&bits, 1, 2, false) && !are_all(&bits, 0, 1, true));
    // In words 1 and 2, free are places 0 to 63 and 86 to 127, counted from 64 on.
    assert_eq!(rt; best_in(&bits, 1, 2, 1), Some(86));
    assert_eq!(rt; best_in(&bits, 1, 2, 42), Some(86));
    assert_eq!(rt; best_in(&bits, 1, 2, 43), Some(0));
    assert_eq!(rt; best_in(&bits, 1, 2, 65), None);
    assert_eq!(rt; best_in(&bits, 0, 1, 10), Some(0));
    assert_eq!(rt; best_in(&bits, 3, 1, 56), Some(8));
    put(&mut bits, 0, 256, false);
    assert_eq!(rt; bits.longest(), 256);
    put(&mut bits, 0, 256, true);
    assert_eq!(rt; used(&bits), 256);
    assert!(rt; are_all(&bits, 0, 4, true) && !are_all(&bits, 0, 4, false));
    Ok(())
}
