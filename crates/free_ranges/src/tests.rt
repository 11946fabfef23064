//! Rows whose free ranges were worked out by hand, and by a look at all places.
ghost use Rattle.std.specs.Prelude.{◌≡◌, length};

use crate::RangedBits;
use range_bits::WideBits;
use std::test::Fail;

/// Makes a place used or free, of a row with listed ranges.
fn put(bits: &mut RangedBits, place: u32, used: bool)
    ensures { length bits.new ≡ length bits.old }
{
    if place >= bits.places() || bits.is_used(place) == used {
        return;
    }
    if used {
        bits.mark(place, 1);
    } else {
        bits.unmark(place, 1);
    }
}

/// The same of a row without.
fn put_plain(bits: &mut WideBits, place: u32, used: bool)
    ensures { length bits.new ≡ length bits.old }
{
    if place >= bits.places() || bits.is_used(place) == used {
        return;
    }
    bits.put(place, 1, used);
}

/// Makes places used or free, one after another.
fn put_all(bits: &mut RangedBits, from: u32, to: u32, used: bool) {
    for place in from..to {
        put(bits, place, used);
    }
}

#[test]
fn ranges_part_and_join(rt: HostRuntime) -> Result<(), Fail> {
    let mut bits = RangedBits::open(rt.alloc(), 8, 4)?;
    assert_eq!(rt; bits.places(), 512);
    assert_eq!(rt; bits.best(512), Some(0));
    put_all(&mut bits, 100, 400, true);
    // Free are 0 to 99 and 400 to 511: 100 and 112 places.
    assert_eq!(rt; bits.best(100), Some(0));
    assert_eq!(rt; bits.best(101), Some(400));
    assert_eq!(rt; bits.best(113), None);
    assert_eq!(rt; bits.longest(), 112);
    put_all(&mut bits, 200, 300, false);
    // And 200 to 299: 100 places too, behind the first ones.
    assert_eq!(rt; bits.best(100), Some(0));
    assert_eq!(rt; bits.longest(), 112);
    assert!(rt; !bits.is_free());
    put_all(&mut bits, 100, 200, false);
    // 0 to 299 are one range now.
    assert_eq!(rt; bits.longest(), 300);
    assert_eq!(rt; bits.best(101), Some(400));
    put_all(&mut bits, 300, 400, false);
    assert_eq!(rt; bits.longest(), 512);
    assert!(rt; bits.is_free());
    Ok(())
}

/// Makes three places used, whatever they were, of both rows.
fn put_three(bits: &mut RangedBits, plain: &mut WideBits, place: u32)
    ensures bits { length bits.new ≡ length bits.old }
    ensures plain { length plain.new ≡ length plain.old }
{
    let places = bits.places().min(plain.places());
    if place >= places || places - place < 3 {
        return;
    }
    bits.fill(place, 3);
    plain.put(place, 3, true);
}

/// Where the last free place ends; 0 where there is none.
fn last_end(bits: &RangedBits) -> u32 {
    if bits.places() == 0 {
        return 0;
    }
    match bits.last_range(bits.places() - 1) {
        Some(range) => range.start + range.len,
        None => 0,
    }
}

/// Whether both rows have the same tightest ranges for some lengths, and the same longest and last one.
fn agree(bits: &RangedBits, plain: &WideBits) -> bool {
    for n in [1, 2, 3, 5, 8, 13, 21, 64, 65, 128] {
        if bits.best(n) != plain.best(n) {
            return false;
        }
    }
    bits.longest() == plain.longest() && last_end(bits) == plain.free_end(plain.places())
}

/// Changes places that look random, and compares the rows each time.
fn agree_over(bits: &mut RangedBits, plain: &mut WideBits, count: u32) -> bool {
    let mut seed = 1u32;
    for _ in 0..count {
        seed = seed % 65_536 * 31 + 17;
        let used = seed % 3 > 0;
        put(bits, seed / 8 % 192, used);
        put_plain(plain, seed / 8 % 192, used);
        if seed % 13 == 0 {
            put_three(bits, plain, seed / 64 % 192);
        }
        if !agree(bits, plain) {
            return false;
        }
    }
    true
}

#[test]
fn as_by_a_look_at_all_places(rt: HostRuntime) -> Result<(), Fail> {
    // A row of 192 places has at most 96 ranges.
    let mut bits = RangedBits::open(rt.alloc(), 3, 96)?;
    let mut plain = WideBits::open(rt.alloc(), 3)?;
    assert!(rt; agree_over(&mut bits, &mut plain, 400));
    // With room for fewer, they are searched among the places.
    let mut few = RangedBits::open(rt.alloc(), 3, 2)?;
    let mut other = WideBits::open(rt.alloc(), 3)?;
    assert!(rt; agree_over(&mut few, &mut other, 400));
    Ok(())
}

#[test]
fn rows_without_places_and_without_room(rt: HostRuntime) -> Result<(), Fail> {
    let none = RangedBits::open(rt.alloc(), 0, 0)?;
    assert_eq!(rt; none.longest(), 0);
    assert!(rt; none.is_free());
    assert_eq!(rt; none.best(1), None);
    let mut bits = RangedBits::open(rt.alloc(), 1, 0)?;
    assert_eq!(rt; bits.best(64), Some(0));
    put_all(&mut bits, 10, 30, true);
    assert_eq!(rt; bits.best(11), Some(30));
    assert!(rt; RangedBits::open(rt.alloc(), 1, 65_537).is_err());
    Ok(())
}
