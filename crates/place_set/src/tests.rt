//! Sets worked by hand, at the ends of words, of levels and of the set.
use crate::PlaceSet;
use std::test::Fail;

/// Puts places into a set, or takes them out.
fn put(set: &mut PlaceSet, places: &[usize], is_in: bool) {
    for place in places {
        if *place < set.places() {
            if is_in {
                set.insert(*place);
            } else {
                set.remove(*place);
            }
        }
    }
}

/// The last place at or before a place of the set, and the first one at or behind it.
fn around(set: &PlaceSet, place: usize) -> (Option<usize>, Option<usize>) {
    if place < set.places() {
        (set.last_at_or_before(place), set.first_at_or_after(place))
    } else {
        (None, None)
    }
}

#[test]
fn neighbours_in_one_word(rt: HostRuntime) -> Result<(), Fail> {
    let mut set = PlaceSet::open(rt.alloc(), 1)?;
    assert_eq!(rt; set.places(), 64);
    assert_eq!(rt; around(&set, 63), (None, None));
    put(&mut set, &[5, 63, 0], true);
    let cases = [
        (0, Some(0), Some(0)),
        (1, Some(0), Some(5)),
        (5, Some(5), Some(5)),
        (6, Some(5), Some(63)),
        (62, Some(5), Some(63)),
        (63, Some(63), Some(63)),
    ];
    for (place, last, first) in cases {
        assert_eq!(rt; around(&set, place), (last, first));
    }
    put(&mut set, &[0, 63], false);
    assert_eq!(rt; around(&set, 4), (None, Some(5)));
    assert_eq!(rt; around(&set, 6), (Some(5), None));
    Ok(())
}

#[test]
fn neighbours_across_four_levels(rt: HostRuntime) -> Result<(), Fail> {
    // Levels of 16,388, 257, 5 and 1 words.
    let mut set = PlaceSet::open(rt.alloc(), 16_388)?;
    let end = 1_048_831;
    assert_eq!(rt; around(&set, 70_000), (None, None));
    // 262,144 is 64 ^ 3: the first place of a word of the second highest level.
    put(&mut set, &[0, end, 262_144], true);
    let cases = [
        (1, Some(0), Some(262_144)),
        (4096, Some(0), Some(262_144)),
        (262_143, Some(0), Some(262_144)),
        (262_144, Some(262_144), Some(262_144)),
        (262_145, Some(262_144), Some(end)),
        (end - 1, Some(262_144), Some(end)),
        (end, Some(end), Some(end)),
    ];
    for (place, last, first) in cases {
        assert_eq!(rt; around(&set, place), (last, first));
    }
    put(&mut set, &[end], false);
    assert_eq!(rt; around(&set, end), (Some(262_144), None));
    put(&mut set, &[262_144, 0], false);
    assert_eq!(rt; around(&set, end), (None, None));
    Ok(())
}

#[test]
fn a_word_keeps_its_other_places(rt: HostRuntime) -> Result<(), Fail> {
    // Two places of one word, and one in the last word of 65.
    let mut set = PlaceSet::open(rt.alloc(), 65)?;
    put(&mut set, &[70, 71, 4159], true);
    put(&mut set, &[70], false);
    assert_eq!(rt; around(&set, 4158), (Some(71), Some(4159)));
    assert_eq!(rt; around(&set, 0), (None, Some(71)));
    put(&mut set, &[71], false);
    assert_eq!(rt; around(&set, 0), (None, Some(4159)));
    assert_eq!(rt; around(&set, 4158), (None, Some(4159)));
    Ok(())
}
