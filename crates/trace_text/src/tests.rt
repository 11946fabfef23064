//! Texts that were cut by hand.
use crate::{Lines, number};
use std::alloc::{AllocError, Global};
use std::test::Fail;

/// The fields of a line that are left, each as its line, where it begins, and its bytes in brackets.
fn told(alloc: Global, line: &mut crate::Fields) -> Result<Vec<u8>, AllocError> {
    let mut told = Vec::new(alloc);
    for _ in 0..9 {
        let Some(field) = line.next() else {
            break;
        };
        let number = line.line();
        let start = field.start;
        told.extend_from_slice(format!(in alloc; "{number}@{start}[")?.as_bytes())?;
        told.extend_from_slice(field.bytes)?;
        told.push(b']')?;
    }
    Ok(told)
}

/// The same of all lines of a text.
fn cut(alloc: Global, text: &[u8]) -> Result<Vec<u8>, AllocError> {
    let mut lines = Lines::new(text);
    let mut all = Vec::new(alloc);
    for _count in 0..9u32 {
        let Some(mut line) = lines.next() else {
            break;
        };
        all.extend_from_slice(told(alloc, &mut line)?.as_slice())?;
    }
    Ok(all)
}

#[test]
fn cuts(rt: HostRuntime) -> Result<(), Fail> {
    for (text, cuts) in [
        (b"".as_slice(), b"".as_slice()),
        (b"\n".as_slice(), b"1@0[]".as_slice()),
        (b"\r".as_slice(), b"1@0[]".as_slice()),
        (b"f 0".as_slice(), b"1@0[f]1@2[0]".as_slice()),
        (b"a 0\n\r".as_slice(), b"1@0[a]1@2[0]2@4[]".as_slice()),
        (
            b"f 0\r\nf\r\r\n".as_slice(),
            b"1@0[f]1@2[0]2@5[f\r]".as_slice(),
        ),
        (b"f\rg\r".as_slice(), b"1@0[f\rg]".as_slice()),
        (
            b"a  b \n\nc".as_slice(),
            b"1@0[a]1@2[]1@3[b]1@5[]2@6[]3@7[c]".as_slice(),
        ),
        (
            b"a first line\na_line_of_more_than_one_block_of_bytes\n".as_slice(),
            b"1@0[a]1@2[first]1@8[line]2@13[a_line_of_more_than_one_block_of_bytes]".as_slice(),
        ),
    ] {
        assert_eq!(rt; cut(rt.alloc(), text)?.as_slice(), cuts, "at {text:?}");
    }
    Ok(())
}

#[test]
fn numbers_that_are_cut(rt: HostRuntime) {
    for (text, first, second) in [
        (b"70 99".as_slice(), Some(70), Some(99)),
        (b"0 ".as_slice(), Some(0), None),
        (b"100 7".as_slice(), None, None),
        (b"07".as_slice(), None, None),
        (b"7x".as_slice(), None, None),
        (b"7 8\n9".as_slice(), Some(7), Some(8)),
        (b"12 34\n56 78".as_slice(), Some(12), Some(34)),
        (b"12 34\r\n56".as_slice(), Some(12), Some(34)),
        (b"012 34567".as_slice(), None, None),
        (b"12x 34567".as_slice(), None, None),
        (b"100 34567".as_slice(), None, None),
        (b"12345678 9".as_slice(), None, None),
        (b" 12 34567".as_slice(), None, None),
        (b"12 \n345678".as_slice(), Some(12), None),
    ] {
        if let Some(mut line) = Lines::new(text).next() {
            let mut again = line.again();
            assert_eq!(rt; line.number(99), first, "at {text:?}");
            assert_eq!(rt; again.short_number(99), first, "at {text:?}");
            if first.is_some() {
                assert_eq!(rt; line.number(99), second, "at {text:?}");
                assert_eq!(rt; again.short_number(99), second, "at {text:?}");
                assert_eq!(rt; line.is_empty(), second.is_some(), "at {text:?}");
            }
        }
    }
}

#[test]
fn numbers_under_this_name(rt: HostRuntime) {
    assert_eq!(rt; number(b"65535", 65535), Some(65535));
    assert_eq!(rt; number(b"65536", 65535), None);
}
