//! Tables by hand, and what is wrong with texts that are none.
use crate::{ClassTable, RowWhy, TableFault};
use std::test::Fail;
use tc_units::{Class, ClassRow};

#[test]
fn tables(rt: HostRuntime) -> Result<(), Fail> {
    let alloc = rt.alloc();
    let table = ClassTable::read(alloc, b"16,1,4\n64,1,2\n8192,1,2\n")?;
    assert_eq!(rt; table.len(), 3);
    let row = ClassRow {
        size: 64,
        pages: 1,
        batch: 2,
    };
    assert_eq!(rt; table.row(Class(1)), row);
    assert_eq!(rt; table.rows().len(), 3);
    for (size, class) in [
        (0, Some(0)),
        (15, Some(0)),
        (16, Some(0)),
        (17, Some(1)),
        (63, Some(1)),
        (64, Some(1)),
        (65, Some(2)),
        (8191, Some(2)),
        (8192, Some(2)),
        (8193, None),
    ] {
        assert_eq!(rt;
            table.class_of(size).map(|class| class.0),
            class,
            "at {size}"
        );
    }

    // Quotes, line ends of two bytes, an empty line and a mark at the start change nothing.
    for (text, len) in [
        (b"\"16\",1,4\n".as_slice(), 1),
        (b"16,1,4\r\n64,1,2\r\n".as_slice(), 2),
        (b"16,1,4\n\n64,1,2".as_slice(), 2),
        (b"\xEF\xBB\xBF16,1,4".as_slice(), 1),
    ] {
        assert_eq!(rt; ClassTable::read(alloc, text)?.len(), len);
    }
    Ok(())
}

#[test]
fn faults(rt: HostRuntime) -> Result<(), Fail> {
    for (text, row, why) in [
        (b"16,1".as_slice(), 1, RowWhy::Fields),
        (b"16,1,4,5".as_slice(), 1, RowWhy::Fields),
        (b"16,1,4\n64,1".as_slice(), 2, RowWhy::Fields),
        (b"16,01,4".as_slice(), 1, RowWhy::Number),
        (b"16, 1,4".as_slice(), 1, RowWhy::Number),
        (b"16,1,1000001".as_slice(), 1, RowWhy::Number),
        (b"16,1,4\n12,1,4".as_slice(), 2, RowWhy::Size),
        (b"262152,255,4".as_slice(), 1, RowWhy::Size),
        (b"16,1,4\n16,1,4".as_slice(), 2, RowWhy::Rise),
        (b"16,0,4".as_slice(), 1, RowWhy::Pages),
        (b"16,256,4".as_slice(), 1, RowWhy::Pages),
        (b"262144,1,2".as_slice(), 1, RowWhy::Fit),
        (b"16,1,129".as_slice(), 1, RowWhy::Batch),
        (b"16,1,0".as_slice(), 1, RowWhy::Batch),
        (b"".as_slice(), 1, RowWhy::Empty),
    ] {
        let fault = ClassTable::read(rt.alloc(), text).map(|table| table.len());
        assert_eq!(rt; fault, Err(TableFault::BadRow { row, why }));
    }
    Ok(())
}

#[test]
fn many_records(rt: HostRuntime) -> Result<(), Fail> {
    let alloc = rt.alloc();
    let mut text = String::new(alloc);
    for n in 1u32..121 {
        writeln!(text, "{},1,1", n * 8)?;
    }
    assert_eq!(rt; ClassTable::read(alloc, text.as_bytes())?.len(), 120);
    text.push_str("x")?;
    let read = ClassTable::read(alloc, text.as_bytes()).map(|table| table.len());
    let why = RowWhy::Rows;
    assert_eq!(rt; read, Err(TableFault::BadRow { row: 121, why }));
    Ok(())
}
