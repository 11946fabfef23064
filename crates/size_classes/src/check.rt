//! The rules of a record.
ghost use Rattle.std.specs.Prelude.{◌≡◌, ◌<◌, ◌≤◌, length, Some, IfOk};
ghost use Rattle.csv.specs.Records.{fields_of, field_at};
ghost use Rattle.size_classes.specs.Rows.{IsRow};
ghost use Rattle.size_classes.specs.Table.{check_record, check_numbers};

use crate::fault::RowWhy;
use csv::ByteRecord;
use tc_units::{ClassRow, PAGE_BYTES, number};

/// The most rows of a table.
const MOST_ROWS: u32 = 120;

/// The greatest number of a field.
const MOST_NUMBER: u64 = 1_000_000;

/// The row of a record by its number, after a row of a size, or the first rule that it breaks.
pub(crate) fn check_row(row: u32, above: u32, input: &ByteRecord) -> Result<ClassRow, RowWhy>
    ensures checked { result ≡ check_record row above (fields_of input.now) }
    ensures rules { IfOk result (λ class. IsRow class) }
    ensures rises { IfOk result (λ class. above < class.size) }
    ensures few { IfOk result (λ _. row ≤ 120) }
{
    if row > MOST_ROWS {
        return Err(RowWhy::Rows);
    }
    if input.len() != 3 {
        return Err(RowWhy::Fields);
    }
    let size = number(field(input, 0), MOST_NUMBER);
    let pages = number(field(input, 1), MOST_NUMBER);
    let batch = number(field(input, 2), MOST_NUMBER);
    match (size, pages, batch) {
        (Some(size), Some(pages), Some(batch)) => check_values(above, size, pages, batch),
        _ => Err(RowWhy::Number),
    }
}

// A field that the record has.
fn field(input: &ByteRecord, index: usize) -> &[u8]
    requires { index < length (fields_of input.now) }
    ensures { field_at (fields_of input.now) index ≡ Some result.now }
{
    input.get(index).unwrap()
}

// The rules on the numbers of a record.
fn check_values(above: u32, size: u64, pages: u64, batch: u64) -> Result<ClassRow, RowWhy>
    ensures checked { result ≡ check_numbers above size pages batch }
    ensures rules { IfOk result (λ row. IsRow row) }
    ensures rises { IfOk result (λ row. above < row.size) }
{
    if size < 8 || size > 262_144 || size % 8 != 0 {
        return Err(RowWhy::Size);
    }
    if size <= u64::from(above) {
        return Err(RowWhy::Rise);
    }
    if pages < 1 || pages > 255 {
        return Err(RowWhy::Pages);
    }
    if size > pages * PAGE_BYTES {
        return Err(RowWhy::Fit);
    }
    if batch < 1 || batch > 128 {
        return Err(RowWhy::Batch);
    }
    Ok(ClassRow {
        size: size as u32,
        pages: pages as u8,
        batch: batch as u8,
    })
}
