//! Reading a class table from a text.
ghost use Rattle.std.specs.Prelude.{◌≡◌, true, Ok, IfOk, IfErr};
ghost use Rattle.csv.specs.Reading.{error_kind, stops_reader};
ghost use Rattle.size_classes.specs.declared.fault.TableFault.TheVariants.{Memory};
ghost use Rattle.size_classes.specs.Table.{table_of, IsFaultOf};

use crate::check::check_row;
use crate::fault::{RowWhy, TableFault};
use crate::table::ClassTable;
use csv::{ByteRecord, Error, ErrorKind, ReaderBuilder};
use std::alloc::Global;

impl ClassTable {
    /// Reads a text of records of a size, pages a span and a batch. It reads no further than the
    /// first bad record. `Memory` is also the answer to an error of the reader underneath, of which
    /// a slice has none.
    pub fn read(alloc: Global, bytes: &[u8]) -> Result<ClassTable, TableFault>
        ensures table { IfOk result (λ table. table_of bytes.now ≡ Ok table) }
        ensures fault { IfErr result (λ fault. IsFaultOf (table_of bytes.now) fault) }
    {
        let mut reader = ReaderBuilder::new()
            .has_headers(false)
            .flexible(true)
            .from_reader(alloc, bytes);
        let mut record = ByteRecord::new(alloc);
        let mut rows = Vec::new(alloc);
        let mut above = 0;
        'records: loop {
            match reader.read_byte_record(&mut record) {
                Ok(true) => {}
                Ok(false) => break,
                Err(error) => return Err(fault_of(&error)),
            }
            let row = rows.len() as u32 + 1;
            match check_row(row, above, &record) {
                Ok(class) => {
                    above = class.size;
                    if rows.push(class).is_err() {
                        return Err(TableFault::Memory);
                    }
                }
                Err(why) => return Err(TableFault::BadRow { row, why }),
            }
        }
        if rows.is_empty() {
            return Err(TableFault::BadRow {
                row: 1,
                why: RowWhy::Empty,
            });
        }
        match ClassTable::new(alloc, rows) {
            Ok(table) => Ok(table),
            Err(_) => Err(TableFault::Memory),
        }
    }
}

// The fault of a reader that an error stopped: no other error comes where records may be of any
// length and their bytes need be no text.
fn fault_of(error: &Error) -> TableFault
    requires stops { stops_reader (error_kind error.now) ≡ true }
    ensures { result ≡ Memory }
{
    match error.kind() {
        ErrorKind::OutOfMemory | ErrorKind::Io(_) => TableFault::Memory,
        ErrorKind::UnequalLengths { .. }
        | ErrorKind::Utf8 { .. }
        | ErrorKind::Serialize(_)
        | ErrorKind::Deserialize { .. } => unreachable!(),
    }
}
