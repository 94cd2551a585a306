ghost use Rattle.std.specs.Prelude.{◌≡◌, ◌∷◌, [], Some, IfOk, true, false};
ghost use Rattle.csv.specs.Records.{fields_of};
ghost use Rattle.csv.specs.Reading.{error_kind, stops_reader};
ghost use Rattle.record_fields.specs.FileRecords.{file_records_of};
ghost use Rattle.record_fields.specs.FileReading.{IsReading, records_left};

use crate::file_record::FileRecord;
use csv::{ByteRecord, Error, ErrorKind, Reader, ReaderBuilder};
use no_memory::NoMemory;
use std::alloc::Global;

/// A reader of the records of a file: byte records without a header row, of any length, with `#`
/// before a comment.
pub fn open_records(alloc: Global, bytes: &[u8]) -> Reader<&[u8]>
    ensures reading { IsReading result }
    ensures left { records_left result ≡ file_records_of bytes.now }
{
    ReaderBuilder::new()
        .has_headers(false)
        .flexible(true)
        .comment(Some(b'#'))
        .from_reader(alloc, bytes)
}

/// Reads the next record, if there is one; an error says that memory was refused.
pub fn next_record(reader: &mut Reader<&[u8]>, row: &mut FileRecord) -> Result<bool, NoMemory>
    requires { IsReading reader.old }
    ensures reading { IfOk result (λ found. found ≡ true → IsReading reader.new) }
    ensures found { IfOk result (λ found. found ≡ true → records_left reader.old ≡ row.new ∷ records_left reader.new) }
    ensures end { IfOk result (λ found. found ≡ false → records_left reader.old ≡ []) }
{
    next_fields(reader, &mut row.fields)
}

/// The same for the fields of a record.
fn next_fields(reader: &mut Reader<&[u8]>, fields: &mut ByteRecord) -> Result<bool, NoMemory>
    requires { IsReading reader.old }
    ensures reading { IfOk result (λ found. found ≡ true → IsReading reader.new) }
    ensures found { IfOk result (λ found. found ≡ true → records_left reader.old ≡ fields_of fields.new ∷ records_left reader.new) }
    ensures end { IfOk result (λ found. found ≡ false → records_left reader.old ≡ []) }
{
    match reader.read_byte_record(fields) {
        Ok(found) => Ok(found),
        Err(error) => Err(out_of_memory(error)),
    }
}

/// Why a reader of such records fails: it is out of memory. Its contract leaves one other cause, an error of what it
/// reads from, and bytes give none.
fn out_of_memory(error: Error) -> NoMemory
    requires { stops_reader (error_kind error) ≡ true }
{
    match error.into_kind() {
        ErrorKind::Io(_) | ErrorKind::OutOfMemory => NoMemory,
        _ => unreachable!(),
    }
}
