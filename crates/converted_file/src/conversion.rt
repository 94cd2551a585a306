ghost use Rattle.std.specs.Prelude.{◌≡◌, ◌≤◌, ◌++◌, IfErr, IfOk, codes, drop, if◌then◌else◌, length};
ghost use Rattle.std.specs.List.{flat_map};
ghost use Rattle.converted_file.specs.Converted.{converted, header_line, record_line};
ghost use Rattle.record_fields.specs.FileReading.{IsReading, records_left};
ghost use Rattle.network_file.specs.Reading.{network_of};
ghost use Rattle.no_memory.specs.Answers.{IsRefusal};
ghost use Rattle.converted_file.specs.SameNetwork.{SaysTheSame};

use csv::Reader;
use network_file::{MOST_BYTES, Net, NetFault};
use no_memory::{NoMemory, Refused};
use record_fields::{FileRecord, next_record, open_records};
use std::alloc::Global;

/// The text of a file of the same network, without comments, blank lines and quotes: in format 3 where the file is, and
/// else in format 2.
pub fn convert(alloc: Global, bytes: &[u8]) -> Result<Vec<u8>, Refused<NetFault>>
    requires { length bytes.now ≤ MOST_BYTES }
    ensures text { IfOk result (λ text. text.items ≡ converted bytes.now) }
    ensures same { IfOk result (λ text. SaysTheSame bytes.now text.items) }
    ensures refusal { IfErr result (λ refusal. IsRefusal refusal (network_of bytes.now)) }
{
    let _network = Net::read(alloc, bytes)?;
    Ok(text_of_records(alloc, bytes)?)
}

/// The header, and then the later records of a file as lines.
fn text_of_records(alloc: Global, bytes: &[u8]) -> Result<Vec<u8>, NoMemory>
    ensures { IfOk result (λ text. text.items ≡ converted bytes.now) }
{
    let mut reader = open_records(alloc, bytes);
    let mut row = FileRecord::new(alloc);
    text_read(alloc, &mut reader, &mut row)
}

/// The header, by the first of the records that a reader has left, and then the others as lines.
fn text_read(
    alloc: Global,
    reader: &mut Reader<&[u8]>,
    row: &mut FileRecord,
) -> Result<Vec<u8>, NoMemory>
    requires { IsReading reader.old }
    ensures { IfOk result (λ text. text.items ≡ header_line (records_left reader.old) ++ flat_map record_line (drop 1 (records_left reader.old))) }
{
    if !next_record(reader, row)? {
        return header(alloc, false);
    }
    let text = header(alloc, row.field(1) == b"3".as_slice())?;
    with_lines(text, reader, row)
}

/// The header of format 3, or that of format 2.
fn header(alloc: Global, third: bool) -> Result<Vec<u8>, NoMemory>
    ensures { IfOk result (λ text. text.items ≡ (if third then codes "ctm,3\n" else codes "ctm,2\n")) }
{
    let mut text = Vec::new(alloc);
    if third {
        text.extend_from_slice(b"ctm,3\n")?;
    } else {
        text.extend_from_slice(b"ctm,2\n")?;
    }
    Ok(text)
}

/// A text with the records that a reader has left as further lines.
fn with_lines(
    text: Vec<u8>,
    reader: &mut Reader<&[u8]>,
    row: &mut FileRecord,
) -> Result<Vec<u8>, NoMemory>
    requires { IsReading reader.old }
    ensures { IfOk result (λ more. more.items ≡ text.items ++ flat_map record_line (records_left reader.old)) }
{
    let mut text = text;
    while next_record(reader, row)? {
        text = with_line(text, row)?;
    }
    Ok(text)
}

/// A text with a record as one more line.
fn with_line(text: Vec<u8>, row: &FileRecord) -> Result<Vec<u8>, NoMemory>
    ensures { IfOk result (λ more. more.items ≡ text.items ++ record_line row.now) }
{
    let mut text = text;
    for i in 0..row.len() {
        if i > 0 {
            text.push(b',')?;
        }
        text.extend_from_slice(row.field(i))?;
    }
    text.push(b'\n')?;
    Ok(text)
}
