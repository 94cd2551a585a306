ghost use Rattle.std.specs.Prelude.{◌≡◌, ◌≤◌, IfSome};
ghost use Rattle.network_file.specs.Formats.{format_of, most_records};
ghost use Rattle.network_file.specs.Sound.{IsFormat};

use crate::limits::MOST_RECORDS_OF_FORMAT_1;
use record_fields::FileRecord;
use step_plan::MOST_RECORDS;

/// The format that a header names.
#[tactic(auto, unfolding(crate::specs::Formats::format_of))]
pub(crate) fn format_of(header: &FileRecord) -> Option<u32>
    ensures value { result ≡ format_of header.now }
    ensures known { IfSome result IsFormat }
{
    if header.len() != 2 || header.field(0) != b"ctm".as_slice() {
        return None;
    }
    match header.field(1) {
        b"1" => Some(1),
        b"2" => Some(2),
        b"3" => Some(3),
        _ => None,
    }
}

/// The most cells, the most connectors, and the most limit, demand, turn and speed records of a file of this format.
pub(crate) fn most_records(format: u32) -> usize
    ensures value { result ≡ most_records format }
    ensures bound { result ≤ MOST_RECORDS }
{
    if format == 1 {
        MOST_RECORDS_OF_FORMAT_1
    } else {
        MOST_RECORDS
    }
}
