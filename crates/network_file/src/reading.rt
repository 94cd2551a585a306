ghost use Rattle.std.specs.Prelude.{◌≡◌, ◌≤◌, Ok, IfErr, IfOk, length};
ghost use Rattle.no_memory.specs.Answers.{Answers, IsRefusal};
ghost use Rattle.record_fields.specs.FileRecords.{file_records_of};
ghost use Rattle.record_fields.specs.FileReading.{IsReading, records_left};
ghost use Rattle.network_file.specs.Reading.{cutting_of_draft, network_in_all, network_of, read_records};

use crate::cutting::has_no_gap;
use crate::draft::NetDraft;
use crate::fault::{NetFault, refusal_at};
use crate::format::format_of;
use crate::limits::MOST_BYTES;
use crate::net::Net;
use crate::records::take_record;
use csv::Reader;
use fixed_flow::MOST_PARTS;
use no_memory::Refused;
use record_fields::{Code, FileRecord, next_record, open_records};
use std::alloc::Global;

/// Reads a file: its header, and then the later records one after the other.
pub(crate) fn read_file(alloc: Global, bytes: &[u8]) -> Result<Net, Refused<NetFault>>
    requires { length bytes.now ≤ MOST_BYTES }
    ensures network { IfOk result (λ net. network_of bytes.now ≡ Ok net) }
    ensures refusal { IfErr result (λ refusal. IsRefusal refusal (network_of bytes.now)) }
{
    let mut records = open_records(alloc, bytes);
    let mut row = FileRecord::new(alloc);
    read_all(alloc, bytes, &mut records, &mut row)
}

/// The network of a file of which all records are left to read.
fn read_all(
    alloc: Global,
    bytes: &[u8],
    records: &mut Reader<&[u8]>,
    row: &mut FileRecord,
) -> Result<Net, Refused<NetFault>>
    requires few { length bytes.now ≤ MOST_BYTES }
    requires reading { IsReading records.old }
    requires left { records_left records.old ≡ file_records_of bytes.now }
    ensures network { IfOk result (λ net. network_of bytes.now ≡ Ok net) }
    ensures refusal { IfErr result (λ refusal. IsRefusal refusal (network_of bytes.now)) }
{
    if !next_record(records, row)? {
        return Err(Refused::Fault(NetFault {
            place: 1,
            code: Code::NoHeader,
        }));
    }
    let Some(format) = format_of(row) else {
        return Err(Refused::Fault(NetFault {
            place: 1,
            code: Code::NoHeader,
        }));
    };
    let draft = NetDraft::of_file(alloc, bytes, format)?;
    read_later(alloc, bytes, draft, records, row)
}

/// Takes the records behind the header into a draft without records, one after the other.
fn read_later(
    alloc: Global,
    bytes: &[u8],
    draft: NetDraft,
    records: &mut Reader<&[u8]>,
    row: &mut FileRecord,
) -> Result<Net, Refused<NetFault>>
    requires reading { IsReading records.old }
    requires few { length (records_left records.old) ≤ MOST_BYTES }
    ensures network { IfOk result (λ net. read_records 2 draft (records_left records.old) ≡ Ok net) }
    ensures refusal { IfErr result (λ refusal. IsRefusal refusal (read_records 2 draft (records_left records.old))) }
{
    let mut draft = draft;
    let mut place = 2;
    while next_record(records, row)? {
        draft = match take_record(bytes, draft, row) {
            Ok(more) => more,
            Err(refusal) => return Err(refusal_at(place, refusal)),
        };
        place += 1;
    }
    match complete(alloc, draft) {
        Ok(net) => Ok(net),
        Err(refusal) => Err(refusal_at(place, refusal)),
    }
}

/// The network of a draft with all records taken, where it has steps and cells and is not too much.
#[tactic(auto, unfolding(crate::specs::Reading::network_in_all))]
fn complete(alloc: Global, draft: NetDraft) -> Result<Net, Refused<Code>>
    ensures { Answers result (network_in_all draft) }
{
    let Some(steps) = draft.steps else {
        return Err(Refused::Fault(Code::NoSteps));
    };
    if draft.cells.len() == 0 {
        return Err(Refused::Fault(Code::NoCells));
    }
    if draft.cells.first_total() + draft.plan.total(steps) > u128::from(MOST_PARTS) {
        return Err(Refused::Fault(Code::TooMuch));
    }
    let regions = cutting(alloc, &draft)?;
    let NetDraft {
        format,
        cells,
        connectors,
        plan,
        ..
    } = draft;
    Ok(Net {
        format,
        steps,
        cells: cells.into_cells(),
        connectors: connectors.into_connectors(),
        plan: Box::into_inner(plan),
        regions,
    })
}

/// The cutting that the region records of a draft make; without any there is none.
#[tactic(auto, unfolding(crate::specs::Reading::cutting_of_draft))]
fn cutting(alloc: Global, draft: &NetDraft) -> Result<Vec<u32>, Refused<Code>>
    ensures value { IfOk result (λ regions. cutting_of_draft draft.now ≡ Ok regions.items) }
    ensures refusal { IfErr result (λ refusal. IsRefusal refusal (cutting_of_draft draft.now)) }
{
    if draft.regions.is_empty() {
        return Ok(Vec::new(alloc));
    }
    let Some(numbers) = draft.regions.numbers(alloc, draft.cells.len() as u32)? else {
        return Err(Refused::Fault(Code::NoRegion));
    };
    if has_no_gap(alloc, &numbers)? {
        Ok(numbers)
    } else {
        Err(Refused::Fault(Code::RegionGap))
    }
}
