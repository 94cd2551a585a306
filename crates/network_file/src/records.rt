ghost use Rattle.std.specs.Prelude.{◌≡◌, ◌<◌, ◌≤◌, IfOk, Some, length};
ghost use Rattle.step_plan.specs.Counts.{counts_of};
ghost use Rattle.no_memory.specs.Answers.{Answers, AnswersBy};
ghost use Rattle.record_fields.specs.Fields.{field};
ghost use Rattle.record_fields.specs.RecordKinds.{record_kind_of};
ghost use Rattle.network_file.specs.Draft.{with_entry};
ghost use Rattle.network_file.specs.Fitting.{FitsEntry};
ghost use Rattle.network_file.specs.Formats.{most_records};
ghost use Rattle.network_file.specs.Taking.{take_demand, take_diverge, take_exit, take_gate, take_kind, take_limit, take_link, take_merge, take_record, take_region, take_road, take_signal, take_speed, take_steps, take_turn, taken_before};

use crate::cell::{Cell, Kind};
use crate::cell_fields::{downstream, known_cell, new_name, upstream};
use crate::connector::Connector;
use crate::draft::NetDraft;
use crate::entry::Entry;
use crate::format::most_records;
use crate::limits::{MOST_CAPACITY, MOST_REGIONS, MOST_ROOM};
use fixed_flow::{MOST_PARTS, MOST_RATIO};
use no_memory::Refused;
use record_fields::{
    Code, FileRecord, RecordKind, RegionRecord, amount_within, range_within, ratio, weights,
    whole_within,
};
use step_plan::{CellRecord, Demand, Limit, MOST_STEPS, Signal, Speed, Turn};

/// The draft with one more record of the file.
#[inline(always)]
pub(crate) fn take_record(
    bytes: &[u8],
    draft: NetDraft,
    row: &FileRecord,
) -> Result<NetDraft, Refused<Code>>
    ensures { Answers result (take_record draft row.now) }
{
    let entry = read_record(&draft, row)?;
    Ok(draft.add(entry, bytes)?)
}

/// What a record says, if the draft can take it.
#[tactic(auto, unfolding(crate::specs::Taking::take_record))]
fn read_record(draft: &NetDraft, row: &FileRecord) -> Result<Entry, Refused<Code>>
    ensures answer { AnswersBy result (with_entry draft.now) (take_record draft.now row.now) }
    ensures fits { IfOk result (FitsEntry draft.now) }
{
    let Some(kind) = RecordKind::named(draft.format, row.field(0)) else {
        return Err(Refused::Fault(Code::BadKind));
    };
    if row.len() != kind.field_count() {
        return Err(Refused::Fault(Code::BadCount));
    }
    if draft.taken_before(kind) >= most_records(draft.format) {
        return Err(Refused::Fault(Code::TooMany));
    }
    read_of_kind(kind, draft, row)
}

/// What a record of this kind says, if the draft can take it.
fn read_of_kind(
    kind: RecordKind,
    draft: &NetDraft,
    row: &FileRecord,
) -> Result<Entry, Refused<Code>>
    requires of { record_kind_of draft.now.format (field row.now 0) ≡ Some kind }
    requires room { taken_before kind draft.now < most_records draft.now.format }
    ensures answer { AnswersBy result (with_entry draft.now) (take_kind kind draft.now row.now) }
    ensures fits { IfOk result (FitsEntry draft.now) }
{
    match kind {
        RecordKind::Steps => read_steps(draft, row),
        RecordKind::Road => read_road(draft, row),
        RecordKind::Gate => read_gate(draft, row),
        RecordKind::Exit => read_exit(draft, row),
        RecordKind::Link => read_link(draft, row),
        RecordKind::Merge => read_merge(draft, row),
        RecordKind::Diverge => read_diverge(draft, row),
        RecordKind::Signal => read_signal(draft, row),
        RecordKind::Limit => read_limit(draft, row),
        RecordKind::Demand => read_demand(draft, row),
        RecordKind::Turn => read_turn(draft, row),
        RecordKind::Region => read_region(draft, row),
        RecordKind::Speed => read_speed(draft, row),
    }
}

#[tactic(auto, unfolding(crate::specs::Taking::take_steps))]
fn read_steps(draft: &NetDraft, row: &FileRecord) -> Result<Entry, Refused<Code>>
    ensures answer { AnswersBy result (with_entry draft.now) (take_steps draft.now row.now) }
    ensures fits { IfOk result (FitsEntry draft.now) }
{
    if draft.steps.is_some() {
        return Err(Refused::Fault(Code::Repeated));
    }
    let steps = whole_within(1, MOST_STEPS, row.field(1))?;
    Ok(Entry::Steps(steps))
}

#[tactic(auto, unfolding(crate::specs::Taking::take_road))]
fn read_road(draft: &NetDraft, row: &FileRecord) -> Result<Entry, Refused<Code>>
    requires { length draft.now.cells < most_records draft.now.format }
    ensures answer { AnswersBy result (with_entry draft.now) (take_road draft.now row.now) }
    ensures fits { IfOk result (FitsEntry draft.now) }
{
    let name = new_name(&draft.cells, row.field(1))?;
    let room = amount_within(MOST_ROOM, row.field(2))?;
    let capacity = amount_within(MOST_CAPACITY, row.field(3))?;
    let (num, den) = ratio(MOST_RATIO, row.field(4), row.field(5))?;
    let first = amount_within(room, row.field(6))?;
    let kind = Kind::Road { room, num, den };
    let cell = Cell { name, kind, first };
    Ok(Entry::Cell(cell, capacity))
}

#[tactic(auto, unfolding(crate::specs::Taking::take_gate))]
fn read_gate(draft: &NetDraft, row: &FileRecord) -> Result<Entry, Refused<Code>>
    requires { length draft.now.cells < most_records draft.now.format }
    ensures answer { AnswersBy result (with_entry draft.now) (take_gate draft.now row.now) }
    ensures fits { IfOk result (FitsEntry draft.now) }
{
    let name = new_name(&draft.cells, row.field(1))?;
    let capacity = amount_within(MOST_CAPACITY, row.field(2))?;
    let first = amount_within(MOST_PARTS, row.field(3))?;
    let kind = Kind::Gate;
    let cell = Cell { name, kind, first };
    Ok(Entry::Cell(cell, capacity))
}

#[tactic(auto, unfolding(crate::specs::Taking::take_exit))]
fn read_exit(draft: &NetDraft, row: &FileRecord) -> Result<Entry, Refused<Code>>
    requires { length draft.now.cells < most_records draft.now.format }
    ensures answer { AnswersBy result (with_entry draft.now) (take_exit draft.now row.now) }
    ensures fits { IfOk result (FitsEntry draft.now) }
{
    let name = new_name(&draft.cells, row.field(1))?;
    let capacity = amount_within(MOST_CAPACITY, row.field(2))?;
    let cell = Cell {
        name,
        kind: Kind::Exit,
        first: 0,
    };
    Ok(Entry::Cell(cell, capacity))
}

#[tactic(auto, unfolding(crate::specs::Taking::take_link))]
fn read_link(draft: &NetDraft, row: &FileRecord) -> Result<Entry, Refused<Code>>
    requires { length draft.now.connectors < most_records draft.now.format }
    ensures answer { AnswersBy result (with_entry draft.now) (take_link draft.now row.now) }
    ensures fits { IfOk result (FitsEntry draft.now) }
{
    let up = upstream(&draft.cells, &draft.connectors, None, row.field(1))?;
    let down = downstream(&draft.cells, &draft.connectors, None, row.field(2))?;
    Ok(Entry::Connector(Connector::Link { up, down }))
}

#[tactic(auto, unfolding(crate::specs::Taking::take_merge))]
fn read_merge(draft: &NetDraft, row: &FileRecord) -> Result<Entry, Refused<Code>>
    requires { length draft.now.connectors < most_records draft.now.format }
    ensures answer { AnswersBy result (with_entry draft.now) (take_merge draft.now row.now) }
    ensures fits { IfOk result (FitsEntry draft.now) }
{
    let up1 = upstream(&draft.cells, &draft.connectors, None, row.field(1))?;
    let up2 = upstream(&draft.cells, &draft.connectors, Some(up1), row.field(2))?;
    let down = downstream(&draft.cells, &draft.connectors, None, row.field(3))?;
    let (p1, p2) = weights(MOST_RATIO, row.field(4), row.field(5))?;
    Ok(Entry::Connector(Connector::Merge {
        up1,
        up2,
        down,
        p1,
        p2,
    }))
}

#[tactic(auto, unfolding(crate::specs::Taking::take_diverge))]
fn read_diverge(draft: &NetDraft, row: &FileRecord) -> Result<Entry, Refused<Code>>
    requires { length draft.now.connectors < most_records draft.now.format }
    ensures answer { AnswersBy result (with_entry draft.now) (take_diverge draft.now row.now) }
    ensures fits { IfOk result (FitsEntry draft.now) }
{
    let up = upstream(&draft.cells, &draft.connectors, None, row.field(1))?;
    let down1 = downstream(&draft.cells, &draft.connectors, None, row.field(2))?;
    let down2 = downstream(&draft.cells, &draft.connectors, Some(down1), row.field(3))?;
    let (b1, b2) = weights(MOST_RATIO, row.field(4), row.field(5))?;
    Ok(Entry::Connector(Connector::Diverge {
        up,
        down1,
        down2,
        b1,
        b2,
    }))
}

#[tactic(auto, unfolding(crate::specs::Taking::take_signal))]
fn read_signal(draft: &NetDraft, row: &FileRecord) -> Result<Entry, Refused<Code>>
    ensures answer { AnswersBy result (with_entry draft.now) (take_signal draft.now row.now) }
    ensures fits { IfOk result (FitsEntry draft.now) }
{
    let cell = known_cell(&draft.cells, row.field(1))?;
    if draft.cells.is_exit(cell) {
        return Err(Refused::Fault(Code::WrongKind));
    }
    if draft.plan.has_signal(cell) {
        return Err(Refused::Fault(Code::Repeated));
    }
    let cycle = whole_within(1, MOST_STEPS, row.field(2))?;
    let offset = whole_within(0, cycle - 1, row.field(3))?;
    let (from, to) = range_within(cycle, row.field(4), row.field(5))?;
    let one = Signal {
        cycle,
        offset,
        from,
        to,
    };
    Ok(Entry::Record(cell, CellRecord::Signal(one)))
}

#[tactic(auto, unfolding(crate::specs::Taking::take_limit))]
fn read_limit(draft: &NetDraft, row: &FileRecord) -> Result<Entry, Refused<Code>>
    requires { (counts_of draft.now.plan).limits < most_records draft.now.format }
    ensures answer { AnswersBy result (with_entry draft.now) (take_limit draft.now row.now) }
    ensures fits { IfOk result (FitsEntry draft.now) }
{
    let cell = known_cell(&draft.cells, row.field(1))?;
    let (from, to) = range_within(MOST_STEPS, row.field(2), row.field(3))?;
    let capacity = amount_within(MOST_CAPACITY, row.field(4))?;
    let one = Limit { from, to, capacity };
    Ok(Entry::Record(cell, CellRecord::Limit(one)))
}

#[tactic(auto, unfolding(crate::specs::Taking::take_demand))]
fn read_demand(draft: &NetDraft, row: &FileRecord) -> Result<Entry, Refused<Code>>
    requires { (counts_of draft.now.plan).demands < most_records draft.now.format }
    ensures answer { AnswersBy result (with_entry draft.now) (take_demand draft.now row.now) }
    ensures fits { IfOk result (FitsEntry draft.now) }
{
    let cell = known_cell(&draft.cells, row.field(1))?;
    if !draft.cells.is_gate(cell) {
        return Err(Refused::Fault(Code::WrongKind));
    }
    let (from, to) = range_within(MOST_STEPS, row.field(2), row.field(3))?;
    let amount = amount_within(MOST_PARTS, row.field(4))?;
    let one = Demand { from, to, amount };
    Ok(Entry::Record(cell, CellRecord::Demand(one)))
}

#[tactic(auto, unfolding(crate::specs::Taking::take_turn))]
fn read_turn(draft: &NetDraft, row: &FileRecord) -> Result<Entry, Refused<Code>>
    requires room { (counts_of draft.now.plan).turns < most_records draft.now.format }
    requires second_format { 2 ≤ draft.now.format }
    ensures answer { AnswersBy result (with_entry draft.now) (take_turn draft.now row.now) }
    ensures fits { IfOk result (FitsEntry draft.now) }
{
    let cell = known_cell(&draft.cells, row.field(1))?;
    if !draft.connectors.diverges_from(cell) {
        return Err(Refused::Fault(Code::WrongKind));
    }
    let (from, to) = range_within(MOST_STEPS, row.field(2), row.field(3))?;
    let (b1, b2) = weights(MOST_RATIO, row.field(4), row.field(5))?;
    let one = Turn { from, to, b1, b2 };
    Ok(Entry::Record(cell, CellRecord::Turn(one)))
}

#[tactic(auto, unfolding(crate::specs::Taking::take_region))]
fn read_region(draft: &NetDraft, row: &FileRecord) -> Result<Entry, Refused<Code>>
    requires { 2 ≤ draft.now.format }
    ensures answer { AnswersBy result (with_entry draft.now) (take_region draft.now row.now) }
    ensures fits { IfOk result (FitsEntry draft.now) }
{
    let cell = known_cell(&draft.cells, row.field(1))?;
    if draft.regions.number_of(cell).is_some() {
        return Err(Refused::Fault(Code::Repeated));
    }
    let number = whole_within(0, MOST_REGIONS - 1, row.field(2))?;
    Ok(Entry::Region(RegionRecord { cell, number }))
}

#[tactic(auto, unfolding(crate::specs::Taking::take_speed))]
fn read_speed(draft: &NetDraft, row: &FileRecord) -> Result<Entry, Refused<Code>>
    requires room { (counts_of draft.now.plan).speeds < most_records draft.now.format }
    requires third_format { 3 ≤ draft.now.format }
    ensures answer { AnswersBy result (with_entry draft.now) (take_speed draft.now row.now) }
    ensures fits { IfOk result (FitsEntry draft.now) }
{
    let cell = known_cell(&draft.cells, row.field(1))?;
    if !draft.cells.is_road(cell) {
        return Err(Refused::Fault(Code::WrongKind));
    }
    let (from, to) = range_within(MOST_STEPS, row.field(2), row.field(3))?;
    let (num, den) = ratio(MOST_RATIO, row.field(4), row.field(5))?;
    let one = Speed { from, to, num, den };
    Ok(Entry::Record(cell, CellRecord::Speed(one)))
}
