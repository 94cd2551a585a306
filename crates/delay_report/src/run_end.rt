ghost use Rattle.std.specs.Prelude.{◌≡◌, ◌<◌, ◌^◌, IfOk, length};
ghost use Rattle.flow_model.specs.State.{delay_of, state_at};
ghost use Rattle.region_step.specs.Noting.{notes_of};
ghost use Rattle.region_step.specs.Regions.{AreAtLast};
ghost use Rattle.region_step.specs.Starting.{IsTrueStart};
ghost use Rattle.delay_report.specs.FromStart.{IsRecordedFromZero, last_rows};
ghost use Rattle.delay_report.specs.Notes.{all_notes, recorded_step};
ghost use Rattle.delay_report.specs.Report.{recorded_count};

use crate::by_cell::ByCell;
use flow_ledger::total_delay;
use flow_model::Row;
use no_memory::NoMemory;
use region_step::{Note, Regions};
use std::alloc::Global;

/// The rows of all cells at the last step, in the order of the file, of regions that have come there, however they were
/// recorded.
pub fn run_rows(alloc: Global, regions: &Regions) -> Result<Vec<Row>, NoMemory>
    requires last { AreAtLast regions.now }
    ensures one_each { IfOk result (λ rows. length rows.items ≡ length regions.now.setup.net.cells) }
    ensures rows { IfOk result (λ rows. rows.items ≡ last_rows regions.now.setup.net regions.now.setup.chart.cut regions.now.setup.start) }

    // Of a true start they are those of the plain recurrences, whatever the cutting.
    ensures recurrences { IfOk result (λ rows. IsTrueStart regions.now.setup.net regions.now.setup.chart.cut regions.now.setup.start →
        rows.items ≡ state_at regions.now.setup.net regions.now.setup.net.steps) }
{
    let by_cell = ByCell::of(alloc, regions)?;
    by_cell.rows(alloc)
}

/// What was noted of all cells at the `k`-th recorded step, from 0 on, in the order of the file, of regions that have come to
/// the last step.
pub fn run_notes(alloc: Global, regions: &Regions, k: u64) -> Result<Vec<Note>, NoMemory>
    requires last { AreAtLast regions.now }
    requires from_zero { IsRecordedFromZero regions.now.setup }
    requires noted { k < recorded_count regions.now.setup.net.steps regions.now.setup.every }
    ensures one_each { IfOk result (λ notes. length notes.items ≡ length regions.now.setup.net.cells) }
    ensures notes { IfOk result (λ notes. notes.items ≡ all_notes regions.now.setup.net regions.now.setup.chart.cut regions.now.setup.start
        (recorded_step regions.now.setup.net.steps regions.now.setup.every k)) }

    // Of a true start they are those of the plain recurrences, whatever the cutting.
    ensures recurrences { IfOk result (λ notes. IsTrueStart regions.now.setup.net regions.now.setup.chart.cut regions.now.setup.start →
        notes.items ≡ notes_of (state_at regions.now.setup.net (recorded_step regions.now.setup.net.steps regions.now.setup.every k))) }
{
    let by_cell = ByCell::of(alloc, regions)?;
    by_cell.notes(alloc, k as usize)
}

/// The delay of such regions: the waits of all cells, parts times steps. At most 200,000 waits of 64 bits fit in 128.
pub fn run_delay(alloc: Global, regions: &Regions) -> Result<u128, NoMemory>
    requires last { AreAtLast regions.now }
    ensures delay { IfOk result (λ sum. sum ≡ delay_of (last_rows regions.now.setup.net regions.now.setup.chart.cut regions.now.setup.start)) }

    // Of a true start it is that of the plain recurrences, whatever the cutting.
    ensures recurrences { IfOk result (λ sum. IsTrueStart regions.now.setup.net regions.now.setup.chart.cut regions.now.setup.start →
        sum ≡ delay_of (state_at regions.now.setup.net regions.now.setup.net.steps)) }
    ensures few { IfOk result (λ sum. sum < 2 ^ 96) }
{
    let net = regions.setup().layout().net();
    let _steps = net.steps;
    let rows = run_rows(alloc, regions)?;
    Ok(total_delay(&rows))
}
