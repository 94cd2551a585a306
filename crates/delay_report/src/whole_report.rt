ghost use Rattle.std.specs.Prelude.{◌≡◌, ◌++◌, ◌+◌, IfOk, OnOk};
ghost use Rattle.flow_ledger.specs.Books.{entered_of, inside_of, left_of};
ghost use Rattle.flow_ledger.specs.Balances.{initial_of};
ghost use Rattle.region_step.specs.Regions.{AreAtLast};
ghost use Rattle.region_step.specs.Starting.{IsTrueStart};
ghost use Rattle.delay_report.specs.FromStart.{IsRecordedFromZero, grid_note, last_rows, report_from};
ghost use Rattle.delay_report.specs.Report.{report_line, report_of, report_with};

use crate::by_cell::ByCell;
use crate::cell_lines::put_cell_lines;
use crate::note_lines::put_note_lines;
use crate::total_line::put_total_line;
use line_fields::put_count;
use network_file::Net;
use no_memory::NoMemory;
use region_step::Regions;
use std::alloc::Global;

/// The report of a run whose regions have come to the last step (docs/FORMAT.md, "The report"): from step 0 where they were
/// recorded, else from any start.
#[tactic(auto, unfolding(crate::specs::Report::report_with))]
pub fn report(alloc: Global, regions: &Regions) -> Result<Vec<u8>, NoMemory>
    requires last { AreAtLast regions.now }
    requires from_zero { IsRecordedFromZero regions.now.setup }
    ensures text { IfOk result (λ text. text.items ≡ report_with regions.now.setup.net regions.now.setup.every
        (grid_note regions.now.setup.net regions.now.setup.chart.cut regions.now.setup.start)
        (last_rows regions.now.setup.net regions.now.setup.chart.cut regions.now.setup.start)) }
    ensures unrecorded { IfOk result (λ text. regions.now.setup.every ≡ 0 →
        text.items ≡ report_from regions.now.setup.net regions.now.setup.chart.cut regions.now.setup.start) }

    // Of a true start it is the report of the plain recurrences, whatever the cutting.
    ensures recurrences { IfOk result (λ text. IsTrueStart regions.now.setup.net regions.now.setup.chart.cut regions.now.setup.start →
        text.items ≡ report_of regions.now.setup.net regions.now.setup.every) }

    // Then its totals balance: what is inside at the last step and what has left were there at first or have entered.
    ensures balance { IfOk result (λ text. IsTrueStart regions.now.setup.net regions.now.setup.chart.cut regions.now.setup.start →
        let net = regions.now.setup.net in
        let rows = last_rows net regions.now.setup.chart.cut regions.now.setup.start in
        inside_of net rows + left_of net rows ≡ initial_of net + entered_of net rows) }
{
    let setup = regions.setup();
    let _start = setup.start();
    let net = setup.layout().net();
    let _steps = net.steps;
    let by_cell = ByCell::of(alloc, regions)?;
    let rows = by_cell.rows(alloc)?;
    let mut text = Vec::new(alloc);
    put_report_line(&mut text, net)?;
    put_note_lines(&mut text, &by_cell)?;
    put_cell_lines(&mut text, &net.cells, &rows)?;
    put_total_line(&mut text, net, &rows)?;
    Ok(text)
}

#[tactic(auto, unfolding(crate::specs::Report::report_line))]
fn put_report_line(text: &mut Vec<u8>, net: &Net) -> Result<(), NoMemory>
    ensures { OnOk result (text.new.items ≡ text.old.items ++ report_line net.now) }
{
    text.extend_from_slice(b"report")?;
    put_count(text, net.steps)?;
    put_count(text, net.cells.len() as u64)?;
    text.extend_from_slice(b"\n")?;
    Ok(())
}
