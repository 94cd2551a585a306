ghost use Rattle.std.specs.Prelude.{◌≡◌, ◌++◌, ◌<◌, ◌^◌, length, slice_index, OnOk};
ghost use Rattle.region_step.specs.Recording.{recorded};
ghost use Rattle.delay_report.specs.FromStart.{IsRecordedFromZero, grid_note};
ghost use Rattle.delay_report.specs.Report.{note_line, note_lines, recorded_count, step_lines};

use crate::by_cell::ByCell;
use line_fields::{put_amount, put_count};
use network_file::Cell;
use no_memory::NoMemory;
use region_step::{Note, is_recorded};

/// Appends a line for each recorded step and each cell.
pub(crate) fn put_note_lines(text: &mut Vec<u8>, by_cell: &ByCell) -> Result<(), NoMemory>
    requires { IsRecordedFromZero by_cell.now.setup }
    ensures { OnOk result (text.new.items ≡ text.old.items ++
        note_lines by_cell.now.setup.net.cells (grid_note by_cell.now.setup.net by_cell.now.setup.chart.cut by_cell.now.setup.start)
        (recorded by_cell.now.setup.net.steps by_cell.now.setup.every 0 by_cell.now.setup.net.steps)) }
{
    let setup = by_cell.regions.setup();
    let every = setup.every();
    let net = setup.layout().net();
    let mut k = 0;
    for t in 0..net.steps + 1 {
        if is_recorded(net.steps, every, t) {
            put_step_lines(text, &net.cells, by_cell, k, t)?;
            k += 1;
        }
    }
    Ok(())
}

// Appends the lines of step `t`, the `k`-th recorded one.
fn put_step_lines(
    text: &mut Vec<u8>,
    cells: &[Cell],
    by_cell: &ByCell,
    k: usize,
    t: u64,
) -> Result<(), NoMemory>
    requires few { length cells.now < 2 ^ 32 }
    requires one_each { length by_cell.now.setup.chart.cut ≡ length cells.now }
    requires from_zero { IsRecordedFromZero by_cell.now.setup }
    requires step { (k < recorded_count by_cell.now.setup.net.steps by_cell.now.setup.every)
        × (slice_index (recorded by_cell.now.setup.net.steps by_cell.now.setup.every 0 by_cell.now.setup.net.steps) k ≡ t) }
    ensures { OnOk result (text.new.items ≡ text.old.items ++
        step_lines cells.now (grid_note by_cell.now.setup.net by_cell.now.setup.chart.cut by_cell.now.setup.start t) t) }
{
    for (i, cell) in cells.iter().enumerate() {
        put_note_line(text, t, cell, by_cell.note(k, i as u32))?;
    }
    Ok(())
}

#[tactic(auto, unfolding(crate::specs::Report::note_line))]
fn put_note_line(text: &mut Vec<u8>, t: u64, cell: &Cell, note: Note) -> Result<(), NoMemory>
    ensures { OnOk result (text.new.items ≡ text.old.items ++ note_line t cell.now.name note) }
{
    text.extend_from_slice(b"at")?;
    put_count(text, t)?;
    text.extend_from_slice(b",")?;
    text.extend_from_slice(cell.name.bytes())?;
    put_amount(text, note.n)?;
    put_amount(text, note.gone)?;
    text.extend_from_slice(b"\n")?;
    Ok(())
}
