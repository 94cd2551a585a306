ghost use Rattle.std.specs.Prelude.{◌≡◌, ◌++◌, length, OnOk};
ghost use Rattle.delay_report.specs.Report.{cell_line, cell_lines};

use flow_model::Row;
use line_fields::put_row_fields;
use network_file::Cell;
use no_memory::NoMemory;

/// Appends the line of each cell, by its row at the last step.
pub(crate) fn put_cell_lines(
    text: &mut Vec<u8>,
    cells: &[Cell],
    rows: &[Row],
) -> Result<(), NoMemory>
    requires { length rows.now ≡ length cells.now }
    ensures { OnOk result (text.new.items ≡ text.old.items ++ cell_lines cells.now rows.now) }
{
    for (i, cell) in cells.iter().enumerate() {
        put_cell_line(text, cell, &rows[i])?;
    }
    Ok(())
}

#[tactic(auto, unfolding(crate::specs::Report::cell_line))]
fn put_cell_line(text: &mut Vec<u8>, cell: &Cell, row: &Row) -> Result<(), NoMemory>
    ensures { OnOk result (text.new.items ≡ text.old.items ++ cell_line cell.now.name row.now) }
{
    text.extend_from_slice(b"cell,")?;
    put_row_fields(text, cell.name.bytes(), row)?;
    text.extend_from_slice(b"\n")?;
    Ok(())
}
