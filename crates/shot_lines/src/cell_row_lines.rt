ghost use Rattle.std.specs.Prelude.{◌≡◌, ◌++◌, OnOk, length};
ghost use Rattle.std.specs.Io.{StartsWith};
ghost use Rattle.network_file.specs.Cells.{name_at};
ghost use Rattle.flow_model.specs.State.{row_at};
ghost use Rattle.line_fields.specs.Fields.{lines_of};
ghost use Rattle.shot_lines.specs.ShotText.{cell_row_line};

use flow_model::Row;
use line_fields::put_row_fields;
use network_file::Cell;
use no_memory::NoMemory;

/// Appends a line for each cell, by its row.
pub(crate) fn put_cell_row_lines(
    text: &mut Vec<u8>,
    cells: &[Cell],
    rows: &[Row],
) -> Result<(), NoMemory>
    requires { length rows.now ≡ length cells.now }
    ensures lines { OnOk result (text.new.items ≡ text.old.items ++ lines_of (λ i. cell_row_line (name_at cells.now i) (row_at rows.now i)) (length cells.now)) }
    ensures kept { StartsWith text.new.items text.old.items }
{
    for (i, cell) in cells.iter().enumerate() {
        put_cell_row_line(text, cell, &rows[i])?;
    }
    Ok(())
}

#[tactic(auto, unfolding(crate::specs::ShotText::cell_row_line))]
fn put_cell_row_line(text: &mut Vec<u8>, cell: &Cell, row: &Row) -> Result<(), NoMemory>
    ensures line { OnOk result (text.new.items ≡ text.old.items ++ cell_row_line cell.now.name row.now) }
    ensures kept { StartsWith text.new.items text.old.items }
{
    text.extend_from_slice(b"row,")?;
    put_row_fields(text, cell.name.bytes(), row)?;
    text.extend_from_slice(b"\n")?;
    Ok(())
}
