ghost use Rattle.std.specs.Prelude.{◌≡◌, ◌<◌, [], All, IfOk, if◌then◌else◌, length, map, slice_index};
ghost use Rattle.flow_model.specs.State.{row_at};
ghost use Rattle.region_step.specs.Noting.{notes_of};
ghost use Rattle.plain_region.specs.Opening.{earlier_row};

use crate::notes::{make_room, note_step};
use flow_model::Row;
use no_memory::NoMemory;
use region_step::Note;
use std::alloc::Global;

/// The rows of these cells.
pub(crate) fn rows_of(alloc: Global, rows: &[Row], cells: &[u32]) -> Result<Vec<Row>, NoMemory>
    requires { All (λ i. i < length rows.now) cells.now }
    ensures { IfOk result (λ own. own.items ≡ map (row_at rows.now) cells.now) }
{
    let mut own = Vec::new(alloc);
    for i in cells {
        own.push(rows[*i as usize])?;
    }
    Ok(own)
}

/// Rows that hold what these cells held earlier.
pub(crate) fn earlier_rows(
    alloc: Global,
    earlier: &[u64],
    cells: &[u32],
) -> Result<Vec<Row>, NoMemory>
    requires { All (λ i. i < length earlier.now) cells.now }
    ensures { IfOk result (λ own. own.items ≡ map (λ i. earlier_row (slice_index earlier.now i)) cells.now) }
{
    let mut own = Vec::new(alloc);
    for i in cells {
        own.push(Row {
            n: earlier[*i as usize],
            come: 0,
            gone: 0,
            wait: 0,
        })?;
    }
    Ok(own)
}

/// What is noted of these rows where their step is recorded.
pub(crate) fn first_notes(
    alloc: Global,
    rows: &[Row],
    recorded: bool,
) -> Result<Vec<Note>, NoMemory>
    ensures { IfOk result (λ trail. trail.items ≡ (if recorded then notes_of rows.now else [])) }
{
    let mut trail = Vec::new(alloc);
    make_room(&mut trail, rows.len(), recorded)?;
    note_step(&mut trail, rows, recorded);
    Ok(trail)
}
