use ctm::{Cell, NoMemory, Row, put_amount};
use std::alloc::Global;

/// A line for each of so many cells in which most delay arose, the most first: its name and its delay, in vehicles times
/// steps. Of cells with equal delay the first in the file comes first.
pub(crate) fn worst_cells(
    alloc: Global,
    cells: &[Cell],
    rows: &[Row],
    most: usize,
) -> Result<Vec<u8>, NoMemory> {
    let mut delays = Vec::new(alloc);
    for (cell, row) in cells.iter().zip(rows) {
        delays.push((row.wait, cell))?;
    }
    delays.sort_by(|one, other| other.0.cmp(&one.0))?;
    let mut text = Vec::new(alloc);
    for (wait, cell) in delays.iter().take(most) {
        text.extend_from_slice(cell.name.bytes())?;
        put_amount(&mut text, *wait)?;
        text.extend_from_slice(b"\n")?;
    }
    Ok(text)
}
