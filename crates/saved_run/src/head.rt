ghost use Rattle.std.specs.Prelude.{◌≡◌, Some, None, IfOk, MatchOption, length};
ghost use Rattle.saved_run.specs.Reading.{row_lines_at, step_lines_at};

use crate::lines::{behind, counted_line, row_line};
use crate::row_line::RowLine;
use no_memory::NoMemory;
use std::alloc::Global;

/// The steps of so many step lines at the front of a text, and what follows them.
pub(crate) fn step_lines(
    alloc: Global,
    count: u64,
    text: &[u8],
) -> Result<Option<(Vec<u64>, &[u8])>, NoMemory>
    ensures { IfOk result (λ found. MatchOption found (step_lines_at count text.now ≡ None)
        (λ steps. step_lines_at count text.now ≡ Some (record { value = steps.0.items; rest = steps.1.now }))) }
{
    let mut steps = Vec::new(alloc);
    let mut left = text;
    for _done in 0..count {
        let Some((step, rest)) = counted_line(b"step", left) else {
            return Ok(None);
        };
        steps.push(step)?;
        left = rest;
    }
    Ok(Some((steps, left)))
}

/// What the row lines at the front of a text say, and what follows the line `net` behind them.
pub(crate) fn row_lines(
    alloc: Global,
    text: &[u8],
) -> Result<Option<(Vec<RowLine>, &[u8])>, NoMemory>
    ensures { IfOk result (λ found. MatchOption found (row_lines_at (length text.now) text.now ≡ None)
        (λ rows. row_lines_at (length text.now) text.now ≡ Some (record { value = rows.0.items; rest = rows.1.now }))) }
{
    let mut rows = Vec::new(alloc);
    let mut left = text;
    for _done in 0..text.len() {
        if let Some(network) = behind(b"net\n", left) {
            return Ok(Some((rows, network)));
        }
        let Some((row, rest)) = row_line(left) else {
            return Ok(None);
        };
        rows.push(row)?;
        left = rest;
    }
    Ok(None)
}
