ghost use Rattle.std.specs.Prelude.{◌≡◌, ◌↔◌, IfOk, IsTrue, length, map, []};
ghost use Rattle.saved_run.specs.Heads.{content_in};
ghost use Rattle.saved_run.specs.Loading.{CanStart, start_in};

use crate::row_line::RowLine;
use crate::saved_head::SavedHead;
use flow_model::Row;
use no_memory::NoMemory;
use region_cut::Layout;
use region_step::Start;
use std::alloc::Global;
use step_words::is_lawful;

/// Where the regions of a content start.
pub(crate) fn start_in(alloc: Global, head: SavedHead) -> Result<Start, NoMemory>
    ensures { IfOk result (λ start. start ≡ start_in (content_in head [])) }
{
    let rows = rows_of(alloc, &head.rows)?;
    let earlier = earlier_of(alloc, &head.rows)?;
    Ok(Start {
        steps: head.steps,
        rows,
        earlier,
    })
}

// The rows of the cells.
fn rows_of(alloc: Global, lines: &[RowLine]) -> Result<Vec<Row>, NoMemory>
    ensures { IfOk result (λ rows. rows.items ≡ map (λ line. line.row) lines.now) }
{
    Ok(lines.iter().map(|line| line.row).collect(alloc)?)
}

// What each cell held a step before.
fn earlier_of(alloc: Global, lines: &[RowLine]) -> Result<Vec<u64>, NoMemory>
    ensures { IfOk result (λ earlier. earlier.items ≡ map (λ line. line.earlier) lines.now) }
{
    Ok(lines.iter().map(|line| line.earlier).collect(alloc)?)
}

/// Whether the regions can be opened at a start, with neighbours at most one step apart.
pub(crate) fn can_start(start: &Start, layout: &Layout) -> bool
    ensures { IsTrue result ↔ CanStart layout.now.net layout.now.chart.cut start.now }
{
    start.fits(layout) && is_lawful(&start.steps, layout)
}
