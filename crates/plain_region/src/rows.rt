ghost use Rattle.std.specs.Prelude.{◌≡◌, ◌<◌, ℕ, length};
ghost use Rattle.plain_region.specs.Carrying.{CanChangeAt, rows_changed};

use crate::change::Change;
use flow_model::Row;
use network_file::Net;

/// Writes the rows of the region's cells after step `t`.
pub(crate) fn change_rows(
    net: &Net,
    t: u64,
    cells: &[u32],
    rows: &[Row],
    changes: &[Change],
    next: &mut [Row],
)
    requires there { (p : ℕ) → p < length cells.now → CanChangeAt net.now t cells.now rows.now changes.now p }
    requires in_time { t < net.now.steps }
    requires one_each { length rows.now ≡ length cells.now }
    requires changes { length changes.now ≡ length cells.now }
    requires next { length next.old ≡ length cells.now }
    ensures { next.new ≡ rows_changed net.now t cells.now rows.now changes.now }
{
    for p in 0..cells.len() {
        next[p] = changes[p].of_row(net, t, cells[p], &rows[p]);
    }
}
