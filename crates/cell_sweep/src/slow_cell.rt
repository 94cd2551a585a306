ghost use Rattle.std.specs.Prelude.{◌≡◌, ◌<◌, All, length};
ghost use Rattle.cell_sweep.specs.Speeds.{is_slow};

use network_file::Net;

/// Whether the `p`-th of these cells has speed records, as a road alone may.
pub fn is_slow(net: &Net, cells: &[u32], p: usize) -> bool
    requires within { p < length cells.now }
    requires there { All (λ i. i < length net.now.cells) cells.now }
    ensures { result ≡ is_slow net.now cells.now p }
{
    let _steps = net.steps;
    net.plan.has_speeds(cells[p])
}
