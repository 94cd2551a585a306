ghost use Rattle.std.specs.Prelude.{◌≡◌, ℕ, ◌<◌, ◌^◌, ◌==◌, All, [], ◌∷◌, ◌++◌, IfOk, if◌then◌else◌, length, map};
ghost use Rattle.std.specs.List.{list_any, range_with_len};
ghost use Rattle.region_cut.specs.Chart.{connectors_of, list_at};
ghost use Rattle.region_cut.specs.Cuttings.{region_at};

use crate::cell_lists::empty_lists;
use crate::connector_cells::three_cells;
use crate::lists::Lists;
use network_file::Net;
use no_memory::NoMemory;
use std::alloc::Global;

/// The connectors that touch each region.
pub(crate) fn connectors_by_region(
    alloc: Global,
    net: &Net,
    cut: &[u32],
    regions: u32,
) -> Result<Lists<u32>, NoMemory>
    requires one_each { length cut.now ≡ length net.now.cells }
    requires there { All (λ region. region < regions) cut.now }
    ensures lists { IfOk result (λ lists. lists ≡ map (connectors_of net.now cut.now) (range_with_len 0 regions)) }
    ensures few { IfOk result (λ lists. length lists < 2 ^ 32) }
{
    let mut lists = empty_lists(alloc, regions)?;
    for k in 0..net.connectors.len() as u32 {
        let cells = three_cells(net.connectors[k as usize]);
        push_at_each(&mut lists, regions_at(cut, cells), k)?;
    }
    Ok(lists)
}

// The regions of these cells.
fn regions_at(cut: &[u32], cells: [u32; 3]) -> [u32; 3]
    requires { All (λ i. i < length cut.now) cells }
    ensures { result ≡ map (region_at cut.now) cells }
{
    let [a, b, c] = cells;
    [cut[a as usize], cut[b as usize], cut[c as usize]]
}

// Puts connector `k` once into the list of each of these regions.
fn push_at_each(lists: &mut Lists<u32>, regions: [u32; 3], k: u32) -> Result<(), NoMemory>
    requires { All (λ r. r < length lists.old) regions }
    ensures count { IfOk result (λ _. length lists.new ≡ length lists.old) }
    ensures lists { IfOk result (λ _. (r : ℕ) → list_at lists.new r ≡ list_at lists.old r ++ (if list_any (λ q. q == r) regions then k ∷ [] else [])) }
{
    let [a, b, c] = regions;
    lists.push(a, k)?;
    if b != a {
        lists.push(b, k)?;
    }
    if c != a && c != b {
        lists.push(c, k)?;
    }
    Ok(())
}
