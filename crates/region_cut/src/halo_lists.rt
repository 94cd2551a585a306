ghost use Rattle.std.specs.Prelude.{◌≡◌, ◌<◌, ℕ, ◌^◌, All, IfOk, length, map};
ghost use Rattle.std.specs.List.{range_with_len};
ghost use Rattle.std.specs.List.Sorted.{IsStrictlyIncreasing};
ghost use Rattle.region_cut.specs.Chart.{list_at};
ghost use Rattle.region_cut.specs.Gathered.{CanPlace, outside, placed};

use crate::halo::Halo;
use crate::list_place::place;
use crate::lists::Lists;
use no_memory::NoMemory;
use std::alloc::Global;

/// For each region the cells that its connectors meet and that lie in others, each with its place in its border.
pub(crate) fn halo_by_region(
    alloc: Global,
    cut: &[u32],
    met: &Lists<u32>,
    border: &Lists<u32>,
) -> Result<Lists<Halo>, NoMemory>
    requires few { length met.now < 2 ^ 32 }
    requires there { (r : ℕ) → r < length met.now → All (CanPlace cut.now border.now) (list_at met.now r) }
    requires increasing { (q : ℕ) → q < length border.now → IsStrictlyIncreasing (list_at border.now q) }
    ensures lists { IfOk result (λ lists. lists ≡ map (λ r. map (placed cut.now border.now) (outside cut.now r (list_at met.now r))) (range_with_len 0 (length met.now))) }
    ensures few { IfOk result (λ lists. length lists < 2 ^ 32) }
{
    let mut lists = Lists::new(alloc);
    for r in 0..met.len() as u32 {
        let cells = halo(alloc, cut, met.at(r), border, r)?;
        lists.add(cells)?;
    }
    Ok(lists)
}

// The cells of a list that lie in other regions than `r`, each with its place.
fn halo(
    alloc: Global,
    cut: &[u32],
    met: &[u32],
    border: &Lists<u32>,
    r: u32,
) -> Result<Vec<Halo>, NoMemory>
    requires there { All (CanPlace cut.now border.now) met.now }
    requires increasing { (q : ℕ) → q < length border.now → IsStrictlyIncreasing (list_at border.now q) }
    ensures { IfOk result (λ halo. halo.items ≡ map (placed cut.now border.now) (outside cut.now r met.now)) }
{
    let mut halo = Vec::new(alloc);
    for cell in met {
        let region = cut[*cell as usize];
        if region != r {
            halo.push(Halo {
                cell: *cell,
                region,
                place: place(border.at(region), *cell),
            })?;
        }
    }
    Ok(halo)
}
