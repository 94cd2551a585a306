ghost use Rattle.std.specs.Prelude.{◌≡◌, ◌+◌, ◌<◌, ◌≤◌, ◌↔◌, All, IsTrue, length, slice_index};
ghost use Rattle.region_cut.specs.Chart.{list_at};
ghost use Rattle.region_cut.specs.Cuttings.{region_count};
ghost use Rattle.region_cut.specs.LawfulSteps.{AreLawful};

use region_cut::Layout;

/// Whether there is one step for each region, none past the last, and neighbours stand at most one step apart.
pub fn is_lawful(steps: &[u64], layout: &Layout) -> bool
    ensures { IsTrue result ↔ AreLawful layout.now.net layout.now.chart.cut steps.now }
{
    let net = layout.net();
    if steps.len() != layout.regions() as usize {
        return false;
    }
    for r in 0..layout.regions() {
        if steps[r as usize] > net.steps || !is_close(steps, layout, r) {
            return false;
        }
    }
    true
}

// Whether a region stands at most one step ahead of each neighbour.
fn is_close(steps: &[u64], layout: &Layout, r: u32) -> bool
    requires one_each { length steps.now ≡ region_count layout.now.chart.cut }
    requires there { r < region_count layout.now.chart.cut }
    ensures { IsTrue result ↔ All (λ q. slice_index steps.now r ≤ slice_index steps.now q + 1) (list_at layout.now.chart.neighbours r) }
{
    let step = steps[r as usize];
    let neighbours = layout.neighbours(r);
    for q in neighbours {
        let other = steps[*q as usize];
        if step.saturating_sub(other) > 1 {
            return false;
        }
    }
    true
}
