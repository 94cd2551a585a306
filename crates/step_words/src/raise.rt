ghost use Rattle.std.specs.Prelude.{◌≡◌, ◌+◌, ◌<◌, ◌≤◌, ◌↔◌, All, IsTrue, false, true, length, slice_index, slice_set};
ghost use Rattle.region_cut.specs.Chart.{list_at};
ghost use Rattle.region_cut.specs.Cuttings.{region_count};
ghost use Rattle.region_cut.specs.LawfulSteps.{AreLawful};
ghost use Rattle.step_words.specs.Rising.{CanRise};

use region_cut::Layout;

/// Raises a region by one step where it stands below the last step and no neighbour stands lower, and says
/// whether it did. Else the steps stay as they were.
pub fn rise(steps: &mut [u64], layout: &Layout, r: u32) -> bool
    requires steps { AreLawful layout.now.net layout.now.chart.cut steps.old }
    requires there { r < region_count layout.now.chart.cut }
    ensures exactly { IsTrue result ↔ CanRise layout.now.net layout.now.chart.cut steps.old r }
    ensures risen { result ≡ true → steps.new ≡ slice_set steps.old r (slice_index steps.old r + 1) }
    ensures unchanged { result ≡ false → steps.new ≡ steps.old }

    // A rise keeps the steps lawful.
    ensures lawful { AreLawful layout.now.net layout.now.chart.cut steps.new }
{
    let net = layout.net();
    let step = steps[r as usize];
    if step >= net.steps || !is_lowest(steps, layout, r) {
        return false;
    }
    steps[r as usize] = step + 1;
    true
}

// Whether no neighbour of a region stands lower.
fn is_lowest(steps: &[u64], layout: &Layout, r: u32) -> bool
    requires one_each { length steps.now ≡ region_count layout.now.chart.cut }
    requires there { r < region_count layout.now.chart.cut }
    ensures { IsTrue result ↔ All (λ q. slice_index steps.now r ≤ slice_index steps.now q) (list_at layout.now.chart.neighbours r) }
{
    let step = steps[r as usize];
    let neighbours = layout.neighbours(r);
    for q in neighbours {
        let other = steps[*q as usize];
        if other < step {
            return false;
        }
    }
    true
}
