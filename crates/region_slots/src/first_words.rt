ghost use Rattle.std.specs.Prelude.{◌≡◌, ◌<◌, ◌^◌, ℕ, All, IfOk, length};
ghost use Rattle.region_cut.specs.Chart.{IsChart, list_at};
ghost use Rattle.region_cut.specs.Cuttings.{region_count};
ghost use Rattle.border_rows.specs.Places.{widths_of, words_of};
ghost use Rattle.region_slots.specs.FirstWords.{AreFirstWords, AreAllFirstWords, OnlyThose};

use border_rows::Places;
use no_memory::NoMemory;
use region_cut::Layout;
use region_step::Start;
use std::alloc::Global;

/// The words of a field that opens: no region is taken, each has published the step where it starts, and its rows say what
/// its border cells hold there and held a step before.
pub(crate) fn first_words(
    alloc: Global,
    places: &Places,
    layout: &Layout,
    start: &Start,
) -> Result<Vec<u64>, NoMemory>
    requires places { places.now ≡ widths_of layout.now.chart }
    requires steps { length start.now.steps ≡ region_count layout.now.chart.cut }
    requires rows { (q : ℕ) → q < region_count layout.now.chart.cut → All (λ i. i < length start.now.rows) (list_at layout.now.chart.border q) }
    requires earlier { length start.now.earlier ≡ length start.now.rows }
    ensures { IfOk result (λ words. AreAllFirstWords layout.now.chart start.now words.items) }
{
    let mut words = vec![in alloc; 0; places.words() as usize]?;
    for r in 0..layout.regions() {
        fill(&mut words, places, layout, start, r);
    }
    Ok(words)
}

// Fills the words of region `r`, but for its claim word.
fn fill(words: &mut Vec<u64>, places: &Places, layout: &Layout, start: &Start, r: u32)
    requires sound { IsChart layout.now.chart }
    requires long { length words.old.items ≡ words_of (widths_of layout.now.chart) }
    requires few { words_of (widths_of layout.now.chart) < 2 ^ 32 }
    requires places { places.now ≡ widths_of layout.now.chart }
    requires steps { length start.now.steps ≡ region_count layout.now.chart.cut }
    requires rows { (q : ℕ) → q < region_count layout.now.chart.cut → All (λ i. i < length start.now.rows) (list_at layout.now.chart.border q) }
    requires earlier { length start.now.earlier ≡ length start.now.rows }
    requires there { r < region_count layout.now.chart.cut }
    ensures only { OnlyThose layout.now.chart words.old.items words.new.items r }
    ensures filled { AreFirstWords layout.now.chart start.now words.new.items r }
{
    let step = start.steps[r as usize];
    let parity = (step % 2) as u32;
    words[places.step(r) as usize] = step;
    let border = layout.border(r);
    for j in 0..border.len() {
        let cell = border[j] as usize;
        words[places.row(r, parity, j as u32) as usize] = start.rows[cell].n;
        words[places.row(r, 1 - parity, j as u32) as usize] = start.earlier[cell];
    }
}
