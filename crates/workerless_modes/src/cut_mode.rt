ghost use Rattle.std.specs.Prelude.{◌≡◌, ◌≤◌, ◌++◌, IfErr, IfOk, None, OnOk, codes, length, min};
ghost use Rattle.command_words.specs.Words.{IsInRange};
ghost use Rattle.network_file.specs.Cells.{name_at};
ghost use Rattle.network_file.specs.declared.limits.TheConstants.{MOST_BYTES, MOST_REGIONS};
ghost use Rattle.line_fields.specs.Fields.{count_field, lines_of};
ghost use Rattle.region_cut.specs.Cuttings.{even_cutting, region_at};
ghost use Rattle.call_ending.specs.Refusing.{IsRefusalOf};
ghost use Rattle.call_beginning.specs.Task.{task_of};
ghost use Rattle.workerless_modes.specs.CutMode.{IsCutText, ShowsGrown, cut_refused, cutting_text, cell_region_line};

use call_beginning::{network_in, regions_wanted};
use call_ending::Refusal;
use command_words::Request;
use cut_grow::{cut_count, grow};
use line_fields::put_count;
use network_file::{Cell, Net};
use no_memory::NoMemory;
use region_cut::Cut;
use std::alloc::Global;

/// How many connectors the even and a grown cutting of a network cut, and the region of each cell of the grown one.
pub fn cut_text(alloc: Global, request: Request, input: &[u8]) -> Result<Vec<u8>, Refusal>
    requires in_range { IsInRange request }
    requires few_bytes { length input.now ≤ MOST_BYTES }
    ensures text { IfOk result (λ text. (cut_refused (task_of request input.now) ≡ None) × IsCutText (task_of request input.now) text.items) }
    ensures refusal { IfErr result (IsRefusalOf (cut_refused (task_of request input.now)) ⊥) }
{
    match network_in(alloc, input) {
        Ok(net) => {
            let regions = regions_wanted(&net, request);
            Ok(grown_beside_even(alloc, &net, regions)?)
        }
        Err(refusal) => Err(refusal),
    }
}

// The same of a network, in so many regions, or as many as there are cells.
fn grown_beside_even(alloc: Global, net: &Net, regions: u32) -> Result<Vec<u8>, NoMemory>
    requires some { 1 ≤ regions }
    requires few { regions ≤ MOST_REGIONS }
    ensures { IfOk result (λ text. ShowsGrown net.now (min regions (length net.now.cells)) text.items) }
{
    let k = regions.min(net.cells.len() as u32);
    let even = Cut::even(alloc, net, k)?;
    let list = grow(alloc, net, k)?;
    let text = cutting_text(alloc, net, k, even.regions(), &list)?;
    Ok(text)
}

// The text of a cutting into `k` regions, beside the even one.
#[tactic(auto, unfolding(crate::specs::CutMode::cutting_text))]
fn cutting_text(
    alloc: Global,
    net: &Net,
    k: u32,
    even: &[u32],
    list: &[u32],
) -> Result<Vec<u8>, NoMemory>
    requires even { even.now ≡ even_cutting (length net.now.cells) k }
    requires even_one_each { length even.now ≡ length net.now.cells }
    requires one_each { length list.now ≡ length net.now.cells }
    ensures { IfOk result (λ text. text.items ≡ cutting_text net.now k list.now) }
{
    let mut text = Vec::new(alloc);
    put_cut_line(&mut text, k, cut_count(net, even), cut_count(net, list))?;
    put_cell_region_lines(&mut text, &net.cells, list)?;
    Ok(text)
}

fn put_cut_line(text: &mut Vec<u8>, k: u32, even: u32, grown: u32) -> Result<(), NoMemory>
    ensures { OnOk result (text.new.items ≡ text.old.items ++ codes "cut" ++ count_field k ++ count_field even ++ count_field grown ++ codes "\n") }
{
    text.extend_from_slice(b"cut")?;
    put_count(text, u64::from(k))?;
    put_count(text, u64::from(even))?;
    put_count(text, u64::from(grown))?;
    text.extend_from_slice(b"\n")?;
    Ok(())
}

// Appends the line of each cell, by its region.
fn put_cell_region_lines(text: &mut Vec<u8>, cells: &[Cell], list: &[u32]) -> Result<(), NoMemory>
    requires { length list.now ≡ length cells.now }
    ensures { OnOk result (text.new.items ≡ text.old.items ++ lines_of (λ i. cell_region_line (name_at cells.now i) (region_at list.now i)) (length cells.now)) }
{
    for (i, cell) in cells.iter().enumerate() {
        put_cell_region_line(text, cell, list[i])?;
    }
    Ok(())
}

#[tactic(auto, unfolding(crate::specs::CutMode::cell_region_line))]
fn put_cell_region_line(text: &mut Vec<u8>, cell: &Cell, region: u32) -> Result<(), NoMemory>
    ensures { OnOk result (text.new.items ≡ text.old.items ++ cell_region_line cell.now.name region) }
{
    text.extend_from_slice(b"cell,")?;
    text.extend_from_slice(cell.name.bytes())?;
    put_count(text, u64::from(region))?;
    text.extend_from_slice(b"\n")?;
    Ok(())
}
