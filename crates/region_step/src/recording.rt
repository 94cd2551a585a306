ghost use Rattle.std.specs.Prelude.{◌≡◌, ◌+◌, ◌*◌, ◌<◌, ◌≤◌, ◌^◌, ◌++◌, [], IfOk, IsTrue, if◌then◌else◌, length, vec_capacity};
ghost use Rattle.step_plan.specs.declared.bounds.TheConstants.{MOST_STEPS};
ghost use Rattle.region_step.specs.Ordered.{rows_in};
ghost use Rattle.region_step.specs.Recording.{is_recorded};
ghost use Rattle.region_step.specs.Noting.{notes_of, recorded_after};

use crate::note::Note;
use crate::ordered_rows::OrderedRows;
use no_memory::NoMemory;
use std::alloc::Global;

/// Whether step `t` of so many is recorded: `every` divides it, or it is the last one. Where `every` is 0 none is.
pub fn is_recorded(steps: u64, every: u64, t: u64) -> bool
    ensures { result ≡ is_recorded steps every t }
{
    every != 0 && (t % every == 0 || t == steps)
}

/// The trail of cells as they stand at their first step, with room for all notes to come.
pub(crate) fn first_notes(
    alloc: Global,
    cells: &OrderedRows,
    steps: u64,
    every: u64,
    step: u64,
) -> Result<Vec<Note>, NoMemory>
    requires few { length cells.now.order.places < 2 ^ 32 }
    requires few_steps { steps ≤ MOST_STEPS }
    requires in_time { step ≤ steps }
    ensures notes { IfOk result (λ trail. trail.items ≡ (if is_recorded steps every step then notes_of (rows_in cells.now) else [])) }
    ensures room { IfOk result (λ trail. length trail.items + length cells.now.order.places * recorded_after steps every step ≤ vec_capacity trail) }
{
    let mut trail = Vec::with_capacity(alloc, room_for(cells.count(), steps, every, step))?;
    note_step(&mut trail, cells, is_recorded(steps, every, step));
    Ok(trail)
}

// Room for the notes of so many cells, of step `from` and of all later ones.
fn room_for(cells: usize, steps: u64, every: u64, from: u64) -> usize
    requires few_cells { cells < 2 ^ 32 }
    requires few_steps { steps ≤ MOST_STEPS }
    requires in_time { from ≤ steps }
    ensures { cells * ((if is_recorded steps every from then 1 else 0) + recorded_after steps every from) ≤ result }
{
    if every == 0 {
        return 0;
    }
    let blocks = (steps / every).saturating_sub(from / every) + 2;
    cells * blocks as usize
}

/// Appends what is noted of these cells where their step is recorded. There is room for it.
pub(crate) fn note_step(trail: &mut Vec<Note>, cells: &OrderedRows, recorded: bool)
    requires few { length cells.now.order.places < 2 ^ 32 }
    requires room { IsTrue recorded → length trail.old.items + length cells.now.order.places ≤ vec_capacity trail.old }
    ensures notes { trail.new.items ≡ trail.old.items ++ (if recorded then notes_of (rows_in cells.now) else []) }
    ensures room { vec_capacity trail.old ≤ vec_capacity trail.new }
{
    if recorded {
        note_rows(trail, cells);
    }
}

// Appends what is noted of these cells.
fn note_rows(trail: &mut Vec<Note>, cells: &OrderedRows)
    requires few { length cells.now.order.places < 2 ^ 32 }
    requires room { length trail.old.items + length cells.now.order.places ≤ vec_capacity trail.old }
    ensures notes { trail.new.items ≡ trail.old.items ++ notes_of (rows_in cells.now) }
    ensures room { vec_capacity trail.old ≤ vec_capacity trail.new }
{
    for i in 0..cells.count() as u32 {
        trail.push_reserved(Note {
            n: cells.held(i),
            gone: cells.gone(i),
        });
    }
}
