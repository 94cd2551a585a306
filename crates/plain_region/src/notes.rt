ghost use Rattle.std.specs.Prelude.{◌≡◌, ◌+◌, ◌≤◌, ◌++◌, [], IsTrue, OnOk, if◌then◌else◌, length, vec_capacity};
ghost use Rattle.region_step.specs.Noting.{notes_of};

use flow_model::Row;
use no_memory::NoMemory;
use region_step::Note;

/// Makes room for a note for each of so many cells, where their step is recorded. It changes no note.
pub(crate) fn make_room(trail: &mut Vec<Note>, cells: usize, recorded: bool) -> Result<(), NoMemory>
    ensures room { OnOk result (IsTrue recorded → length trail.new.items + cells ≤ vec_capacity trail.new) }
    ensures unchanged { trail.new.items ≡ trail.old.items }
{
    if recorded {
        trail.reserve(cells)?;
    }
    Ok(())
}

/// Appends what is noted of these rows where their step is recorded. There is room for it.
pub(crate) fn note_step(trail: &mut Vec<Note>, rows: &[Row], recorded: bool)
    requires room { IsTrue recorded → length trail.old.items + length rows.now ≤ vec_capacity trail.old }
    ensures { trail.new.items ≡ trail.old.items ++ (if recorded then notes_of rows.now else []) }
{
    if recorded {
        note_rows(trail, rows);
    }
}

// Appends what is noted of these rows.
fn note_rows(trail: &mut Vec<Note>, rows: &[Row])
    requires room { length trail.old.items + length rows.now ≤ vec_capacity trail.old }
    ensures { trail.new.items ≡ trail.old.items ++ notes_of rows.now }
{
    for row in rows {
        let _ = trail.push(Note {
            n: row.n,
            gone: row.gone,
        });
    }
}
