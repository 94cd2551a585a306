ghost use Rattle.std.specs.Prelude.{◌≡◌, ◌++◌, ◌<◌, ◌^◌, ℕ, All, OnOk, codes, flat_map, length};
ghost use Rattle.line_fields.specs.Fields.{lines_of};
ghost use Rattle.snapshot.specs.Rooms.{IsRoomFor};
ghost use Rattle.saved_run.specs.Content.{IsRowLine};
ghost use Rattle.saved_run.specs.SavedText.{counted_line, row_line};
ghost use Rattle.saved_run.specs.Shown.{line_shown};

use crate::row_line::RowLine;
use flow_model::Row;
use line_fields::put_count;
use no_memory::NoMemory;
use region_cut::Layout;
use snapshot::ShotRoom;

/// Appends a line of a word and a count.
#[tactic(auto, unfolding(crate::specs::SavedText::counted_line))]
pub(crate) fn put_counted_line(text: &mut Vec<u8>, word: &[u8], count: u64) -> Result<(), NoMemory>
    ensures { OnOk result (text.new.items ≡ text.old.items ++ counted_line word.now count) }
{
    text.extend_from_slice(word)?;
    put_count(text, count)?;
    text.extend_from_slice(b"\n")?;
    Ok(())
}

/// Appends a line for each region, by its step.
pub(crate) fn put_step_lines(text: &mut Vec<u8>, steps: &[u64]) -> Result<(), NoMemory>
    ensures lines { OnOk result (text.new.items ≡ text.old.items ++ flat_map (counted_line (codes "step")) steps.now) }
    ensures numbers { OnOk result (All (λ step. step < 2 ^ 64) steps.now) }
{
    for step in steps {
        put_counted_line(text, b"step", *step)?;
    }
    Ok(())
}

/// Appends a line for each cell that the room shows.
pub(crate) fn put_row_lines(
    text: &mut Vec<u8>,
    layout: &Layout,
    room: &ShotRoom,
) -> Result<(), NoMemory>
    requires room { IsRoomFor layout.now.chart room.now }
    requires few { length layout.now.chart.cut < 2 ^ 32 }
    ensures lines { OnOk result (text.new.items ≡ text.old.items ++ lines_of (λ i. row_line (line_shown layout.now.chart.cut room.now i)) (length layout.now.chart.cut)) }
    ensures numbers { OnOk result ((i : ℕ) → i < length layout.now.chart.cut → IsRowLine (line_shown layout.now.chart.cut room.now i)) }
{
    for i in 0..room.rows().len() as u32 {
        put_row_line(text, &line_of(layout, room, i))?;
    }
    Ok(())
}

// What is saved of cell `i`.
fn line_of(layout: &Layout, room: &ShotRoom, i: u32) -> RowLine
    requires room { IsRoomFor layout.now.chart room.now }
    requires there { i < length layout.now.chart.cut }
    ensures line { result ≡ line_shown layout.now.chart.cut room.now i }
    ensures numbers { IsRowLine result }
{
    let row = room.rows()[i as usize];
    let earlier = room.earlier()[i as usize];
    line(layout.region_of(i), row, earlier)
}

// The line of a cell of a region, whose numbers are those of machine words.
fn line(region: u32, row: Row, earlier: u64) -> RowLine
    ensures line { result ≡ record { region = region; row = row; earlier = earlier } }
    ensures numbers { IsRowLine result }
{
    RowLine {
        region: u64::from(region),
        row,
        earlier,
    }
}

#[tactic(auto, unfolding(crate::specs::SavedText::row_line))]
fn put_row_line(text: &mut Vec<u8>, line: &RowLine) -> Result<(), NoMemory>
    ensures { OnOk result (text.new.items ≡ text.old.items ++ row_line line.now) }
{
    text.extend_from_slice(b"row")?;
    put_count(text, line.region)?;
    put_count(text, line.row.n)?;
    put_count(text, line.row.come)?;
    put_count(text, line.row.gone)?;
    put_count(text, line.row.wait)?;
    put_count(text, line.earlier)?;
    text.extend_from_slice(b"\n")?;
    Ok(())
}
