ghost use Rattle.std.specs.Prelude.{◌≡◌, ◌++◌, OnErr, OnOk, length};
ghost use Rattle.std.specs.Io.{StartsWith};
ghost use Rattle.snapshot.specs.Rooms.{IsRoomFor};
ghost use Rattle.shot_lines.specs.ShotText.{books_line, shot_lines};

use crate::cell_row_lines::put_cell_row_lines;
use crate::flight_lines::put_flight_lines;
use crate::region_lines::put_region_lines;
use flow_ledger::Books;
use line_fields::{put_count, put_signed};
use no_memory::NoMemory;
use region_cut::Layout;
use snapshot::ShotRoom;

/// Appends shot `number` of a room (docs/FORMAT.md, "The shots"): its books, the step of each region, the flight of each
/// connector between regions, and the row of each cell. Where memory is refused the text is as it was.
pub fn shot_text(
    layout: &Layout,
    room: &ShotRoom,
    number: u32,
    text: &mut Vec<u8>,
) -> Result<(), NoMemory>
    requires room { IsRoomFor layout.now.chart room.now }
    ensures text { OnOk result (text.new.items ≡ text.old.items ++ shot_lines layout.now.net layout.now.chart.cut number room.now.steps room.now.rows) }
    ensures unchanged { OnErr result (text.new.items ≡ text.old.items) }
{
    let before = text.len();
    let done = put_shot(text, layout, room, number);
    if done.is_err() {
        text.truncate(before);
    }
    done
}

#[tactic(auto, unfolding(crate::specs::ShotText::shot_lines))]
fn put_shot(
    text: &mut Vec<u8>,
    layout: &Layout,
    room: &ShotRoom,
    number: u32,
) -> Result<(), NoMemory>
    requires room { IsRoomFor layout.now.chart room.now }
    ensures lines { OnOk result (text.new.items ≡ text.old.items ++ shot_lines layout.now.net layout.now.chart.cut number room.now.steps room.now.rows) }
    ensures kept { StartsWith text.new.items text.old.items }
{
    let net = layout.net();
    put_books_line(text, number, &room.books(net))?;
    put_region_lines(text, room.steps())?;
    put_flight_lines(text, layout, room.rows())?;
    put_cell_row_lines(text, &net.cells, room.rows())?;
    Ok(())
}

#[tactic(auto, unfolding(crate::specs::ShotText::books_line))]
fn put_books_line(text: &mut Vec<u8>, number: u32, books: &Books) -> Result<(), NoMemory>
    ensures line { OnOk result (text.new.items ≡ text.old.items ++ books_line number books.now) }
    ensures kept { StartsWith text.new.items text.old.items }
{
    text.extend_from_slice(b"shot")?;
    put_count(text, u64::from(number))?;
    put_signed(text, books.inside)?;
    put_signed(text, books.flight)?;
    put_signed(text, books.initial)?;
    put_signed(text, books.entered)?;
    put_signed(text, books.left)?;
    text.extend_from_slice(b"\n")?;
    Ok(())
}
