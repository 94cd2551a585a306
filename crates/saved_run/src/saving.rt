ghost use Rattle.std.specs.Prelude.{◌≡◌, ◌<◌, ◌≤◌, ◌^◌, IfOk, IsSomeAnd, Some, length};
ghost use Rattle.network_file.specs.declared.limits.TheConstants.{MOST_BYTES};
ghost use Rattle.snapshot.specs.Rooms.{IsRoomFor};
ghost use Rattle.network_file.specs.Network.{Network};
ghost use Rattle.region_step.specs.Start.{StartLists, zero_start};
ghost use Rattle.saved_run.specs.Futures.{IsMoment};
ghost use Rattle.saved_run.specs.Laws.{HasTrueStart, IsTrueShot};
ghost use Rattle.saved_run.specs.Loading.{start_in};
ghost use Rattle.saved_run.specs.Reading.{content_of};
ghost use Rattle.saved_run.specs.SavedLength.{most_saved};
ghost use Rattle.saved_run.specs.SavedText.{saved_text};
ghost use Rattle.saved_run.specs.Shown.{content_shown};

use crate::saved_lines::{put_counted_line, put_row_lines, put_step_lines};
use no_memory::NoMemory;
use region_cut::Layout;
use snapshot::ShotRoom;
use std::alloc::Global;

/// The saved text of a room that was made for this chart, and of the bytes of the network's file.
#[tactic(auto, unfolding(crate::specs::SavedText::saved_text))]
pub fn save(
    alloc: Global,
    layout: &Layout,
    room: &ShotRoom,
    network: &[u8],
) -> Result<Vec<u8>, NoMemory>
    requires room { IsRoomFor layout.now.chart room.now }
    requires few { length layout.now.chart.cut < 2 ^ 32 }
    requires network { length network.now ≤ MOST_BYTES }
    ensures text { IfOk result (λ text. text.items ≡ saved_text (content_shown layout.now.chart.cut room.now network.now)) }

    // It is no longer than 39,390,544 bytes.
    ensures short { IfOk result (λ text. length text.items ≤ most_saved) }

    // It is read as the same content.
    ensures reads { IfOk result (λ text. content_of text.items ≡ Some (content_shown layout.now.chart.cut room.now network.now)) }

    // A shot from a true start is saved as a true start.
    ensures true_start { IfOk result (λ text. (net : Network) (start : StartLists) → IsTrueShot network.now net layout.now.chart.cut start room.now →
        IsSomeAnd (content_of text.items) (λ content. HasTrueStart content net layout.now.chart.cut)) }

    // A shot of a run from step 0 is a moment of it, from which other networks can go on too.
    ensures moment { IfOk result (λ _. (net : Network) → IsTrueShot network.now net layout.now.chart.cut (zero_start net layout.now.chart.cut) room.now →
        IsMoment net layout.now.chart.cut (start_in (content_shown layout.now.chart.cut room.now network.now))) }
{
    let net = layout.net();
    let _steps = net.steps;
    let mut text = Vec::new(alloc);
    put_counted_line(&mut text, b"saved,1", u64::from(layout.regions()))?;
    put_step_lines(&mut text, room.steps())?;
    put_row_lines(&mut text, layout, room)?;
    text.extend_from_slice(b"net\n")?;
    text.extend_from_slice(network)?;
    Ok(text)
}
