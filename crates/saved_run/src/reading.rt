ghost use Rattle.std.specs.Prelude.{◌≡◌, ◌≤◌, Some, None, IfOk, IfSome, MatchOption, length};
ghost use Rattle.network_file.specs.declared.limits.TheConstants.{MOST_BYTES};
ghost use Rattle.saved_run.specs.Heads.{content_in};
ghost use Rattle.saved_run.specs.Reading.{content_of};

use crate::head::{row_lines, step_lines};
use crate::lines::counted_line;
use crate::saved_head::SavedHead;
use network_file::{MOST_BYTES, MOST_REGIONS};
use no_memory::NoMemory;
use std::alloc::Global;

/// The content of a saved text, its network apart; any other text has none.
#[tactic(auto, unfolding(crate::specs::Reading::content_of))]
pub(crate) fn read_content(
    alloc: Global,
    bytes: &[u8],
) -> Result<Option<(SavedHead, &[u8])>, NoMemory>
    ensures content { IfOk result (λ found. MatchOption found (content_of bytes.now ≡ None)
        (λ content. content_of bytes.now ≡ Some (content_in content.0 content.1.now))) }
    ensures few { IfOk result (λ found. IfSome found (λ content. length content.1.now ≤ MOST_BYTES)) }
{
    let Some((regions, text)) = counted_line(b"saved,1", bytes) else {
        return Ok(None);
    };
    if regions == 0 || regions > u64::from(MOST_REGIONS) {
        return Ok(None);
    }
    let Some((steps, text)) = step_lines(alloc, regions, text)? else {
        return Ok(None);
    };
    let Some((rows, network)) = row_lines(alloc, text)? else {
        return Ok(None);
    };
    if network.len() > MOST_BYTES {
        return Ok(None);
    }
    Ok(Some((SavedHead { steps, rows }, network)))
}
