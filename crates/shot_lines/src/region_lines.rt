ghost use Rattle.std.specs.Prelude.{◌≡◌, ◌++◌, OnOk, length, slice_index};
ghost use Rattle.std.specs.Io.{StartsWith};
ghost use Rattle.line_fields.specs.Fields.{lines_of};
ghost use Rattle.shot_lines.specs.ShotText.{region_line};

use line_fields::put_count;
use no_memory::NoMemory;

/// Appends a line for each region, by its step.
pub(crate) fn put_region_lines(text: &mut Vec<u8>, steps: &[u64]) -> Result<(), NoMemory>
    ensures lines { OnOk result (text.new.items ≡ text.old.items ++ lines_of (λ r. region_line r (slice_index steps.now r)) (length steps.now)) }
    ensures kept { StartsWith text.new.items text.old.items }
{
    for r in 0..steps.len() {
        put_region_line(text, r as u64, steps[r])?;
    }
    Ok(())
}

#[tactic(auto, unfolding(crate::specs::ShotText::region_line))]
fn put_region_line(text: &mut Vec<u8>, r: u64, step: u64) -> Result<(), NoMemory>
    ensures line { OnOk result (text.new.items ≡ text.old.items ++ region_line r step) }
    ensures kept { StartsWith text.new.items text.old.items }
{
    text.extend_from_slice(b"region")?;
    put_count(text, r)?;
    put_count(text, step)?;
    text.extend_from_slice(b"\n")?;
    Ok(())
}
