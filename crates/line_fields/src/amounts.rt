ghost use Rattle.std.specs.Prelude.{◌≡◌, ◌++◌, ℕ, OnOk, pos};
ghost use Rattle.std.specs.Io.{StartsWith};
ghost use Rattle.line_fields.specs.Fields.{amount_field};
ghost use Rattle.line_fields.specs.SignedFields.{signed_field};

use fixed_flow::{Amount, Text48, put_wide};
use no_memory::NoMemory;

/// Appends a comma and an amount, in parts.
pub fn put_amount(text: &mut Vec<u8>, parts: u64) -> Result<(), NoMemory>
    ensures field { OnOk result (text.new.items ≡ text.old.items ++ amount_field parts) }
    ensures kept { StartsWith text.new.items text.old.items }
{
    let mut amount = Text48::new();
    Amount(parts).put(&mut amount);
    text.extend_from_slice(b",")?;
    text.extend_from_slice(amount.bytes())?;
    Ok(())
}

/// Appends a comma and a sum of amounts, in parts, of either sign.
#[tactic(auto, unfolding(fixed_flow::specs::Signed::signed_amount_text))]
pub fn put_signed(text: &mut Vec<u8>, sum: i128) -> Result<(), NoMemory>
    ensures field { OnOk result (text.new.items ≡ text.old.items ++ signed_field sum) }

    // One that isn't negative is written as an amount.
    ensures amount { OnOk result ((parts : ℕ) → sum ≡ pos parts → text.new.items ≡ text.old.items ++ amount_field parts) }
    ensures kept { StartsWith text.new.items text.old.items }
{
    let mut amount = Text48::new();
    put_wide(sum, &mut amount);
    text.extend_from_slice(b",")?;
    text.extend_from_slice(amount.bytes())?;
    Ok(())
}
