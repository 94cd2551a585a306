ghost use Rattle.std.specs.Prelude.{◌≡◌, ◌++◌, OnOk, decimal};
ghost use Rattle.fixed_flow.specs.Printed.{amount_text};

use fixed_flow::{Amount, Text48};
use itoa::Buffer;
use no_memory::NoMemory;

/// Appends what stands before a number, and the number.
pub(crate) fn put_number(text: &mut Vec<u8>, before: &[u8], number: u32) -> Result<(), NoMemory>
    ensures { OnOk result (text.new.items ≡ text.old.items ++ before.now ++ decimal number) }
{
    let mut digits = Buffer::new();
    text.extend_from_slice(before)?;
    text.extend_from_slice(digits.format(number).as_bytes())?;
    Ok(())
}

/// Appends an amount.
pub(crate) fn put_amount(text: &mut Vec<u8>, parts: u32) -> Result<(), NoMemory>
    ensures { OnOk result (text.new.items ≡ text.old.items ++ amount_text parts) }
{
    let mut amount = Text48::new();
    Amount(u64::from(parts)).put(&mut amount);
    text.extend_from_slice(amount.bytes())?;
    Ok(())
}
