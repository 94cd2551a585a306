ghost use Rattle.std.specs.Prelude.{◌≡◌, ◌++◌, OnOk};
ghost use Rattle.std.specs.Io.{StartsWith};
ghost use Rattle.line_fields.specs.Fields.{count_field};

use itoa::Buffer;
use no_memory::NoMemory;

/// Appends a comma and a count, in decimal digits.
pub fn put_count(text: &mut Vec<u8>, count: u64) -> Result<(), NoMemory>
    ensures field { OnOk result (text.new.items ≡ text.old.items ++ count_field count) }
    ensures kept { StartsWith text.new.items text.old.items }
{
    let mut digits = Buffer::new();
    text.extend_from_slice(b",")?;
    text.extend_from_slice(digits.format(count).as_bytes())?;
    Ok(())
}
