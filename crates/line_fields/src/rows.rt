ghost use Rattle.std.specs.Prelude.{◌≡◌, ◌++◌, OnOk};
ghost use Rattle.std.specs.Io.{StartsWith};
ghost use Rattle.line_fields.specs.Fields.{row_fields};

use crate::amounts::put_amount;
use flow_model::Row;
use no_memory::NoMemory;

/// Appends a cell's name and the fields of its row: what it holds, what has come and gone, in parts, and its wait, in
/// parts times steps.
#[tactic(auto, unfolding(crate::specs::Fields::row_fields))]
pub fn put_row_fields(text: &mut Vec<u8>, name: &[u8], row: &Row) -> Result<(), NoMemory>
    ensures fields { OnOk result (text.new.items ≡ text.old.items ++ row_fields name.now row.now) }
    ensures kept { StartsWith text.new.items text.old.items }
{
    text.extend_from_slice(name)?;
    put_amount(text, row.n)?;
    put_amount(text, row.come)?;
    put_amount(text, row.gone)?;
    put_amount(text, row.wait)?;
    Ok(())
}
