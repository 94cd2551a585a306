ghost use Rattle.std.specs.Prelude.{◌≡◌, ◌<◌, ◌++◌, OnOk, codes, decimal};
ghost use Rattle.net_make.specs.Made.{main_cell_lines, cells, has_off_ramp, has_on_ramp, line_where, text_of};

use crate::features::{has_off_ramp, has_on_ramp};
use crate::numbers::put_number;
use no_memory::NoMemory;

/// Appends the cells behind the corridor's gate.
pub(crate) fn put_cells(text: &mut Vec<u8>, size: u32) -> Result<(), NoMemory>
    ensures { OnOk result (text.new.items ≡ text.old.items ++ text_of (cells size)) }
{
    for i in 0..size {
        put_cell(text, size, i)?;
    }
    text.extend_from_slice(b"exit,out,4\n")?;
    Ok(())
}

// Appends main cell `i` and its ramp.
fn put_cell(text: &mut Vec<u8>, size: u32, i: u32) -> Result<(), NoMemory>
    requires { i < size }
    ensures { OnOk result (text.new.items ≡ text.old.items ++ text_of (main_cell_lines size i)) }
{
    put_number(text, b"road,m", i)?;
    text.extend_from_slice(b",12,4,1,2,0\n")?;
    put_on_ramp(text, i)?;
    put_off_ramp(text, size, i)?;
    Ok(())
}

// Appends the on-ramp at main cell `i`, where there is one.
fn put_on_ramp(text: &mut Vec<u8>, i: u32) -> Result<(), NoMemory>
    ensures { OnOk result (text.new.items ≡ text.old.items ++ text_of (line_where (has_on_ramp i) (codes "gate,r" ++ decimal i ++ codes ",1,0"))) }
{
    if has_on_ramp(i) {
        put_number(text, b"gate,r", i)?;
        text.extend_from_slice(b",1,0\n")?;
    }
    Ok(())
}

// Appends the off-ramp at main cell `i`, where there is one.
fn put_off_ramp(text: &mut Vec<u8>, size: u32, i: u32) -> Result<(), NoMemory>
    requires { i < size }
    ensures { OnOk result (text.new.items ≡ text.old.items ++ text_of (line_where (has_off_ramp size i) (codes "exit,f" ++ decimal i ++ codes ",2"))) }
{
    if has_off_ramp(size, i) {
        put_number(text, b"exit,f", i)?;
        text.extend_from_slice(b",2\n")?;
    }
    Ok(())
}
