ghost use Rattle.std.specs.Prelude.{◌≡◌, ◌+◌, ◌-◌, ◌^◌, ◌<◌, ◌≤◌, ◌++◌, OnOk, codes, decimal};
ghost use Rattle.net_make.specs.Made.{connector_line, connectors, text_of};

use crate::features::{has_off_ramp, has_on_ramp};
use crate::numbers::put_number;
use no_memory::NoMemory;

/// Appends the connectors, from the corridor's gate to its exit.
pub(crate) fn put_connectors(text: &mut Vec<u8>, size: u32) -> Result<(), NoMemory>
    requires { 1 ≤ size }
    ensures { OnOk result (text.new.items ≡ text.old.items ++ text_of (connectors size)) }
{
    text.extend_from_slice(b"link,g,m0\n")?;
    for i in 0..size - 1 {
        put_connector(text, size, i)?;
    }
    put_last_link(text, size)?;
    Ok(())
}

fn put_last_link(text: &mut Vec<u8>, size: u32) -> Result<(), NoMemory>
    requires { 1 ≤ size }
    ensures { OnOk result (text.new.items ≡ text.old.items ++ codes "link,m" ++ decimal (size - 1) ++ codes ",out\n") }
{
    put_number(text, b"link,m", size - 1)?;
    text.extend_from_slice(b",out\n")?;
    Ok(())
}

fn put_connector(text: &mut Vec<u8>, size: u32, i: u32) -> Result<(), NoMemory>
    requires { i + 1 < size }
    ensures { OnOk result (text.new.items ≡ text.old.items ++ connector_line size i ++ codes "\n") }
{
    if has_off_ramp(size, i) {
        put_diverge(text, i)
    } else if has_on_ramp(i + 1) {
        put_merge(text, i)
    } else {
        put_link(text, i)
    }
}

fn put_diverge(text: &mut Vec<u8>, i: u32) -> Result<(), NoMemory>
    requires { i + 1 < 2 ^ 32 }
    ensures { OnOk result (text.new.items ≡ text.old.items ++ codes "diverge,m" ++ decimal i ++ codes ",m" ++ decimal (i + 1) ++ codes ",f" ++ decimal i ++ codes ",4,1\n") }
{
    put_number(text, b"diverge,m", i)?;
    put_number(text, b",m", i + 1)?;
    put_number(text, b",f", i)?;
    text.extend_from_slice(b",4,1\n")?;
    Ok(())
}

fn put_merge(text: &mut Vec<u8>, i: u32) -> Result<(), NoMemory>
    requires { i + 1 < 2 ^ 32 }
    ensures { OnOk result (text.new.items ≡ text.old.items ++ codes "merge,m" ++ decimal i ++ codes ",r" ++ decimal (i + 1) ++ codes ",m" ++ decimal (i + 1) ++ codes ",3,1\n") }
{
    put_number(text, b"merge,m", i)?;
    put_number(text, b",r", i + 1)?;
    put_number(text, b",m", i + 1)?;
    text.extend_from_slice(b",3,1\n")?;
    Ok(())
}

fn put_link(text: &mut Vec<u8>, i: u32) -> Result<(), NoMemory>
    requires { i + 1 < 2 ^ 32 }
    ensures { OnOk result (text.new.items ≡ text.old.items ++ codes "link,m" ++ decimal i ++ codes ",m" ++ decimal (i + 1) ++ codes "\n") }
{
    put_number(text, b"link,m", i)?;
    put_number(text, b",m", i + 1)?;
    text.extend_from_slice(b"\n")?;
    Ok(())
}
