ghost use Rattle.std.specs.Prelude.{◌≡◌, ◌++◌, length, OnOk};
ghost use Rattle.delay_report.specs.Report.{total_line, totals};

use flow_ledger::{books, total_delay};
use flow_model::Row;
use line_fields::put_signed;
use network_file::Net;
use no_memory::NoMemory;

/// Appends the line of the totals: what is inside, what has entered and left, and the delay.
#[tactic(auto, unfolding(crate::specs::Report::total_line))]
pub(crate) fn put_total_line(text: &mut Vec<u8>, net: &Net, rows: &[Row]) -> Result<(), NoMemory>
    requires { length rows.now ≡ length net.now.cells }
    ensures { OnOk result (text.new.items ≡ text.old.items ++ total_line net.now rows.now) }
{
    text.extend_from_slice(b"total")?;
    put_totals(text, net, rows)?;
    text.extend_from_slice(b"\n")?;
    Ok(())
}

fn put_totals(text: &mut Vec<u8>, net: &Net, rows: &[Row]) -> Result<(), NoMemory>
    requires { length rows.now ≡ length net.now.cells }
    ensures { OnOk result (text.new.items ≡ text.old.items ++ totals net.now rows.now) }
{
    let _steps = net.steps;
    let books = books(net, rows);
    put_signed(text, books.inside)?;
    put_signed(text, books.entered)?;
    put_signed(text, books.left)?;
    put_signed(text, total_delay(rows) as i128)?;
    Ok(())
}
