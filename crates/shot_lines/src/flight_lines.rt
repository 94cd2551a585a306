ghost use Rattle.std.specs.Prelude.{◌≡◌, ◌++◌, ◌<◌, OnOk, flat_map, length};
ghost use Rattle.std.specs.Io.{StartsWith};
ghost use Rattle.snapshot.specs.Shots.{crossing};
ghost use Rattle.shot_lines.specs.ShotText.{flight_line};

use flow_ledger::flight;
use flow_model::Row;
use line_fields::{put_count, put_signed};
use network_file::Net;
use no_memory::NoMemory;
use region_cut::{Layout, crosses};

/// Appends a line for each connector that touches cells of more than one region, by its flight.
pub(crate) fn put_flight_lines(
    text: &mut Vec<u8>,
    layout: &Layout,
    rows: &[Row],
) -> Result<(), NoMemory>
    requires rows { length rows.now ≡ length layout.now.net.cells }
    ensures lines { OnOk result (text.new.items ≡ text.old.items ++ flat_map (flight_line layout.now.net rows.now) (crossing layout.now.net layout.now.chart.cut)) }
    ensures kept { StartsWith text.new.items text.old.items }
{
    let net = layout.net();
    for k in 0..net.connectors.len() as u32 {
        if crosses(layout, k) {
            put_flight_line(text, net, rows, k)?;
        }
    }
    Ok(())
}

#[tactic(auto, unfolding(crate::specs::ShotText::flight_line))]
fn put_flight_line(text: &mut Vec<u8>, net: &Net, rows: &[Row], k: u32) -> Result<(), NoMemory>
    requires rows { length rows.now ≡ length net.now.cells }
    requires has_connector { k < length net.now.connectors }
    ensures line { OnOk result (text.new.items ≡ text.old.items ++ flight_line net.now rows.now k) }
    ensures kept { StartsWith text.new.items text.old.items }
{
    text.extend_from_slice(b"flight")?;
    put_count(text, u64::from(k))?;
    put_signed(text, flight(net, rows, k))?;
    text.extend_from_slice(b"\n")?;
    Ok(())
}
