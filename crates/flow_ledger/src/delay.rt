ghost use Rattle.std.specs.Prelude.{◌≡◌, ◌*◌, ◌≤◌, ◌^◌, length};
ghost use Rattle.flow_model.specs.State.{delay_of};

use flow_model::Row;

/// The delay of all cells, in parts times steps: the sum of their waits.
pub fn total_delay(rows: &[Row]) -> u128
    ensures sum { result ≡ delay_of rows.now }
    ensures most { result ≤ length rows.now * 2 ^ 64 }
{
    let mut sum = 0u128;
    for row in rows {
        sum += u128::from(row.wait);
    }
    sum
}
