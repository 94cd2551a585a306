ghost use Rattle.std.specs.Prelude.{◌≡◌, ◌*◌, Some, codes, length, nat_lt};
ghost use Rattle.delay_report.specs.Report.{recorded_count};
ghost use Rattle.call_ending.specs.Refusing.{IsRefusalOf};
ghost use Rattle.call_ending.specs.declared.status.Status.TheVariants as status;

use call_ending::{Cause, Line, Refusal};
use delay_report::recorded_steps;
use network_file::Net;

/// The most values that a run may record: cells times recorded steps.
const MOST_RECORDED: u64 = 4_000_000;

/// Whether a run that is recorded every so many steps would record more.
pub fn records_too_much(net: &Net, every: u64) -> bool
    ensures { result ≡ nat_lt 4_000_000 (length net.now.cells * recorded_count net.now.steps every) }
{
    net.cells.len() as u64 * recorded_steps(net, every) > MOST_RECORDED
}

/// The refusal of a run that would record more.
pub fn large_record() -> Refusal
    ensures { IsRefusalOf (Some (record { status = status.TooLarge; line = codes "ctm: too large: record\n" })) ⊥ result }
{
    Refusal::Told(Cause::TooLarge, Line::Fixed(b"ctm: too large: record\n"))
}
