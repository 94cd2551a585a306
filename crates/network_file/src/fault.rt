ghost use Rattle.std.specs.Prelude.{◌≡◌};
ghost use Rattle.network_file.specs.Refusals.{refusal_at};

use no_memory::Refused;
use record_fields::Code;

/// The first fault of a file: the record that has it, counted from 1, and why. A fault of the file as a whole
/// stands at one more than the number of records.
#[derive(Clone, Copy, Debug, PartialEq, Eq)]
pub struct NetFault {
    /// The number of the record, from 1; comments and empty lines are no records.
    pub place: u32,
    /// Why the record is refused.
    pub code: Code,
}

/// Why a file is refused, by why the record at a place was not taken.
pub(crate) fn refusal_at(place: u32, refusal: Refused<Code>) -> Refused<NetFault>
    ensures { result ≡ refusal_at place refusal }
{
    match refusal {
        Refused::Fault(code) => Refused::Fault(NetFault { place, code }),
        Refused::NoMemory => Refused::NoMemory,
    }
}
