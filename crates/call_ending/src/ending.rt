ghost use Rattle.std.specs.Prelude.{◌≡◌, IfErr, IfOk};
ghost use Rattle.call_ending.specs.Calls.{sink_use};
ghost use Rattle.call_ending.specs.Ending.{HasLine};
ghost use Rattle.call_ending.specs.Refusing.{line_of, status_of};
ghost use Rattle.call_ending.specs.Writing.{IsUnwritten, IsWritten};

use crate::refusal::Refusal;
use crate::status::Status;
use ctm_ports::{Sink, Written, write_all};

/// Ends a call: writes its text on `out`, or tells on `err` why there is none or why it wasn't written.
pub fn end<O: Sink, E: Sink>(answer: Result<Vec<u8>, Refusal>, out: &mut O, err: &mut E) -> Status
    ensures text { IfOk answer (λ text. IsWritten text.items result (sink_use O.taken O.faults O.wants out.old out.new) (sink_use E.taken E.faults E.wants err.old err.new)) }
    ensures refusal { IfErr answer (λ refusal. IsUnwritten (status_of refusal) (line_of refusal) result (sink_use O.taken O.faults O.wants out.old out.new) (sink_use E.taken E.faults E.wants err.old err.new)) }
{
    match answer {
        Ok(text) => match write_all(out, &text) {
            Written::All => Status::Done,
            Written::Failed => tell(&Refusal::WriteFault, err),
            Written::NoMemory => tell(&Refusal::NoMemory, err),
        },
        Err(refusal) => tell(&refusal, err),
    }
}

/// Tells on `err` why a call has no text, and gives the status with which it ends.
pub fn tell<E: Sink>(refusal: &Refusal, err: &mut E) -> Status
    ensures status { result ≡ status_of refusal.now }
    ensures told { HasLine (line_of refusal.now) (sink_use E.taken E.faults E.wants err.old err.new) }
{
    write_all(err, refusal.line());
    refusal.status()
}
