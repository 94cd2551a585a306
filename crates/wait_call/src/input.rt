ghost use Rattle.std.specs.Prelude.{◌≡◌, ◌≤◌, ◌+◌, ℕ, List, IfErr, IfOk, IfSome, OnOk, length};
ghost use Rattle.std.specs.Io.KnownBytes.{IsAtEnd};
ghost use Rattle.ctm_ports.specs.Count.{Rose};
ghost use Rattle.ctm_ports.specs.ReadEnd.{LosesAtMost};
ghost use Rattle.call_ending.specs.Refusing.{IsRefusalOf};
ghost use Rattle.network_file.specs.Limits.{most_bytes};
ghost use Rattle.wait_call.specs.Answer.{answer_to, why_in};

use call_ending::{Cause, Line, Refusal};
use ctm_ports::{ReadEnd, Source, read_up_to};
use network_file::MOST_BYTES;
use std::alloc::Global;

/// The whole source, where it has no more bytes than a network may have.
pub(crate) fn input_of<S: Source>(alloc: Global, source: &mut S) -> Result<Vec<u8>, Refusal>
    ensures input { IfOk result (λ input. IfSome (S.left source.old) (λ bytes. input.items ≡ bytes) × (length input.items ≤ most_bytes)) }
    ensures refusal { IfErr result (λ refusal. (input : List ℕ) × IfSome (S.left source.old) (λ bytes. input ≡ bytes)
        × IsRefusalOf (why_in (answer_to input)) (Rose (S.faults source.old) (S.faults source.new)) refusal) }
    ensures at_end { OnOk result (IsAtEnd (S.left source.new)) }
    ensures bounded { LosesAtMost (S.left source.old) (S.left source.new) (most_bytes + 1) }
{
    match read_up_to(alloc, source, MOST_BYTES) {
        ReadEnd::Whole(input) => Ok(input),
        ReadEnd::TooLong => Err(Refusal::Told(
            Cause::TooLarge,
            Line::Fixed(b"ctm: too large: input\n"),
        )),
        ReadEnd::Failed => Err(Refusal::ReadFault),
        ReadEnd::NoMemory => Err(Refusal::NoMemory),
    }
}
