ghost use Rattle.std.specs.Prelude.{◌≡◌, ◌≤◌, ℕ, List, IfErr, IfOk, OnOk, Some, false, length, true};
ghost use Rattle.ctm_ports.specs.Count.{Rose};
ghost use Rattle.ctm_ports.specs.ReadEnd.{LosesAtMost};
ghost use Rattle.command_words.specs.Words.{IsInRange};
ghost use Rattle.net_make.specs.Made.{made};
ghost use Rattle.call_ending.specs.Refusing.{IsRefusalOf};
ghost use Rattle.call_beginning.specs.Input.{IsInputOf, IsReadWhole, asks_source, large_input, most_input, most_read, reads_source, why_long};

use call_ending::{Cause, Line, Refusal};
use command_words::{Mode, Request};
use ctm_ports::{ReadEnd, Source, read_up_to};
use net_make::make;
use network_file::MOST_BYTES;
use std::alloc::Global;

/// The most bytes that a saved text may have which is gone on from.
const MOST_SAVED_BYTES: usize = 67_108_864;

/// The input of a request: the whole source, or for `sample` the network that it makes.
pub fn input_of<S: Source>(
    alloc: Global,
    request: Request,
    source: &mut S,
) -> Result<Vec<u8>, Refusal>
    requires in_range { IsInRange request }
    ensures input { IfOk result (λ input. IsInputOf (Some request) (S.left source.old) input.items × (length input.items ≤ most_input request.mode)) }
    ensures refusal { IfErr result (λ refusal. (input : List ℕ) × IsInputOf (Some request) (S.left source.old) input
        × IsRefusalOf (why_long request.mode input) ((asks_source (Some request) ≡ true) × Rose (S.faults source.old) (S.faults source.new)) refusal) }
    ensures unread { asks_source (Some request) ≡ false → source.new ≡ source.old }
    ensures at_end { OnOk result (IsReadWhole (Some request) (S.left source.new)) }
    ensures bounded { LosesAtMost (S.left source.old) (S.left source.new) (most_read (Some request)) }
{
    if !reads_source(request.mode) {
        return match made_input(alloc, request) {
            Ok(input) => Ok(input),
            Err(refusal) => Err(refusal),
        };
    }
    match read_up_to(alloc, source, most_input(request.mode)) {
        ReadEnd::Whole(input) => Ok(input),
        ReadEnd::TooLong => Err(large_input()),
        ReadEnd::Failed => Err(Refusal::ReadFault),
        ReadEnd::NoMemory => Err(Refusal::NoMemory),
    }
}

// Whether the source has the input of a mode.
fn reads_source(mode: Mode) -> bool
    ensures { result ≡ reads_source mode }
{
    match mode {
        Mode::Run | Mode::Watch | Mode::Save | Mode::Resume => true,
        Mode::Choose | Mode::Recut | Mode::Cut => true,
        Mode::Check | Mode::Convert => true,
        Mode::Sample => false,
    }
}

// The most bytes that the input of a mode may have.
fn most_input(mode: Mode) -> usize
    ensures { result ≡ most_input mode }
{
    match mode {
        Mode::Run | Mode::Watch | Mode::Sample | Mode::Save => MOST_BYTES,
        Mode::Choose | Mode::Recut | Mode::Cut => MOST_BYTES,
        Mode::Check | Mode::Convert => MOST_BYTES,
        Mode::Resume => MOST_SAVED_BYTES,
    }
}

// The refusal of an input that has more.
fn large_input() -> Refusal
    ensures { IsRefusalOf (Some large_input) ⊥ result }
{
    Refusal::Told(Cause::TooLarge, Line::Fixed(b"ctm: too large: input\n"))
}

// The made network, unless it is longer than an input may be.
fn made_input(alloc: Global, request: Request) -> Result<Vec<u8>, Refusal>
    requires in_range { IsInRange request }
    ensures input { IfOk result (λ input. (input.items ≡ made request.size request.seed) × (length input.items ≤ most_input request.mode)) }
    ensures refusal { IfErr result (IsRefusalOf (why_long request.mode (made request.size request.seed)) ⊥) }
{
    let input = make(alloc, request.size, request.seed)?;
    if input.len() > most_input(request.mode) {
        return Err(large_input());
    }
    Ok(input)
}
