ghost use Rattle.std.specs.Prelude.{◌≡◌, ℕ, ◌+◌, ◌<◌, ◌≤◌, length, IfSome};
ghost use Rattle.std.specs.Io.KnownBytes.{IsAtEnd};
ghost use Rattle.ctm_ports.specs.Count.{Rose};
ghost use Rattle.ctm_ports.specs.ReadEnd.{IfWhole, OnTooLong, OnFailed, LosesAtMost};

use crate::source::{Piece, Source};
use std::alloc::Global;

/// How the reading of a whole source ends.
#[derive(Debug, Drop)]
pub enum ReadEnd {
    /// All the bytes of the source, which is at its end.
    Whole(Vec<u8>),
    /// The source has more bytes than the limit.
    TooLong,
    /// A read failed.
    Failed,
    /// There was no memory for the bytes.
    NoMemory,
}

// The most bytes that one read asks for.
const ROOM: usize = 16 * 1024;

/// Reads a source to its end, or to one byte past the limit, which is a number of bytes. A source that
/// gives bytes for ever is too long.
pub fn read_up_to<S: Source>(alloc: Global, source: &mut S, limit: usize) -> ReadEnd
    ensures whole { IfWhole result (λ bytes. IfSome (S.left source.old) (λ left. bytes ≡ left)) }
    ensures at_end { IfWhole result (λ bytes. IsAtEnd (S.left source.new)) }
    ensures within { IfWhole result (λ bytes. length bytes ≤ limit) }
    ensures too_long { OnTooLong result (IfSome (S.left source.old) (λ left. limit < length left)) }
    ensures failed { OnFailed result (Rose (S.faults source.old) (S.faults source.new)) }

    // Whatever the answer.
    ensures bounded { LosesAtMost (S.left source.old) (S.left source.new) (limit + 1) }
    ensures never_falls { S.faults source.old ≤ S.faults source.new }
{
    let mut room = [0; ROOM];
    let mut bytes = Vec::new(alloc);
    while bytes.len() <= limit {
        let most = (limit - bytes.len()).min(ROOM - 1) + 1;
        match source.read(&mut room[..most]) {
            Piece::Got(n) => {
                if bytes.extend_from_slice(&room[..n]).is_err() {
                    return ReadEnd::NoMemory;
                }
            }
            Piece::End => return ReadEnd::Whole(bytes),
            Piece::Failed => return ReadEnd::Failed,
        }
    }
    ReadEnd::TooLong
}
