ghost use Rattle.std.specs.Prelude.{◌≡◌, ◌+◌, ◌<◌, ◌≤◌, ◌∷◌, [], IfOk, IfSome, MatchOption, length, map};
ghost use Rattle.plan_choice.specs.Pieces.{pieces_in};

use crate::lines::{first_line, is_separator};
use no_memory::NoMemory;
use std::alloc::Global;

/// What stands before the first separator of a text and what stands behind it, where it has one.
pub(crate) fn split_once(text: &[u8]) -> Option<(&[u8], &[u8])>
    ensures pieces { MatchOption result (pieces_in text.now ≡ text.now ∷ []) (λ both. pieces_in text.now ≡ both.0.now ∷ pieces_in both.1.now) }
    ensures shorter { IfSome result (λ both. length both.1.now < length text.now) }
{
    let mut at = 0;
    while at < text.len() {
        let rest = &text[at..];
        let end = first_line(rest);
        if is_separator(&rest[..end]) {
            return Some((&text[..at], &rest[end..]));
        }
        at += end;
    }
    None
}

/// How many separators a text has.
pub(crate) fn separators(text: &[u8]) -> u64
    ensures count { length (pieces_in text.now) ≡ result + 1 }
    ensures few { result ≤ length text.now }
{
    let mut found = 0;
    let mut rest = text;
    while let Some((_, behind)) = split_once(rest) {
        found += 1;
        rest = behind;
    }
    found
}

/// What stands before, between and behind the separators of a text.
pub(crate) fn between_separators(alloc: Global, text: &[u8]) -> Result<Vec<&[u8]>, NoMemory>
    ensures { IfOk result (λ pieces. map (λ piece. piece.now) pieces.items ≡ pieces_in text.now) }
{
    let mut pieces = Vec::new(alloc);
    let mut rest = text;
    while let Some((piece, behind)) = split_once(rest) {
        pieces.push(piece)?;
        rest = behind;
    }
    pieces.push(rest)?;
    Ok(pieces)
}
