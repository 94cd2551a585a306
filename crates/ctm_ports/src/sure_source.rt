use crate::source::{Piece, Source};
use crate::unread::Unread;
use std::marker::Model;

/// A source in memory that never fails, and gives as much as there is room for.
#[derive(Debug, Drop)]
pub struct SureSource {
    unread: Unread,
}

impl Model for SureSource {
    ghost use Rattle.std.specs.Prelude.{ℕ, List};

    ghost Value = { List ℕ };

    ghost view = { λ s. s.unread };
}

impl SureSource {
    ghost use Rattle.std.specs.Prelude.{◌≡◌};

    /// A source of these bytes.
    pub fn new(bytes: Vec<u8>) -> SureSource
        ensures { result ≡ bytes.items }
    {
        SureSource {
            unread: Unread::new(bytes),
        }
    }
}

impl Source for SureSource {
    ghost use Rattle.std.specs.Prelude.{◌≡◌, ◌<◌, ◌≤◌, Some, [], ◌++◌, length, min, take};
    ghost use Rattle.ctm_ports.specs.Piece.{IfGot, UnlessGot, OnEnd, OnFailed, piece_of};

    ghost left = { λ s. Some s };

    ghost faults = { λ _. 0 };

    fn read(&mut self, room: &mut [u8]) -> Piece
        requires { 0 < length room.old }

        // What every source ensures.
        ensures size { IfGot result (λ n. (1 ≤ n) × (n ≤ length room.new)) }
        ensures got { IfGot result (λ n. self.old ≡ take n room.new ++ self.new) }
        ensures kept { UnlessGot result (self.new ≡ self.old) }
        ensures end { OnEnd result (self.old ≡ []) }
        ensures sure { OnFailed result ⊥ }

        // What this one answers.
        ensures answer { result ≡ piece_of (min (length room.old) (length self.old)) }
    {
        match self.unread.give(room, room.len()) {
            0 => Piece::End,
            n => Piece::Got(n),
        }
    }
}
