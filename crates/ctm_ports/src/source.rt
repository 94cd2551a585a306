ghost use Rattle.std.specs.Prelude.{◌≡◌, ℕ, ◌<◌, ◌≤◌, List, Option, length, take};
ghost use Rattle.std.specs.Io.KnownBytes.{Consumes, IsAtEnd, Keeps};
ghost use Rattle.ctm_ports.specs.Count.{Rose};
ghost use Rattle.ctm_ports.specs.Piece.{IfGot, UnlessGot, OnEnd, OnFailed};

/// What a read answers.
#[derive(Clone, Copy, Debug, PartialEq, Eq)]
pub enum Piece {
    /// So many bytes stand at the front of the room.
    Got(usize),
    /// No byte is left.
    End,
    /// The read failed; a later one may succeed.
    Failed,
}

/// What gives bytes, piece by piece.
pub trait Source {
    // The bytes still to come, where the source tells them.
    ghost left: { Self → Option (List ℕ) };

    // How many reads failed, a count that never falls.
    ghost faults: { Self → ℕ };

    /// Reads the next bytes into the room. What stands past them in the room is unspecified.
    fn read(&mut self, room: &mut [u8]) -> Piece
        requires { 0 < length room.old }
        ensures size { IfGot result (λ n. (1 ≤ n) × (n ≤ length room.new)) }
        ensures got { IfGot result (λ n. Consumes (left self.old) (left self.new) (take n room.new)) }
        ensures kept { UnlessGot result (Keeps (left self.old) (left self.new)) }
        ensures end { OnEnd result (IsAtEnd (left self.new)) }
        ensures failed { OnFailed result (Rose (faults self.old) (faults self.new)) }
        ensures never_falls { faults self.old ≤ faults self.new };
}
