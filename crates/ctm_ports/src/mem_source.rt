use crate::calls::NumberedCalls;
use crate::source::{Piece, Source};
use crate::unread::Unread;
use std::marker::Model;

/// A source in memory that gives its bytes in chunks, and fails at chosen calls.
#[derive(Debug, Drop)]
pub struct MemSource {
    unread: Unread,
    chunk: usize,
    calls: NumberedCalls,
}

impl Model for MemSource {
    ghost use Rattle.std.specs.Prelude.{◌<◌};
    ghost use Rattle.ctm_ports.specs.MemSource.{Supply};

    ghost Value = { Supply };

    ghost view = { λ s. record { left = s.unread; chunk = s.chunk; calls = s.calls } };

    ghost invariant = { λ s. 0 < s.chunk };
}

impl MemSource {
    ghost use Rattle.std.specs.Prelude.{◌≡◌, ◌≤◌};
    ghost use Rattle.ctm_ports.specs.Calls.{no_calls};

    /// A source of these bytes. A read gives at most `chunk` of them, and the reads whose numbers,
    /// from 0, are in `fails` fail.
    pub fn new(bytes: Vec<u8>, chunk: usize, fails: Vec<u64>) -> MemSource
        requires { 1 ≤ chunk }
        ensures left { result.left ≡ bytes.items }
        ensures chunk { result.chunk ≡ chunk }
        ensures calls { result.calls ≡ no_calls fails.items }
    {
        MemSource {
            unread: Unread::new(bytes),
            chunk,
            calls: NumberedCalls::new(fails),
        }
    }
}

impl Source for MemSource {
    ghost use Rattle.std.specs.Prelude.{◌≡◌, ◌<◌, ◌≤◌, Some, [], ◌++◌, length, take};
    ghost use Rattle.ctm_ports.specs.Count.{Rose};
    ghost use Rattle.ctm_ports.specs.Piece.{IfGot, UnlessGot, OnEnd, OnFailed};
    ghost use Rattle.ctm_ports.specs.MemSource.{read_answer, after_read};

    ghost left = { λ s. Some s.left };

    ghost faults = { λ s. s.calls.faults };

    fn read(&mut self, room: &mut [u8]) -> Piece
        requires { 0 < length room.old }

        // What every source ensures.
        ensures size { IfGot result (λ n. (1 ≤ n) × (n ≤ length room.new)) }
        ensures got { IfGot result (λ n. self.old.left ≡ take n room.new ++ self.new.left) }
        ensures kept { UnlessGot result (self.new.left ≡ self.old.left) }
        ensures end { OnEnd result (self.old.left ≡ []) }
        ensures failed { OnFailed result (Rose self.old.calls.faults self.new.calls.faults) }
        ensures never_falls { self.old.calls.faults ≤ self.new.calls.faults }

        // What this one does at each call.
        ensures answer { result ≡ read_answer self.old (length room.old) }
        ensures supply { self.new ≡ after_read self.old result }
    {
        if self.calls.next_fails() {
            return Piece::Failed;
        }
        match self.unread.give(room, self.chunk) {
            0 => Piece::End,
            n => Piece::Got(n),
        }
    }
}
