use std::marker::Model;

/// Bytes of which some were given already.
#[derive(Debug, Drop)]
pub(crate) struct Unread {
    bytes: Vec<u8>,
    at: usize,
}

impl Model for Unread {
    ghost use Rattle.std.specs.Prelude.{ℕ, ◌≤◌, List, drop, vec_len};

    ghost Value = { List ℕ };

    ghost view = { λ u. drop u.at u.bytes.items };

    ghost invariant = { λ u. u.at ≤ vec_len u.bytes };
}

impl Unread {
    ghost use Rattle.std.specs.Prelude.{◌≡◌, length, min, take, drop};

    pub(crate) fn new(bytes: Vec<u8>) -> Unread
        ensures { result ≡ bytes.items }
    {
        Unread { bytes, at: 0 }
    }

    /// Copies the next bytes to the front of the room, at most `most` of them, and says how many.
    pub(crate) fn give(&mut self, room: &mut [u8], most: usize) -> usize
        ensures size { result ≡ min (min (length room.old) most) (length self.old) }
        ensures given { take result room.new ≡ take result self.old }
        ensures left { self.new ≡ drop result self.old }
    {
        let n = room.len().min(most).min(self.bytes.len() - self.at);
        room[..n].copy_from_slice(&self.bytes[self.at..self.at + n]);
        self.at += n;
        n
    }
}
