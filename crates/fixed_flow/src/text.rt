ghost use Rattle.std.specs.Prelude.{◌≡◌, ℕ, ◌+◌, ◌<◌, ◌≤◌, List, [], ◌∷◌, ◌++◌, length, take};

use std::marker::Model;

// The room of a text.
const ROOM: usize = 48;

/// A text of at most 48 bytes, kept in place.
#[derive(Debug, Drop)]
pub struct Text48 {
    room: [u8; ROOM],
    length: usize,
}

impl Model for Text48 {
    ghost Value = { List ℕ };

    ghost view = { λ t. take t.length t.room };

    ghost invariant = { λ t. t.length ≤ 48 };
}

impl Text48 {
    /// The empty text.
    pub fn new() -> Self
        ensures { result ≡ [] }
    {
        Text48 {
            room: [0; ROOM],
            length: 0,
        }
    }

    /// The bytes of the text.
    pub fn bytes(&self) -> &[u8]
        ensures bytes { result.now ≡ self.now }
        ensures short { length result.now ≤ 48 }
    {
        &self.room[..self.length]
    }

    pub(crate) fn clear(&mut self)
        ensures { self.new ≡ [] }
    {
        self.length = 0;
    }

    pub(crate) fn push(&mut self, byte: u8)
        requires { length self.old < 48 }
        ensures { self.new ≡ self.old ++ byte ∷ [] }
    {
        self.room[self.length] = byte;
        self.length += 1;
    }

    pub(crate) fn append(&mut self, bytes: &[u8])
        requires { length self.old + length bytes.now ≤ 48 }
        ensures { self.new ≡ self.old ++ bytes.now }
    {
        let end = self.length + bytes.len();
        self.room[self.length..end].copy_from_slice(bytes);
        self.length = end;
    }
}

impl Default for Text48 {
    ghost is_default = { λ t. t ≡ [] };

    fn default() -> Self {
        Text48::new()
    }
}
