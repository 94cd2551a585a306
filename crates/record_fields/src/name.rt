ghost use Rattle.std.specs.Prelude.{◌≡◌, true};
ghost use Rattle.std.specs.List.{list_all};
ghost use Rattle.record_fields.specs.CellName.{allowed_in_name, is_name};

use std::marker::Model;

// The most bytes of a name.
const LONGEST: usize = 32;

/// The name of a cell: 1 to 32 bytes, each an ASCII letter, an ASCII digit, `_`, `-` or `.`. It is kept in place, so
/// that it takes no memory of its own.
#[derive(Drop)]
pub struct Name {
    room: [u8; LONGEST],
    length: u8,
}

impl Model for Name {
    ghost use Rattle.std.specs.Prelude.{◌≡◌, ◌≤◌, true, List, ℕ, take};
    ghost use Rattle.record_fields.specs.CellName.{is_name};

    ghost Value = { List ℕ };

    ghost view = { λ a. take a.length a.room };

    ghost invariant = { λ a. (a.length ≤ 32) × (is_name (take a.length a.room) ≡ true) };
}

impl Name {
    /// Its bytes, as they stand in the file.
    pub fn bytes(&self) -> &[u8]
        ensures bytes { result.now ≡ self.now }
        ensures spelled { is_name self.now ≡ true }
    {
        &self.room[..self.length as usize]
    }

    /// Whether a text is spelled as a name.
    #[tactic(auto, unfolding(crate::specs::CellName::is_name))]
    pub fn is_spelled(text: &[u8]) -> bool
        ensures { result ≡ is_name text.now }
    {
        1 <= text.len() && text.len() <= LONGEST && all_allowed(text)
    }

    /// The name that a text spells; it keeps a copy of the text.
    #[tactic(auto, unfolding(crate::specs::CellName::is_name))]
    pub fn new(text: &[u8]) -> Name
        requires { is_name text.now ≡ true }
        ensures { result ≡ text.now }
    {
        let mut room = [0; LONGEST];
        room[..text.len()].copy_from_slice(text);
        Name {
            room,
            length: text.len() as u8,
        }
    }
}

fn all_allowed(text: &[u8]) -> bool
    ensures { result ≡ list_all allowed_in_name text.now }
{
    text.iter().all(|b| b.is_ascii_alphanumeric() || matches!(*b, b'_' | b'-' | b'.'))
}
