ghost use Rattle.std.specs.Prelude.{◌≡◌, ◌<◌, ◌≤◌, ◌↔◌, IfOk, IsSomeAnd};
ghost use Rattle.fixed_flow.specs.Spelling.{amount_of};

use crate::text::Text48;
use crate::{printing, spelling};

/// The parts of one vehicle.
pub const PARTS_PER_VEHICLE: u64 = 1_000_000;

/// The most parts of an amount, those of 10,000,000 vehicles.
pub const MOST_PARTS: u64 = 10_000_000_000_000;

/// An amount of traffic, in parts: millionths of a vehicle.
#[derive(Clone, Copy, Debug, PartialEq, Eq, PartialOrd, Ord, Hash)]
pub struct Amount(pub u64);

/// Why a text is read as no amount.
#[derive(Clone, Copy, Debug, PartialEq, Eq)]
pub enum AmountFault {
    /// The text is not spelled as docs/FORMAT.md says an amount is.
    Spelling,
    /// The text spells more than 10,000,000 vehicles.
    Range,
}

impl Amount {
    ghost use Rattle.fixed_flow.specs.Reading.{read_amount};
    ghost use Rattle.fixed_flow.specs.Printed.{amount_text};

    /// The amount that a text spells, by docs/FORMAT.md.
    pub fn read(text: &[u8]) -> Result<Amount, AmountFault>
        ensures reads { result ≡ read_amount text.now }
        ensures spelled { IfOk result (λ a. amount_of text.now ≡ Some a.0) }
        ensures in_range { IfOk result (λ a. a.0 ≤ MOST_PARTS) }
        ensures spelling { (result ≡ Err AmountFault.Spelling) ↔ (amount_of text.now ≡ None) }
        ensures range { (result ≡ Err AmountFault.Range) ↔ IsSomeAnd (amount_of text.now) (λ v. MOST_PARTS < v) }
    {
        match spelling::parts(text) {
            None => Err(AmountFault::Spelling),
            Some(parts) if parts <= MOST_PARTS => Ok(Amount(parts)),
            Some(_) => Err(AmountFault::Range),
        }
    }

    /// The text becomes the printed amount: whole vehicles, a point and six decimals.
    pub fn put(&self, text: &mut Text48)
        ensures prints { text.new ≡ amount_text self.now.0 }
        ensures reads_back { self.now.0 ≤ MOST_PARTS → read_amount text.new ≡ Ok self.now }
    {
        printing::put_parts(self.0, text);
    }
}
