ghost use Rattle.std.specs.Prelude.{◌≡◌, ◌<◌, ◌≤◌, IfOk};
ghost use Rattle.csv.specs.Records.{fields_of};
ghost use Rattle.record_fields.specs.Fields.{amount_within, field, range_within, ratio, weights, whole_within};

use crate::code::Code;
use csv::ByteRecord;
use fixed_flow::{Amount, AmountFault, MOST_PARTS, whole};

/// The field at a place, counted from 0, or nothing where the record ends before it.
pub(crate) fn field(row: &ByteRecord, i: usize) -> &[u8]
    ensures { result.now ≡ field (fields_of row.now) i }
{
    match row.get(i) {
        Some(text) => text,
        None => &[],
    }
}

/// A whole number of a range.
#[tactic(auto, unfolding(crate::specs::Fields::whole_within))]
pub fn whole_within(low: u32, high: u32, text: &[u8]) -> Result<u32, Code>
    ensures value { result ≡ whole_within low high text.now }
    ensures range { IfOk result (λ n. (low ≤ n) × (n ≤ high)) }
{
    match whole(text) {
        None => Err(Code::BadNumber),
        Some(n) if low <= n && n <= high => Ok(n),
        Some(_) => Err(Code::OutOfRange),
    }
}

/// The range `[from, to)` of steps that two fields give: it has a step, and ends by `most`.
#[tactic(auto, unfolding(crate::specs::Fields::range_within))]
pub fn range_within(most: u32, first: &[u8], last: &[u8]) -> Result<(u32, u32), Code>
    requires { 1 ≤ most }
    ensures value { result ≡ range_within most first.now last.now }
    ensures some_step { IfOk result (λ range. range.0 < range.1) }
    ensures within { IfOk result (λ range. range.1 ≤ most) }
{
    let from = whole_within(0, most - 1, first)?;
    let to = whole_within(from + 1, most, last)?;
    Ok((from, to))
}

/// A ratio of at most 1: its numerator and its denominator, up to `most`.
#[tactic(auto, unfolding(crate::specs::Fields::ratio))]
pub fn ratio(most: u32, first: &[u8], second: &[u8]) -> Result<(u32, u32), Code>
    ensures value { result ≡ ratio most first.now second.now }
    ensures some { IfOk result (λ ratio. 1 ≤ ratio.0) }
    ensures at_most_one { IfOk result (λ ratio. ratio.0 ≤ ratio.1) }
    ensures most { IfOk result (λ ratio. ratio.1 ≤ most) }
{
    let num = whole_within(1, most, first)?;
    let den = whole_within(num, most, second)?;
    Ok((num, den))
}

/// The two priorities of a merge, or the two shares of a diverge, up to `most`.
#[tactic(auto, unfolding(crate::specs::Fields::weights))]
pub fn weights(most: u32, first: &[u8], second: &[u8]) -> Result<(u32, u32), Code>
    ensures value { result ≡ weights most first.now second.now }
    ensures first { IfOk result (λ weights. (1 ≤ weights.0) × (weights.0 ≤ most)) }
    ensures second { IfOk result (λ weights. (1 ≤ weights.1) × (weights.1 ≤ most)) }
{
    let weight1 = whole_within(1, most, first)?;
    let weight2 = whole_within(1, most, second)?;
    Ok((weight1, weight2))
}

/// An amount in parts, up to the greatest.
#[tactic(auto, unfolding(crate::specs::Fields::amount_within))]
pub fn amount_within(most: u64, text: &[u8]) -> Result<u64, Code>
    requires { most ≤ MOST_PARTS }
    ensures value { result ≡ amount_within most text.now }
    ensures range { IfOk result (λ parts. parts ≤ most) }
{
    match Amount::read(text) {
        Ok(Amount(parts)) if parts <= most => Ok(parts),
        Ok(_) | Err(AmountFault::Range) => Err(Code::OutOfRange),
        Err(AmountFault::Spelling) => Err(Code::BadNumber),
    }
}
