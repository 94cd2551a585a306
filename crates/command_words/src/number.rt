ghost use Rattle.std.specs.Prelude.{◌≡◌, ◌≤◌, IfSome};
ghost use Rattle.command_words.specs.Values.{number_within};

use fixed_flow::whole;

/// The whole number that a text spells, where it is in this range.
#[tactic(auto, unfolding(crate::specs::Values::number_within))]
pub fn number_within(text: &str, least: u32, most: u32) -> Option<u32>
    ensures number { result ≡ number_within least most text.now }
    ensures in_range { IfSome result (λ number. (least ≤ number) × (number ≤ most)) }
{
    match whole(text.as_bytes()) {
        Some(number) if least <= number && number <= most => Some(number),
        _ => None,
    }
}
