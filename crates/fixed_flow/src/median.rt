ghost use Rattle.std.specs.Prelude.{◌≡◌};
ghost use Rattle.fixed_flow.specs.Middle.{middle_of};
ghost use Rattle.fixed_flow.specs.Between.{IsBetween, IsOneOf};

/// The middle of three values.
pub fn middle(a: i128, b: i128, c: i128) -> i128
    ensures equal { result ≡ middle_of a b c }
    ensures one { IsOneOf a b c result }
    ensures between { IsBetween a b result × IsBetween a c result × IsBetween b c result }
{
    a.min(b).max(a.max(b).min(c))
}
