ghost use Rattle.std.specs.Prelude.{◌≡◌};
ghost use Rattle.step_plan.specs.Records.{in_range};

/// Whether `t` is in `[from, to)`.
pub(crate) fn is_in_range(from: u32, to: u32, t: u64) -> bool
    ensures { result ≡ in_range from to t }
{
    u64::from(from) <= t && t < u64::from(to)
}
