ghost use Rattle.std.specs.Prelude.{◌≡◌, ◌<◌, ◌%◌, ◌==◌, ◌&&◌, nat_lt};
ghost use Rattle.net_make.specs.Made.{has_off_ramp, has_on_ramp};

/// Whether main cell `i` has an on-ramp.
pub(crate) fn has_on_ramp(i: u32) -> bool
    ensures { result ≡ has_on_ramp i }
{
    i % 8 == 3
}

/// Whether main cell `i` of `size` ones has an off-ramp.
pub(crate) fn has_off_ramp(size: u32, i: u32) -> bool
    requires { i < size }
    ensures { result ≡ has_off_ramp size i }
{
    i % 8 == 6 && i + 1 < size
}

/// Whether main cell `i` has a signal.
pub(crate) fn has_signal(i: u32) -> bool
    ensures { result ≡ (i % 8 == 0 && nat_lt 0 i) }
{
    i % 8 == 0 && i > 0
}
