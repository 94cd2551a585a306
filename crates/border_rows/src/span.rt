ghost use Rattle.std.specs.Prelude.{◌≡◌, ◌+◌, ◌*◌, ◌<◌, ◌^◌};

/// The words of one region, which stand together.
#[derive(Clone, Copy)]
pub(crate) struct Span {
    /// The place of the first of them.
    pub(crate) base: u32,
    /// How many border cells the region has.
    pub(crate) width: u32,
}

impl Span {
    /// The place behind them.
    pub(crate) fn end(self) -> u32
        requires { self.base + 2 + 2 * self.width < 2 ^ 32 }
        ensures { result ≡ self.base + 2 + 2 * self.width }
    {
        self.base + 2 + 2 * self.width
    }
}
