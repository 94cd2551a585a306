ghost use Rattle.std.specs.Prelude.{◌≡◌, ◌+◌, ◌*◌, ◌<◌, ◌^◌};

/// How one step's flow divides over two branches, in parts.
#[derive(Clone, Copy, Debug, PartialEq, Eq)]
pub struct Split {
    /// How many times both turning shares pass: a count, no amount.
    pub parts: u64,
    /// What leaves the road.
    pub out: u64,
    /// What enters the first branch.
    pub to1: u64,
    /// What enters the second branch.
    pub to2: u64,
}

impl Split {
    // So many parts of both turning shares.
    pub(crate) fn of(parts: u64, share1: u64, share2: u64) -> Split
        requires shares { share1 + share2 < 2 ^ 64 }
        requires fits { parts * (share1 + share2) < 2 ^ 64 }
        ensures { result ≡ record { parts = parts; out = parts * (share1 + share2); to1 = parts * share1; to2 = parts * share2 } }
    {
        Split {
            parts,
            out: parts * (share1 + share2),
            to1: parts * share1,
            to2: parts * share2,
        }
    }
}
