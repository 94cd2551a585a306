use crate::driven::Driven;
use region_slots::Pass;

/// A member of a crew: a pass, the region at which its sweeps begin, and what came of its last turns.
#[derive(Drop)]
pub struct Member {
    /// The pass by which it takes regions.
    pub pass: Pass,
    /// The number of the region at which its sweeps begin.
    pub first: u32,
    /// What came of its last turns.
    pub driven: Driven,
}

impl Member {
    ghost use Rattle.std.specs.Prelude.{◌≡◌};
    ghost use Rattle.worker_claim.specs.Turns.{none};

    /// A member that hasn't worked yet.
    pub fn new(pass: Pass, first: u32) -> Member
        ensures { result ≡ record { pass = pass; first = first; driven = none } }
    {
        Member {
            pass,
            first,
            driven: Driven::none(),
        }
    }
}
