// The rule of the deques: a number in one is a region's, and nothing else is known of it.
ghost use Rattle.std.specs.Prelude.{◌≡◌, ◌+◌, ◌<◌, All};

use crossbeam_deque::protocol::{Outcome, Protocol, Split};

/// Each number is below the number of regions, which all passes of the deque know.
pub(crate) struct Below;

impl Protocol<u32, u32> for Below {
    ghost use Rattle.number_deques.specs.Nests.{AreBelow};

    ghost holds = { AreBelow };

    ghost first = { 0 };

    ghost guest = { 0 };
}

/// A first number, by which the pass knows how many regions there are: it is the last region's.
pub(crate) struct Opens;

impl Outcome<u32, u32> for Opens {
    ghost then = { λ v xs w. All (λ r. w ≡ r + 1) xs };
}

/// A number that comes or goes.
pub(crate) struct Keeps;

impl Outcome<u32, u32> for Keeps {
    ghost then = { λ v xs w. (w ≡ v) × All (λ r. r < v) xs };
}

/// Another pass, which knows the same.
pub(crate) struct Tells;

impl Split<u32> for Tells {
    ghost left = { λ v. v };

    ghost right = { λ v. v };
}
