ghost use Rattle.std.specs.Prelude.{◌≡◌, ℕ, ◌+◌, ◌*◌, ◌/◌, ◌%◌, ◌^◌};
ghost use Rattle.net_make.specs.Draws.{draw, state_after};

// The constants of Knuth's MMIX.
const MULTIPLIER: u64 = 6_364_136_223_846_793_005;

const INCREMENT: u64 = 1_442_695_040_888_963_407;

/// Numbers that are drawn one after the other.
#[derive(Debug, Drop)]
pub(crate) struct Draws {
    pub(crate) state: u64,
}

impl Draws {
    /// The draws of a seed, from the first one on.
    #[tactic(auto, unfolding(crate::specs::Draws::state_after))]
    pub(crate) fn new(seed: u32) -> Draws
        ensures { result.state ≡ state_after seed 0 }
    {
        Draws {
            state: u64::from(seed),
        }
    }

    /// The next one.
    pub(crate) fn draw(&mut self) -> u32
        ensures next { (seed k : ℕ) → self.old.state ≡ state_after seed k → self.new.state ≡ state_after seed (k + 1) }
        ensures drawn { (seed k : ℕ) → self.old.state ≡ state_after seed k → result ≡ draw seed k }
    {
        self.advance();
        (self.state >> 32) as u32
    }

    fn advance(&mut self)
        ensures { self.new.state ≡ (6_364_136_223_846_793_005 * self.old.state + 1_442_695_040_888_963_407) % 2 ^ 64 }
    {
        self.state = self.state.wrapping_mul(MULTIPLIER).wrapping_add(INCREMENT);
    }
}
