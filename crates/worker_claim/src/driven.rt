ghost use Rattle.std.specs.Prelude.{◌≡◌, ◌+◌, ◌<◌, ◌^◌};
ghost use Rattle.worker_claim.specs.Turns.{added, counted, none, turns_of};

use region_slots::Turn;

/// How many turns came to each answer, and whether all turns of the last sweep found their region at the goal or past it.
#[derive(Clone, Copy, Debug, Drop, PartialEq, Eq)]
pub struct Driven {
    /// Turns that took their region one step on.
    pub moved: u64,
    /// Turns that found their region held.
    pub held: u64,
    /// Turns that gave their region back, since a neighbour stood one step lower.
    pub behind: u64,
    /// Turns that found their region at the goal or past it.
    pub ended: u64,
    /// Whether all turns of the last sweep found their region at the goal or past it.
    pub all: bool,
}

impl Driven {
    /// No turn.
    pub fn none() -> Driven
        ensures { result ≡ none }
    {
        Driven {
            moved: 0,
            held: 0,
            behind: 0,
            ended: 0,
            all: false,
        }
    }

    /// How many turns there were.
    pub(crate) fn turns(&self) -> u64
        requires { turns_of self.now < 2 ^ 64 }
        ensures { result ≡ turns_of self.now }
    {
        self.moved + self.held + self.behind + self.ended
    }

    /// The turns of both, of which the later ones tell whether all regions are at the goal.
    pub fn then(self, later: Driven) -> Driven
        requires { turns_of self + turns_of later < 2 ^ 64 }
        ensures { result ≡ added self later }
    {
        Driven {
            moved: self.moved + later.moved,
            held: self.held + later.held,
            behind: self.behind + later.behind,
            ended: self.ended + later.ended,
            all: later.all,
        }
    }

    /// Counts one turn more.
    #[tactic(auto, unfolding(crate::specs::Turns::counted))]
    pub(crate) fn count(&mut self, turn: Turn)
        requires { turns_of self.old + 1 < 2 ^ 64 }
        ensures { self.new ≡ counted self.old turn }
    {
        match turn {
            Turn::Moved { step: _ } => self.moved += 1,
            Turn::Held => self.held += 1,
            Turn::Behind {
                neighbour: _,
                step: _,
            } => self.behind += 1,
            Turn::Ended { step: _ } => self.ended += 1,
        }
    }
}
