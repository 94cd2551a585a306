ghost use Rattle.std.specs.Prelude.{◌≡◌, ◌≢◌, ◌+◌, ◌<◌, ◌^◌, ◌↔◌, IsTrue};
ghost use Rattle.parked_crew.specs.Sweeping.{counted, none, turns_of};

use region_slots::Turn;

/// How many turns of a sweep came to each answer.
#[derive(Clone, Copy, Debug, Drop, PartialEq, Eq)]
pub(crate) struct Swept {
    pub(crate) moved: u32,
    pub(crate) held: u32,
    pub(crate) behind: u32,
    pub(crate) ended: u32,
}

impl Swept {
    /// No turn yet.
    pub(crate) fn none() -> Swept
        ensures { result ≡ none }
    {
        Swept {
            moved: 0,
            held: 0,
            behind: 0,
            ended: 0,
        }
    }

    /// Counts one turn more.
    #[tactic(auto, unfolding(crate::specs::Sweeping::counted))]
    pub(crate) fn count(&mut self, turn: Turn)
        requires { turns_of self.old + 1 < 2 ^ 32 }
        ensures { self.new ≡ counted self.old turn }
    {
        match turn {
            Turn::Moved { step: _ } => self.moved += 1,
            Turn::Held => self.held += 1,
            Turn::Behind {
                neighbour: _,
                step: _,
            } => self.behind += 1,
            Turn::Ended { step: _ } => self.ended += 1,
        }
    }

    /// Whether all turns found their region at the goal or past it.
    pub(crate) fn is_done(&self) -> bool
        ensures { IsTrue result ↔ (self.now.moved + self.now.held + self.now.behind ≡ 0) }
    {
        self.moved == 0 && self.held == 0 && self.behind == 0
    }

    /// Whether the sweep moved nothing and found a region that a neighbour has to go before: whoever moves the neighbour
    /// counts it on the board. Regions that were held alone, with others at the goal, may be given back without that.
    pub(crate) fn is_in_vain(&self) -> bool
        ensures { IsTrue result ↔ ((self.now.moved ≡ 0) × (self.now.behind ≢ 0)) }
    {
        self.moved == 0 && self.behind != 0
    }
}
