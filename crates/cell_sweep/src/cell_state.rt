ghost use Rattle.std.specs.Prelude.{◌≡◌, ◌+◌, ◌<◌, ◌≤◌, ◌^◌, min};
ghost use Rattle.connector_flow.specs.Space.{let_in};
ghost use Rattle.cell_sweep.specs.CellStates.{moved, with_entered, with_left};

use connector_flow::Space;

/// What a step touches of a cell. No two of the sums that it raises lie side by side, since they would be raised together
/// then, as one pair, which takes more instructions.
#[derive(Clone, Copy)]
pub struct CellState {
    /// What the cell holds.
    pub n: u64,
    /// The most that the limits let the link to the next cell carry now, 0 where no link joins them.
    pub most: u64,
    /// All that has gone out of it.
    pub gone: u64,
    /// Its room.
    pub space: Space,
    /// The sum of what it held, over the steps, modulo 2^64: parts times steps.
    pub held: u64,
}

impl CellState {
    /// So much leaves it, beside the links between neighbours.
    #[inline(always)]
    pub fn leave(&mut self, parts: u64)
        requires held { parts ≤ self.old.n }
        requires fits { self.old.gone + parts < 2 ^ 64 }
        ensures { self.new ≡ with_left self.old parts }
    {
        self.n -= parts;
        self.gone += parts;
    }

    /// So much enters it, beside them.
    #[inline(always)]
    pub fn enter(&mut self, parts: u64)
        requires fits { self.old.n + parts < 2 ^ 64 }
        ensures { self.new ≡ with_entered self.old parts }
    {
        self.n += parts;
    }

    // What the link from here to the next cell carries, where so many of its parts reach the end. With the two of the first
    // `min` the other way round LLVM jumps over a move, which takes two instructions more.
    #[inline(always)]
    pub(crate) fn carried(&self, next: &CellState, reaching: u64) -> u64
        requires held { reaching ≤ self.now.n }
        requires fits { next.now.n ≤ next.now.space.storage }
        ensures flow { result ≡ min (min self.now.most reaching) (let_in next.now.space next.now.n) }
        ensures held { result ≤ self.now.n }
        ensures fits { next.now.n + result < 2 ^ 64 }
    {
        next.space.let_in(next.n).min(self.most.min(reaching))
    }

    // So much enters and so much leaves in a step.
    #[inline(always)]
    pub(crate) fn step(&mut self, enters: u64, leaves: u64)
        requires held { leaves ≤ self.old.n }
        requires fits { self.old.n + enters < 2 ^ 64 }
        requires all_fit { self.old.gone + leaves < 2 ^ 64 }
        ensures { self.new ≡ moved self.old enters leaves }
    {
        self.held = self.held.wrapping_add(self.n);
        self.gone += leaves;
        self.n = self.n + enters - leaves;
    }
}
