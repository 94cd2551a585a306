use crate::field::{Field, Pass};
use crate::observer::Observer;
use crate::taken::Taken;
use atomic_table::Seat;
use border_rows::View;
use region_step::Region;

/// What came of a turn.
#[derive(Clone, Copy, Debug, PartialEq, Eq)]
pub enum Turn {
    /// This turn published this step of the region.
    Moved { step: u64 },
    /// Another seat had the region.
    Held,
    /// A neighbour stood at this step, one below the region's, when it was looked at.
    Behind { neighbour: u32, step: u64 },
    /// The region stood at this step, the goal or past it.
    Ended { step: u64 },
}

impl<'a> Field<'a> {
    ghost use Rattle.std.specs.Prelude.{◌≡◌, ◌≢◌, ◌+◌, ◌<◌, ◌≤◌, ℕ, [], ◌∷◌, ◌++◌, slice_index};
    ghost use Rattle.region_cut.specs.Cuttings.{region_count};
    ghost use Rattle.border_rows.specs.Kinds.{found_taken};
    ghost use Rattle.region_slots.specs.FieldView.{HasSeenInTime, IsIdle, IsPassOf, IsSeatOf};
    ghost use Rattle.region_slots.specs.Moments.{cut_run};
    ghost use Rattle.region_slots.specs.Turning.{IsBehind, IsMoved, IsWithin, took_at};
    ghost use Rattle.region_slots.specs.declared.turn.Turn.TheVariants.{Behind, Ended, Held, Moved};

    /// A turn on a region: it is taken, and where it stands below the goal the observer is told so. Where no neighbour stands a
    /// step lower it is taken through its step. Then it is free again, and where it was taken through its step the observer is
    /// told so.
    pub fn turn<W: Observer>(&self, pass: &mut Pass, region: u32, goal: u64, observer: &W) -> Turn
        requires belongs { IsPassOf self.now pass.old }
        requires there { region < region_count self.now.terms.setup.now.chart.cut }
        requires in_time { goal ≤ self.now.terms.setup.now.net.steps }
        ensures belongs { IsPassOf self.now pass.new × (pass.new.id ≡ pass.old.id) }
        ensures keeps { IsWithin pass.old.knows pass.new.knows goal }
        ensures tried { pass.new.knows.tried ≡ pass.old.knows.tried ++ region ∷ [] }
        ensures held { result ≡ Held → pass.new.knows ≡ found_taken pass.old.knows region }
        ensures never_whole { pass.old.knows.share ≡ self.now.terms.seats → result ≢ Held }
        ensures ended { (s : ℕ) → result ≡ Ended s → (goal ≤ s) × (pass.new.knows ≡ took_at pass.old.knows region s) × (slice_index pass.new.knows.seen region ≡ s) × (slice_index pass.old.knows.seen region ≤ s) }
        ensures behind { (q s : ℕ) → result ≡ Behind q s → IsBehind self.now.terms pass.old.knows pass.new.knows goal region q s }
        ensures moved { (s : ℕ) → result ≡ Moved s → IsMoved self.now.terms pass.old.knows pass.new.knows goal region s }
        ensures told_behind { (q s : ℕ) → result ≡ Behind q s → W.told_held observer.now (cut_run self.now.terms.setup.now) region (s + 1) }
        ensures told_moved { (s : ℕ) → result ≡ Moved (s + 1) → W.told_held observer.now (cut_run self.now.terms.setup.now) region s × W.told_freed observer.now (cut_run self.now.terms.setup.now) region (s + 1) }
    {
        self.tries(&mut pass.seat, region, goal, observer)
    }

    // The same on a seat.
    fn tries<W: Observer>(
        &self,
        seat: &mut Seat<Region, View<'static>>,
        region: u32,
        goal: u64,
        observer: &W,
    ) -> Turn
        requires seat { IsSeatOf self.now seat.old }
        requires idle { IsIdle seat.old.me.0 seat.old.me.1 }
        requires there { region < region_count self.now.terms.setup.now.chart.cut }
        requires in_time { goal ≤ self.now.terms.setup.now.net.steps }
        ensures same { (seat.new.id ≡ seat.old.id) × (seat.new.table_id ≡ seat.old.table_id) }
        ensures terms { seat.new.me.0.terms ≡ seat.old.me.0.terms }
        ensures idle { IsIdle seat.new.me.0 seat.new.me.1 }
        ensures seen_in_time { HasSeenInTime self.now.terms seat.new.me.0 }
        ensures held { result ≡ Held → seat.new.me.0 ≡ found_taken seat.old.me.0 region }
        ensures never_whole { seat.old.me.0.share ≡ self.now.terms.seats → result ≢ Held }
        ensures ended { (s : ℕ) → result ≡ Ended s → (goal ≤ s) × (seat.new.me.0 ≡ took_at seat.old.me.0 region s) × (slice_index seat.new.me.0.seen region ≡ s) × (slice_index seat.old.me.0.seen region ≤ s) }
        ensures behind { (q s : ℕ) → result ≡ Behind q s → IsBehind self.now.terms seat.old.me.0 seat.new.me.0 goal region q s }
        ensures moved { (s : ℕ) → result ≡ Moved s → IsMoved self.now.terms seat.old.me.0 seat.new.me.0 goal region s }
        ensures told_behind { (q s : ℕ) → result ≡ Behind q s → W.told_held observer.now (cut_run self.now.terms.setup.now) region (s + 1) }
        ensures told_moved { (s : ℕ) → result ≡ Moved (s + 1) → W.told_held observer.now (cut_run self.now.terms.setup.now) region s × W.told_freed observer.now (cut_run self.now.terms.setup.now) region (s + 1) }
    {
        if !self.try_claim(seat, region) {
            return Turn::Held;
        }
        let taken = Taken::learn(self, seat, region);
        let step = taken.step();
        if goal <= step {
            self.pass_over(seat, region, taken);
            return Turn::Ended { step };
        }
        observer.held(taken);
        if let Some((neighbour, s)) = self.clears(seat, region, step) {
            self.release(seat, region, step, observer);
            return Turn::Behind { neighbour, step: s };
        }
        let freed = self.rises(seat, region, step, observer);
        observer.freed(freed);
        Turn::Moved { step: step + 1 }
    }
}
