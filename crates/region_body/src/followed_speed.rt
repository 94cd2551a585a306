ghost use Rattle.std.specs.Prelude.{◌≡◌, ◌<◌, ◌≤◌, ℕ, All, false, length};
ghost use Rattle.step_plan.specs.SpeedBounds.{IsSpeed};
ghost use Rattle.timelines.specs.Timelines.{value_at};
ghost use Rattle.cell_sweep.specs.Speeds.{ratio_at};
ghost use Rattle.region_body.specs.FollowedSpeeds.{AreSpeedsInForce, AreSpeedsAsBefore, IsSpeedAsBefore, IsSpeedThere, is_listed};

use connector_flow::Ratio;
use step_plan::MOST_STEPS;
use timelines::Timeline;

/// The speed in a cell with speed records, as a ratio to that of its road, as it changes.
#[derive(Drop)]
pub(crate) struct FollowedSpeed {
    /// The number of its place.
    pub(crate) place: usize,
    /// The timeline of the speed.
    pub(crate) timeline: Timeline<(u32, u32)>,
}

/// Follows these speeds to step `t` and tells up to which step none changes. Before `until` none does, and nothing is done.
pub(crate) fn follow_speeds(
    t: u64,
    timelines: &mut [FollowedSpeed],
    speeds: &mut [Ratio],
    until: u64,
) -> u64
    requires in_time { t ≤ MOST_STEPS }
    requires there { All (IsSpeedThere (length speeds.old) t) timelines.old }
    requires speeds { All (λ one. (s : ℕ) → IsSpeed (value_at one.timeline s)) timelines.old }
    ensures there { All (IsSpeedThere (length speeds.old) t) timelines.new }
    ensures as_before { AreSpeedsAsBefore timelines.old timelines.new }
    ensures later { t < result }

    // Where the speed is `speed` by place and step, it is in force up to the step that is told.
    ensures in_force { (speed : ℕ → ℕ → ℕ × ℕ) → All (λ one. (s : ℕ) → value_at one.timeline s ≡ speed one.place s) timelines.old →
        AreSpeedsInForce speed timelines.old speeds.old t until → AreSpeedsInForce speed timelines.old speeds.new t result }
    ensures others { (p : ℕ) → is_listed timelines.old p ≡ false → ratio_at speeds.new p ≡ ratio_at speeds.old p }
{
    if t < until {
        return until;
    }
    follow_all_speeds(t, timelines, speeds)
}

// Follows all of them.
fn follow_all_speeds(t: u64, timelines: &mut [FollowedSpeed], speeds: &mut [Ratio]) -> u64
    requires in_time { t ≤ MOST_STEPS }
    requires there { All (IsSpeedThere (length speeds.old) t) timelines.old }
    requires speeds { All (λ one. (s : ℕ) → IsSpeed (value_at one.timeline s)) timelines.old }
    ensures there { All (IsSpeedThere (length speeds.old) t) timelines.new }
    ensures as_before { AreSpeedsAsBefore timelines.old timelines.new }
    ensures later { t < result }
    ensures in_force { (speed : ℕ → ℕ → ℕ × ℕ) → All (λ one. (s : ℕ) → value_at one.timeline s ≡ speed one.place s) timelines.old →
        AreSpeedsInForce speed timelines.old speeds.new t result }
    ensures others { (p : ℕ) → is_listed timelines.old p ≡ false → ratio_at speeds.new p ≡ ratio_at speeds.old p }
{
    let mut until = u64::MAX;
    for m in 0..timelines.len() {
        let p = timelines[m].place;
        until = until.min(follow_speed(t, &mut timelines[m], &mut speeds[p]));
    }
    until
}

// Follows one of them, and tells when it may change.
fn follow_speed(t: u64, one: &mut FollowedSpeed, speed: &mut Ratio) -> u64
    requires in_time { t ≤ MOST_STEPS }
    requires step { one.old.timeline.step ≤ t }
    requires speeds { (s : ℕ) → IsSpeed (value_at one.old.timeline s) }
    ensures as_before { IsSpeedAsBefore one.old one.new }
    ensures step { one.new.timeline.step ≡ t }
    ensures later { t < result }
    ensures steady { (s : ℕ) → t ≤ s → s < result → speed.new ≡ value_at one.old.timeline s }
{
    one.timeline.move_to(t);
    let now = one.timeline.now();
    let (num, den) = now.value;
    *speed = Ratio::new(num, den);
    now.until
}
