ghost use Rattle.std.specs.Prelude.{◌≡◌, ◌≤◌, ◌<◌, ◌+◌, ℕ, All, IfOk, length};
ghost use Rattle.timelines.specs.Timelines.{IsSteady, value_at};
ghost use Rattle.connector_flow.specs.Limits.{HaveTimelinesCome, limits_of_timelines, limits_by, moved_to, sends_second};
ghost use Rattle.connector_flow.specs.Weights.{AreWeights};

use crate::limits::Limits;
use crate::rule::Rule;
use crate::weight_pair::WeightPair;
use no_memory::NoMemory;
use std::alloc::Global;
use step_plan::{MOST_STEPS, Plan};
use timelines::{CellTimeline, Now, Timeline};

/// What bounds the flow of a connector, followed forward from step 0.
#[derive(Drop)]
pub(crate) struct LimitTimelines {
    pub(crate) first: CellTimeline,
    pub(crate) second: CellTimeline,
    pub(crate) third: CellTimeline,
    pub(crate) weights: Timeline<(u32, u32)>,
}

impl LimitTimelines {
    /// What bounds the flow of a connector of these cells that carries by this rule with these weights.
    pub(crate) fn new(
        alloc: Global,
        plan: &Plan,
        rule: Rule,
        cells: [u32; 3],
        weights: Timeline<(u32, u32)>,
    ) -> Result<LimitTimelines, NoMemory>
        requires cells { All (λ i. i < length plan.now.cells) cells }
        requires step { weights.step ≡ 0 }
        ensures limits { IfOk result (λ timelines. (t : ℕ) → limits_of_timelines timelines t ≡ limits_by plan.now rule cells weights t) }
        ensures weights { IfOk result (λ timelines. timelines.weights ≡ weights) }
        ensures step { IfOk result (λ timelines. HaveTimelinesCome timelines 0) }
    {
        let [a, b, c] = cells;
        Ok(LimitTimelines {
            first: CellTimeline::new(alloc, plan, a, true)?,
            second: CellTimeline::new(alloc, plan, b, sends_second(rule))?,
            third: CellTimeline::new(alloc, plan, c, false)?,
            weights,
        })
    }

    /// So much at least both weights are together in each step, where these are in force in one.
    pub(crate) fn least(&self, now: WeightPair) -> u64
        requires weights { AreWeights self.now.weights }
        requires now { (t : ℕ) × (value_at self.now.weights t ≡ now) }
        ensures { (s : ℕ) → result ≤ (value_at self.now.weights s).0 + (value_at self.now.weights s).1 }
    {
        if self.weights.is_constant() {
            u64::from(now.first()) + u64::from(now.second())
        } else {
            1
        }
    }

    /// Follows them to step `t`, and tells what is in force from there on. The weights that were in force mostly still are.
    pub(crate) fn move_to(&mut self, t: u64, were: WeightPair) -> Now<Limits>
        requires forward { HaveTimelinesCome self.old t }
        requires in_time { t ≤ MOST_STEPS }
        requires weights { AreWeights self.old.weights }
        ensures value { result.value ≡ limits_of_timelines self.old t }
        ensures steady { IsSteady (limits_of_timelines self.old) t result.until }
        ensures later { t < result.until }
        ensures moved { self.new ≡ moved_to self.old t }
    {
        let first = self.first.move_to(t);
        let second = self.second.move_to(t);
        let third = self.third.move_to(t);
        self.weights.move_to(t);
        let weights = self.weights.now();
        Now {
            value: Limits {
                first: first.value,
                second: second.value,
                third: third.value,
                weights: were.renewed(weights.value),
            },
            until: first
                .until
                .min(second.until)
                .min(third.until)
                .min(weights.until),
        }
    }
}

/// Whether the second cell of a connector that carries by this rule sends.
pub(crate) fn sends_second(rule: Rule) -> bool
    ensures { result ≡ sends_second rule }
{
    match rule {
        Rule::Merging => true,
        Rule::Linking | Rule::Diverging => false,
    }
}
