ghost use Rattle.std.specs.Prelude.{◌≡◌, ◌≤◌, ◌<◌, ℕ, All, IfOk, IsTrue, List, length};
ghost use Rattle.network_file.specs.Numbered.{connector_at};
ghost use Rattle.connector_flow.specs.Following.{IsTimelineOf, IsConnectorOf};
ghost use Rattle.connector_flow.specs.Weights.{AreWeights};

use crate::carrying::carried;
use crate::cell_space::space_of;
use crate::idling::{carries_nothing, sends_nothing};
use crate::limit_timelines::LimitTimelines;
use crate::limits::Limits;
use crate::rule::Rule;
use crate::space::Space;
use crate::weight_pair::WeightPair;
use flow_model::Flow;
use network_file::{Connector, Net};
use no_memory::NoMemory;
use std::alloc::Global;
use std::marker::Model;
use step_plan::MOST_STEPS;
use timelines::{Timeline, shares_of};

/// What a connector carries in a step within what its cells send and receive at most, followed forward from step 0.
///
/// Most connectors carry within the same limits in all steps. What changes of the others stands apart, so that all that a
/// step touches lies close together.
#[derive(Drop)]
pub struct ConnectorTimeline {
    rule: Rule,
    step: u64,
    // What bounds its flow from its step on, and the first step at which that may change.
    limits: Limits,
    until: u64,
    second_space: Space,
    third_space: Space,
    timelines: Option<Box<LimitTimelines>>,
}

impl Model for ConnectorTimeline {
    ghost use Rattle.std.specs.Option.{option_map};
    ghost use Rattle.connector_flow.specs.Flows.{ConnectorValues};
    ghost use Rattle.connector_flow.specs.Limits.{AreKept};

    ghost Value = { ConnectorValues };

    ghost view = { λ timeline. record {
      rule = timeline.rule;
      timelines = option_map (λ own. own.value) timeline.timelines;
      limits = timeline.limits;
      second_space = timeline.second_space;
      third_space = timeline.third_space;
      step = timeline.step;
      until = timeline.until;
    } };

    ghost invariant = { λ timeline. AreKept (option_map (λ own. own.value) timeline.timelines) timeline.limits timeline.step timeline.until };
}

impl ConnectorTimeline {
    ghost use Rattle.connector_flow.specs.Flows.{flow_at, no_flow};

    /// The timeline of connector `k`, at step 0.
    pub fn new(alloc: Global, net: &Net, k: u32) -> Result<ConnectorTimeline, NoMemory>
        requires has_connector { k < length net.now.connectors }
        ensures timeline { IfOk result (IsTimelineOf net.now (connector_at net.now.connectors k)) }
        ensures step { IfOk result (λ timeline. timeline.step ≡ 0) }
    {
        match net.connectors[k as usize] {
            Connector::Link { up, down } => {
                let weights = Timeline::constant(alloc, (1, 1));
                made_of(alloc, net, Rule::Linking, [up, down, down], weights)
            }
            Connector::Merge {
                up1,
                up2,
                down,
                p1,
                p2,
            } => {
                let weights = Timeline::constant(alloc, (p1, p2));
                made_of(alloc, net, Rule::Merging, [up1, up2, down], weights)
            }
            Connector::Diverge {
                up,
                down1,
                down2,
                b1,
                b2,
            } => {
                let weights = shares_of(alloc, &net.plan, up, (b1, b2))?;
                made_of(alloc, net, Rule::Diverging, [up, down1, down2], weights)
            }
        }
    }

    /// By which rule the connector carries.
    #[inline(always)]
    pub fn rule(&self) -> Rule
        ensures { result ≡ self.now.rule }
    {
        self.rule
    }

    /// Up to which step from its own on it carries within the same limits, `u64::MAX` where they never change.
    pub fn until(&self) -> u64
        ensures { result ≡ self.now.until }
    {
        self.until
    }

    /// Follows it to step `t`. Where nothing changes by then it does next to nothing.
    pub fn refresh(&mut self, t: u64)
        requires forward { self.old.step ≤ t }
        requires in_time { t ≤ MOST_STEPS }
        ensures step { self.new.step ≡ t }
        ensures rule { self.new.rule ≡ self.old.rule }
        ensures later { t < self.new.until }
        ensures flow { (s : ℕ) (n : List ℕ) → flow_at self.new s n ≡ flow_at self.old s n }
    {
        if self.until <= t {
            if let Some(timelines) = &mut self.timelines {
                let now = timelines.move_to(t, self.limits.weights);
                self.limits = now.value;
                self.until = now.until;
            }
        }
        self.step = t;
    }

    /// What the connector carries from its step on as long as its limits stay. `n` is in the order of the connector's
    /// fields: of cells that send the parts that come to their ends, of others what they hold. The place past its cells isn't
    /// read.
    #[inline(always)]
    pub fn flow(&self, n: [u64; 3]) -> Flow
        ensures now { result ≡ flow_at self.now self.now.step n }
        ensures later { (t : ℕ) → self.now.step ≤ t → t < self.now.until → result ≡ flow_at self.now t n }
    {
        carried(
            self.rule,
            self.limits,
            self.second_space,
            self.third_space,
            n,
        )
    }

    /// A step before which the connector carries nothing as long as `n` stays: 0 where it carries something, `u64::MAX` where
    /// its limits never change, or nothing is there to send.
    pub fn idle_until(&self, n: [u64; 3]) -> u64
        ensures { (s : ℕ) → self.now.step ≤ s → s < result → flow_at self.now s n ≡ no_flow }
    {
        if !carries_nothing(self.flow(n)) {
            0
        } else if self.stays_idle(n) {
            u64::MAX
        } else {
            self.until
        }
    }

    // Whether no change of its limits lets it carry something, where it carries nothing at its step.
    fn stays_idle(&self, n: [u64; 3]) -> bool
        requires { flow_at self.now self.now.step n ≡ no_flow }
        ensures { IsTrue result → (s : ℕ) → flow_at self.now s n ≡ no_flow }
    {
        match &self.timelines {
            None => true,
            Some(timelines) => sends_nothing(self.rule, timelines.least(self.limits.weights), n),
        }
    }
}

// The timeline of a connector of these cells that carries by this rule with these weights, at step 0.
fn made_of(
    alloc: Global,
    net: &Net,
    rule: Rule,
    cells: [u32; 3],
    weights: Timeline<(u32, u32)>,
) -> Result<ConnectorTimeline, NoMemory>
    requires cells { All (λ i. i < length net.now.cells) cells }
    requires weights { AreWeights weights }
    requires step { weights.step ≡ 0 }
    ensures { IfOk result (IsConnectorOf net.now rule cells weights) }
{
    let mut timelines = LimitTimelines::new(alloc, &net.plan, rule, cells, weights)?;
    let now = timelines.move_to(0, WeightPair::new(1, 1));
    let [_, second, third] = cells;
    let (second_space, third_space) = (space_of(net, second), space_of(net, third));
    if now.until >= net.steps {
        return Ok(ConnectorTimeline {
            rule,
            step: 0,
            limits: now.value,
            until: u64::MAX,
            second_space,
            third_space,
            timelines: None,
        });
    }
    Ok(ConnectorTimeline {
        rule,
        step: 0,
        limits: now.value,
        until: now.until,
        second_space,
        third_space,
        timelines: Some(Box::new(alloc, timelines)?),
    })
}
