ghost use Rattle.std.specs.Prelude.{◌≡◌, ◌≤◌, All, length};
ghost use Rattle.connector_flow.specs.declared.rule.Rule.TheVariants.{Diverging, Linking, Merging};
ghost use Rattle.region_body.specs.Carrying.{CanCarry, CanConnectorPass, CanConnectorsPass, HasConnectorPassed, HaveConnectorsPassed, carried_of};
ghost use Rattle.region_body.specs.CellRefs.{given_before};

use crate::followed_connector::FollowedConnector;
use crate::passing::{bring, take};
use cell_sweep::CellState;
use connector_flow::{Ratio, Rule};
use flow_model::Flow;

/// What all these connectors take from cells and bring to them in step `t`, by what was noted of the cells as it began, what
/// was put for the halo, and the speeds in both.
#[inline(never)]
pub(crate) fn carry_all(
    t: u64,
    connectors: &[FollowedConnector],
    speeds: &[Ratio],
    before: &[u64],
    put: &[Option<u64>],
    states: &mut [CellState],
)
    requires each { All (λ connector. CanCarry t connector (length states.old) put.now) connectors.now }
    requires one_each { length before.now ≡ length states.old }
    requires can { CanConnectorsPass t speeds.now before.now put.now connectors.now states.old }
    ensures { HaveConnectorsPassed t speeds.now before.now put.now connectors.now states.old states.new }
{
    for connector in connectors {
        carry(t, connector, speeds, before, put, states);
    }
}

// What one of them takes and brings.
#[inline(always)]
fn carry(
    t: u64,
    connector: &FollowedConnector,
    speeds: &[Ratio],
    before: &[u64],
    put: &[Option<u64>],
    states: &mut [CellState],
)
    requires connector { CanCarry t connector.now (length states.old) put.now }
    requires one_each { length before.now ≡ length states.old }
    requires can { CanConnectorPass t speeds.now before.now put.now connector.now states.old }
    ensures { HasConnectorPassed t speeds.now before.now put.now connector.now states.old states.new }
{
    match connector.timeline.rule() {
        Rule::Linking => link(t, connector, speeds, before, put, states),
        Rule::Merging => merge(t, connector, speeds, before, put, states),
        Rule::Diverging => diverge(t, connector, speeds, before, put, states),
    }
}

// A link, from the first of its cells to the second.
#[inline(always)]
fn link(
    t: u64,
    connector: &FollowedConnector,
    speeds: &[Ratio],
    before: &[u64],
    put: &[Option<u64>],
    states: &mut [CellState],
)
    requires rule { connector.now.timeline.rule ≡ Linking }
    requires connector { CanCarry t connector.now (length states.old) put.now }
    requires one_each { length before.now ≡ length states.old }
    requires can { CanConnectorPass t speeds.now before.now put.now connector.now states.old }
    ensures { HasConnectorPassed t speeds.now before.now put.now connector.now states.old states.new }
{
    let [a, b, _] = connector.cells;
    let flow = carried(t, connector, speeds, before, put);
    take(states, a, flow.out1);
    bring(states, b, flow.in1);
}

// A merge, from the first and the second to the third.
#[inline(always)]
fn merge(
    t: u64,
    connector: &FollowedConnector,
    speeds: &[Ratio],
    before: &[u64],
    put: &[Option<u64>],
    states: &mut [CellState],
)
    requires rule { connector.now.timeline.rule ≡ Merging }
    requires connector { CanCarry t connector.now (length states.old) put.now }
    requires one_each { length before.now ≡ length states.old }
    requires can { CanConnectorPass t speeds.now before.now put.now connector.now states.old }
    ensures { HasConnectorPassed t speeds.now before.now put.now connector.now states.old states.new }
{
    let [a, b, c] = connector.cells;
    let flow = carried(t, connector, speeds, before, put);
    take(states, a, flow.out1);
    take(states, b, flow.out2);
    bring(states, c, flow.in1);
}

// A diverge, from the first to the second and the third.
#[inline(always)]
fn diverge(
    t: u64,
    connector: &FollowedConnector,
    speeds: &[Ratio],
    before: &[u64],
    put: &[Option<u64>],
    states: &mut [CellState],
)
    requires rule { connector.now.timeline.rule ≡ Diverging }
    requires connector { CanCarry t connector.now (length states.old) put.now }
    requires one_each { length before.now ≡ length states.old }
    requires can { CanConnectorPass t speeds.now before.now put.now connector.now states.old }
    ensures { HasConnectorPassed t speeds.now before.now put.now connector.now states.old states.new }
{
    let [a, b, c] = connector.cells;
    let flow = carried(t, connector, speeds, before, put);
    take(states, a, flow.out1);
    bring(states, b, flow.in1);
    bring(states, c, flow.in2);
}

// What it carries, by what its cells held as the step began.
#[inline(always)]
fn carried(
    t: u64,
    connector: &FollowedConnector,
    speeds: &[Ratio],
    before: &[u64],
    put: &[Option<u64>],
) -> Flow
    requires { CanCarry t connector.now (length before.now) put.now }
    ensures { result ≡ carried_of t connector.now (given_before speeds.now before.now put.now) }
{
    let [a, b, c] = connector.cells;
    connector.timeline.flow(connector.given(
        [
            a.held_before(before, put),
            b.held_before(before, put),
            c.held_before(before, put),
        ],
        speeds,
        before.len(),
    ))
}
