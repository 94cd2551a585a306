ghost use Rattle.std.specs.Prelude.{◌≡◌, ◌+◌, ◌<◌, length};
ghost use Rattle.network_file.specs.Connectors.{cells_of};
ghost use Rattle.network_file.specs.Numbered.{connector_at};
ghost use Rattle.network_file.specs.Sound.{IsSoundConnector};
ghost use Rattle.flow_model.specs.Flows.{flow_between};
ghost use Rattle.flow_model.specs.FlowLaw.{SendsAtMost, ReceivesAtMost};
ghost use Rattle.flow_model.specs.Bounds.{AreHeldInBounds};

use crate::carried::Flow;
use crate::limits::{receiving_at, sending_at};
use network_file::{Connector, Net};

/// What connector `k` carries in step `t`, where its cells hold `n` parts, in the order of the connector's
/// fields (Daganzo 1995; docs/MODEL.md). The places of `n` past its cells are not read.
pub fn flow(net: &Net, t: u64, k: u32, n: [u64; 3]) -> Flow
    requires has_connector { k < length net.now.connectors }
    requires in_time { t < net.now.steps }
    requires held { AreHeldInBounds net.now t (cells_of (connector_at net.now.connectors k)) n }
    ensures flow { result ≡ flow_between net.now t (connector_at net.now.connectors k) n }

    // What leaves in all is what enters in all.
    ensures conserved { result.out1 + result.out2 ≡ result.in1 + result.in2 }
    ensures sent { SendsAtMost net.now t (connector_at net.now.connectors k) n result }
    ensures received { ReceivesAtMost net.now t (connector_at net.now.connectors k) n result }
{
    carried_by(net, t, net.connectors[k as usize], n)
}

// What a connector of the network carries.
fn carried_by(net: &Net, t: u64, connector: Connector, n: [u64; 3]) -> Flow
    requires sound { IsSoundConnector net.now.cells connector }
    requires in_time { t < net.now.steps }
    requires held { AreHeldInBounds net.now t (cells_of connector) n }
    ensures { result ≡ flow_between net.now t connector n }
{
    match connector {
        Connector::Link { up, down } => Flow::of_link(
            sending_at(net, t, up, n[0]),
            receiving_at(net, t, down, n[1]),
        ),
        Connector::Merge {
            up1,
            up2,
            down,
            p1,
            p2,
        } => Flow::of_merge(
            sending_at(net, t, up1, n[0]),
            sending_at(net, t, up2, n[1]),
            receiving_at(net, t, down, n[2]),
            p1,
            p2,
        ),
        Connector::Diverge {
            up,
            down1,
            down2,
            b1,
            b2,
        } => {
            let (b1, b2) = net.plan.shares(up, t, (b1, b2));
            Flow::of_diverge(
                sending_at(net, t, up, n[0]),
                receiving_at(net, t, down1, n[1]),
                receiving_at(net, t, down2, n[2]),
                b1,
                b2,
            )
        }
    }
}
