// Handing a draw over to the room of a solve.
ghost use Rattle.std.specs.Prelude.{◌≡◌, ◌<◌, ◌≤◌, ◌^◌, [], None, replicate};
ghost use Rattle.quick_start.specs.Drawn.{AreDrawn, IsSameRoom};

use crate::tables::{Table, clamped};
use net_incidence::{ArcId, NodeId};
use painted_search::Work;

/// Writes the flow of each arc.
pub(crate) fn write_flows(flows: &Table<i64>, work: &mut Work)
    ensures flows { AreDrawn work.new.flows }
    ensures same { IsSameRoom work.old work.new }
    ensures labels { work.new.labels ≡ work.old.labels }
    ensures walk { work.new.walk ≡ work.old.walk }
{
    for j in 0..work.arcs() {
        let flow = clamped(flows.at(j as u32));
        work.set_flow(ArcId(j as u32), flow);
    }
}

/// Writes the potential of each node, above that of node 0.
pub(crate) fn write_potentials(potentials: &Table<i64>, work: &mut Work)
    ensures potentials { AreDrawn work.new.potentials }
    ensures same { IsSameRoom work.old work.new }
    ensures flows { work.new.flows ≡ work.old.flows }
    ensures labels { work.new.labels ≡ work.old.labels }
    ensures walk { work.new.walk ≡ work.old.walk }
{
    let ground = potentials.at(0);
    for i in 0..work.nodes() {
        let potential = clamped(potentials.at(i as u32).wrapping_sub(ground));
        work.set_potential(NodeId(i as u32), potential);
    }
}

/// Marks the nodes whose potential is less than the given height above the least one. The result is the potential from which
/// on they aren't marked.
pub(crate) fn mark_low(potentials: &Table<i64>, height: i64, work: &mut Work) -> i64
    ensures same { IsSameRoom work.old work.new }
    ensures labels { work.new.labels ≡ replicate work.new.nodes None }
    ensures walk { work.new.walk ≡ [] }
{
    let lowest = lowest(potentials, work.nodes());
    let border = potentials.at(lowest).wrapping_add(height);
    work.begin_at(NodeId(lowest));
    for i in 0..work.nodes() {
        if potentials.at(i as u32) < border {
            work.mark(NodeId(i as u32));
        }
    }
    border
}

/// The first node of least potential.
fn lowest(potentials: &Table<i64>, nodes: usize) -> u32
    requires some { 1 ≤ nodes }
    requires few { nodes < 2 ^ 32 }
    ensures { result < nodes }
{
    let mut lowest = 0;
    for i in 0..nodes {
        if potentials.at(i as u32) < potentials.at(lowest) {
            lowest = i as u32;
        }
    }
    lowest
}
