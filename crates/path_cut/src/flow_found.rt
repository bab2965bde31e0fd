// The greatest flow between two nodes of a grounded network, from nothing.
ghost use Rattle.std.specs.Prelude.{◌≡◌, ◌≢◌, ◌+◌, ◌*◌, ◌<◌, ◌≤◌, ℕ, length, IfOk};
ghost use Rattle.theory.specs.Network.{«at»};
ghost use Rattle.theory.specs.Cut.{IsNegativeCut};
ghost use Rattle.theory.specs.Feasible.{IsFeasibleFlow};
ghost use Rattle.theory.specs.Certificate.{AreNumbers};
ghost use Rattle.theory.specs.Limits.{flow_most, grounded_nodes_most, IsWithin};
ghost use Rattle.net_incidence.specs.WithoutBases.{passable_arcs_most};
ghost use Rattle.path_cut.specs.GreatestFlow.{return_arc, HasReturn, IsCutOf, IsOpenPath};
ghost use Rattle.path_cut.specs.Returned.{returned};
ghost use Rattle.path_cut.specs.Found.{IsFlowFound, FlowsWithin};
ghost use Rattle.path_cut.specs.Whole.{IsWhole};
ghost use Rattle.net_incidence.specs.declared.sums.Sum.TheVariants.{Whole as WholeSum};

use crate::drawing::{drawn_or_found, gains_of};
use crate::flow::{FlowTop, greatest_flow};
use crate::keeping::{keep_marks, keep_numbers, keep_walk};
use crate::returned::{Returned, with_return};
use feasible_flow::FlowAns;
use ground_net::Grounded;
use mono_curve::Steps;
use net_incidence::{Flows, Marks, NodeId, Sum, Walk};
use painted_search::Work;
use quick_start::Sketch;
use std::alloc::{AllocError, Global};
use std::sync::ledger::Ledger;

/// What is found of the flows from a start to a goal.
#[derive(Drop)]
pub enum FlowFound {
    /// Flows with the greatest one on the last arc, and the side of a cut of this sum.
    Greatest {
        flow: i64,
        flows: Flows,
        side: Marks,
    },
    /// Feasible flows, and an open path.
    Unbounded {
        flows: Flows,
        walk: Walk,
    },
    /// The side of a cut that refuses every flow, and its sum.
    Refused {
        side: Marks,
        sum: i128,
    },
}

/// All room is taken before the first reading, and then that of what is found. Begins with drawn flows, where they stand the test.
pub fn flow_between<L: Ledger>(
    alloc: Global,
    g: &Grounded,
    from: NodeId,
    to: NodeId,
    steps: &mut Steps<L>,
) -> Result<FlowFound, AllocError>
    requires from_there { from.0 < g.now.network.nodes }
    requires to_there { to.0 < g.now.network.nodes }
    requires apart { from.0 ≢ to.0 }
    ensures found { IfOk result (IsFlowFound (returned g.now.network from.0 to.0)) }
    ensures within { IfOk result (FlowsWithin (4 * flow_most)) }
    ensures no_fewer { steps.old ≤ steps.new }
{
    let net = with_return(alloc, g.net(), g.curves(), from, to)?;
    found_over(alloc, &net, steps)
}

/// The greatest flow over the last arc.
fn found_over<L: Ledger>(
    alloc: Global,
    net: &Returned,
    steps: &mut Steps<L>,
) -> Result<FlowFound, AllocError>
    requires returns { HasReturn net.now }
    requires some_node { 1 ≤ net.now.nodes }
    requires few_nodes { net.now.nodes ≤ grounded_nodes_most }
    requires few_arcs { length net.now.arcs ≤ passable_arcs_most }
    requires one_curve_each { length net.now.curves ≡ length net.now.arcs }
    ensures found { IfOk result (IsFlowFound net.now) }
    ensures within { IfOk result (FlowsWithin (4 * flow_most)) }
    ensures no_fewer { steps.old ≤ steps.new }
{
    let graph = net.net();
    let curves = net.curves();
    let gains = gains_of(alloc, curves)?;
    let mut sketch = Sketch::take(alloc, graph.nodes(), graph.arcs())?;
    let mut work = Work::take(alloc, graph.nodes(), graph.arcs())?;
    match drawn_or_found(
        graph,
        curves,
        gains.as_slice(),
        &mut sketch,
        &mut work,
        steps,
    ) {
        FlowAns::Flow => carried(alloc, net, &mut work, steps),
        FlowAns::Cut => refused(alloc, net, &work),
    }
}

/// From feasible flows on.
fn carried<L: Ledger>(
    alloc: Global,
    net: &Returned,
    work: &mut Work,
    steps: &mut Steps<L>,
) -> Result<FlowFound, AllocError>
    requires returns { HasReturn net.now }
    requires some_node { 1 ≤ net.now.nodes }
    requires few_nodes { net.now.nodes ≤ grounded_nodes_most }
    requires few_arcs { length net.now.arcs ≤ passable_arcs_most }
    requires one_curve_each { length net.now.curves ≡ length net.now.arcs }
    requires nodes { work.old.nodes ≡ net.now.nodes }
    requires arcs { work.old.arcs ≡ length net.now.arcs }
    requires feasible { IsFeasibleFlow 1 net.now work.old.flows }
    requires near { AreNumbers (length net.now.arcs) work.old.flows }
    ensures found { IfOk result (IsFlowFound net.now) }
    ensures within { IfOk result (FlowsWithin (4 * flow_most)) }
    ensures no_fewer { steps.old ≤ steps.new }
{
    let graph = net.net();
    let curves = net.curves();
    match greatest_flow(graph, curves, work, steps) {
        FlowTop::Greatest(flow) => keep_greatest(alloc, net, work, flow),
        FlowTop::Unbounded => keep_open(alloc, net, work),
    }
}

fn keep_greatest(
    alloc: Global,
    net: &Returned,
    work: &Work,
    flow: i64,
) -> Result<FlowFound, AllocError>
    requires nodes { work.now.nodes ≡ net.now.nodes }
    requires feasible { IsFeasibleFlow 1 net.now work.now.flows }
    requires carries { «at» work.now.flows (return_arc net.now) ≡ flow }
    requires cut { IsCutOf net.now work.now.reached flow }
    requires near { (j : ℕ) → IsWithin (4 * flow_most) («at» work.now.flows j) }
    ensures found { IfOk result (IsFlowFound net.now) }
    ensures within { IfOk result (FlowsWithin (4 * flow_most)) }
{
    let _net = net;
    let flows = keep_numbers(alloc, work.flows())?;
    let side = keep_marks(alloc, work)?;
    Ok(FlowFound::Greatest { flow, flows, side })
}

fn keep_open(alloc: Global, net: &Returned, work: &Work) -> Result<FlowFound, AllocError>
    requires feasible { IsFeasibleFlow 1 net.now work.now.flows }
    requires open_path { IsOpenPath net.now work.now.walk }
    requires near { (j : ℕ) → IsWithin (4 * flow_most) («at» work.now.flows j) }
    ensures found { IfOk result (IsFlowFound net.now) }
    ensures within { IfOk result (FlowsWithin (4 * flow_most)) }
{
    let _net = net;
    let flows = keep_numbers(alloc, work.flows())?;
    let walk = keep_walk(alloc, work)?;
    Ok(FlowFound::Unbounded { flows, walk })
}

/// A negative cut with its sum.
fn refused(alloc: Global, net: &Returned, work: &Work) -> Result<FlowFound, AllocError>
    requires nodes { work.now.nodes ≡ net.now.nodes }
    requires one_curve_each { length net.now.curves ≡ length net.now.arcs }
    requires negative { IsNegativeCut net.now work.now.reached }
    ensures found { IfOk result (IsFlowFound net.now) }
    ensures within { IfOk result (FlowsWithin (4 * flow_most)) }
{
    let side = keep_marks(alloc, work)?;
    let sum = number_of(net.net().cut_sum(net.curves(), side.as_slice()));
    Ok(FlowFound::Refused { side, sum })
}

/// The number of a sum that counts.
pub(crate) fn number_of(sum: Sum) -> i128
    requires { IsWhole sum }
    ensures { sum ≡ WholeSum result }
{
    match sum {
        Sum::Whole(number) => number,
        Sum::Endless(_) => unreachable!(),
    }
}
