// The greatest tension between two nodes of a grounded network, from nothing.
ghost use Rattle.std.specs.Prelude.{◌≡◌, ◌≢◌, ◌+◌, ◌*◌, ◌<◌, ◌≤◌, ◌^◌, ℕ, length, IfOk};
ghost use Rattle.theory.specs.Network.{«at»};
ghost use Rattle.theory.specs.Circuit.{IsNegativeCircuit, WalkIsThere};
ghost use Rattle.theory.specs.Feasible.{IsFeasiblePotential};
ghost use Rattle.theory.specs.Limits.{number_most, level_most, IsWithin};
ghost use Rattle.theory.specs.ReadingBound.{reading_bound};
ghost use Rattle.path_cut.specs.GreatestTension.{rise, IsPathOf, IsOpenCut};
ghost use Rattle.path_cut.specs.Found.{IsTensionFound, PotentialsWithin};

use crate::flow_found::number_of;
use crate::keeping::{keep_marks, keep_numbers, keep_walk};
use crate::tension::{TensionTop, greatest_tension};
use feasible_tension::{TensionAns, feasible_tension};
use ground_net::Grounded;
use mono_curve::Steps;
use net_incidence::{Flows, Marks, NodeId, Walk};
use painted_search::Work;
use std::alloc::{AllocError, Global};
use std::sync::ledger::Ledger;

/// What is found of the tensions from one node to another.
#[derive(Drop)]
pub enum TensionFound {
    /// Potentials that rise the most, by this, and a path of this span sum.
    Greatest {
        tension: i64,
        potentials: Flows,
        walk: Walk,
    },
    /// Feasible potentials, and the side of an open cut.
    Unbounded {
        potentials: Flows,
        side: Marks,
    },
    /// A circuit that refuses every potential, and its span sum.
    Refused {
        walk: Walk,
        sum: i128,
    },
}

/// All room is taken before the first reading, and then that of what is found.
pub fn tension_between<L: Ledger>(
    alloc: Global,
    g: &Grounded,
    from: NodeId,
    to: NodeId,
    steps: &mut Steps<L>,
) -> Result<TensionFound, AllocError>
    requires from_there { from.0 < g.now.network.nodes }
    requires to_there { to.0 < g.now.network.nodes }
    requires apart { from.0 ≢ to.0 }
    ensures found { IfOk result (IsTensionFound g.now.network from.0 to.0) }
    ensures within { IfOk result (PotentialsWithin g.now.network.nodes (4 * (g.now.network.nodes * number_most))) }
    ensures no_fewer { steps.old ≤ steps.new }
    ensures count { steps.new ≤ steps.old + reading_bound g.now.network.nodes (length g.now.network.arcs) level_most }
{
    let net = g.net();
    let curves = g.curves();
    let mut work = Work::take(alloc, net.nodes(), net.arcs())?;
    match feasible_tension(net, curves, &mut work, steps) {
        TensionAns::Potential => reached(alloc, g, from, to, &mut work, steps),
        TensionAns::Circuit => refused(alloc, g, &work),
    }
}

/// From feasible potentials on.
fn reached<L: Ledger>(
    alloc: Global,
    g: &Grounded,
    from: NodeId,
    to: NodeId,
    work: &mut Work,
    steps: &mut Steps<L>,
) -> Result<TensionFound, AllocError>
    requires from_there { from.0 < g.now.network.nodes }
    requires to_there { to.0 < g.now.network.nodes }
    requires apart { from.0 ≢ to.0 }
    requires nodes { work.old.nodes ≡ g.now.network.nodes }
    requires arcs { work.old.arcs ≡ length g.now.network.arcs }
    requires feasible { IsFeasiblePotential 1 g.now.network work.old.potentials }
    requires near { (i : ℕ) → i < g.now.network.nodes → IsWithin (g.now.network.nodes * number_most) («at» work.old.potentials i) }
    ensures found { IfOk result (IsTensionFound g.now.network from.0 to.0) }
    ensures within { IfOk result (PotentialsWithin g.now.network.nodes (4 * (g.now.network.nodes * number_most))) }
    ensures no_fewer { steps.old ≤ steps.new }
    ensures count { steps.new ≤ steps.old + 3 * (g.now.network.nodes + 1) * length g.now.network.arcs }
{
    let net = g.net();
    let curves = g.curves();
    match greatest_tension(net, curves, from, to, work, steps) {
        TensionTop::Greatest(tension) => keep_greatest(alloc, g, (from, to), work, tension),
        TensionTop::Unbounded => keep_open(alloc, g, (from, to), work),
    }
}

fn keep_greatest(
    alloc: Global,
    g: &Grounded,
    ends: (NodeId, NodeId),
    work: &Work,
    tension: i64,
) -> Result<TensionFound, AllocError>
    requires feasible { IsFeasiblePotential 1 g.now.network work.now.potentials }
    requires rises { rise work.now.potentials ends.0.0 ends.1.0 ≡ tension }
    requires path { IsPathOf g.now.network work.now.walk ends.0.0 ends.1.0 tension }
    requires near { (i : ℕ) → i < g.now.network.nodes → IsWithin (4 * (g.now.network.nodes * number_most)) («at» work.now.potentials i) }
    ensures found { IfOk result (IsTensionFound g.now.network ends.0.0 ends.1.0) }
    ensures within { IfOk result (PotentialsWithin g.now.network.nodes (4 * (g.now.network.nodes * number_most))) }
{
    let (_g, _ends) = (g, ends);
    let potentials = keep_numbers(alloc, work.potentials())?;
    let walk = keep_walk(alloc, work)?;
    Ok(TensionFound::Greatest {
        tension,
        potentials,
        walk,
    })
}

fn keep_open(
    alloc: Global,
    g: &Grounded,
    ends: (NodeId, NodeId),
    work: &Work,
) -> Result<TensionFound, AllocError>
    requires nodes { work.now.nodes ≡ g.now.network.nodes }
    requires feasible { IsFeasiblePotential 1 g.now.network work.now.potentials }
    requires open_cut { IsOpenCut g.now.network work.now.reached ends.0.0 ends.1.0 }
    requires near { (i : ℕ) → i < g.now.network.nodes → IsWithin (4 * (g.now.network.nodes * number_most)) («at» work.now.potentials i) }
    ensures found { IfOk result (IsTensionFound g.now.network ends.0.0 ends.1.0) }
    ensures within { IfOk result (PotentialsWithin g.now.network.nodes (4 * (g.now.network.nodes * number_most))) }
{
    let (_g, _ends) = (g, ends);
    let potentials = keep_numbers(alloc, work.potentials())?;
    let side = keep_marks(alloc, work)?;
    Ok(TensionFound::Unbounded { potentials, side })
}

/// A negative circuit with its span sum.
fn refused(alloc: Global, g: &Grounded, work: &Work) -> Result<TensionFound, AllocError>
    requires there { WalkIsThere g.now.network work.now.walk }
    requires short { length work.now.walk < 2 ^ 31 }
    requires negative { IsNegativeCircuit g.now.network work.now.walk }
    ensures found { (from to : ℕ) → IfOk result (IsTensionFound g.now.network from to) }
    ensures within { (nodes most : ℕ) → IfOk result (PotentialsWithin nodes most) }
{
    let walk = keep_walk(alloc, work)?;
    let sum = number_of(g.net().circuit_sum(g.curves(), walk.as_slice()));
    Ok(TensionFound::Refused { walk, sum })
}
