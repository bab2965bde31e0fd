// Balancing: from potentials that are feasible to an optimal pair, or to a negative cut.
ghost use Rattle.std.specs.Prelude.{◌≡◌, ℕ, ◌+◌, ◌*◌, ◌^◌, ◌≤◌, ◌<◌, pos, ◌-ℤ◌, ◌*ℤ◌, length, map};
ghost use Rattle.std.specs.List.{All};
ghost use Rattle.theory.specs.Limits.{IsWithin, level_most};
ghost use Rattle.theory.specs.Network.{«at»};
ghost use Rattle.theory.specs.Feasible.{IsFeasiblePotential};
ghost use Rattle.theory.specs.Cut.{IsNegativeCut};
ghost use Rattle.theory.specs.Certificate.{IsOptimalPair, IsPotentialOf, AreNumbers};
ghost use Rattle.theory.specs.ReadingBound.{reading_unit};
ghost use Rattle.painted_search.specs.Fits.{Fits};
ghost use Rattle.painted_search.specs.Writes.{with_flow, with_potential};
ghost use Rattle.net_incidence.specs.WithoutBases.{without_bases, IsPassable};
ghost use Rattle.kilter_solver.specs.Ranges.{far_most, ungrounded_most};
ghost use Rattle.kilter_solver.specs.Clamping.{IsBegun, IsGroundedBelow, AreNear, IsCleared};
ghost use Rattle.kilter_solver.specs.Leveling.{IsDoubledBelow, IsLeveled, level_share};

use crate::levels::Levels;
use crate::routes::{Routed, route};
use crate::spread::Routing;
use crate::words::set_excess;
use mono_curve::{LEVELS, Monotone, Steps};
use net_incidence::Net;
use painted_search::Work;
use std::sync::ledger::Ledger;
use theory::{ArcId, NodeId};

/// What balancing found.
#[derive(Clone, Copy, PartialEq, Eq, Debug)]
pub enum Balanced {
    /// Every pair of flow and tension is on its curve, and the flow is conserved.
    InKilter,
    /// The marked nodes are a negative cut.
    Cut,
}

/// Makes the flows and potentials of the room an optimal pair. It takes no memory.
pub fn balance<C: Monotone, L: Ledger>(
    net: &Net,
    curves: &[C],
    work: &mut Work,
    steps: &mut Steps<L>,
) -> Balanced
    requires passable { IsPassable net.now (length curves.now) }
    requires light { All (λ c. C.weight c ≡ 1) curves.now }
    requires fits { Fits net.now work.old }
    requires potential { IsFeasiblePotential 1 (without_bases net.now (map C.items curves.now)) work.old.potentials }
    requires near { AreNear net.now.nodes work.old.potentials }
    ensures pair { result ≡ Balanced.InKilter → IsOptimalPair (without_bases net.now (map C.items curves.now)) work.new.flows work.new.potentials }
    ensures flows { result ≡ Balanced.InKilter → AreNumbers (length net.now.arcs) work.new.flows }
    ensures potentials { result ≡ Balanced.InKilter → IsPotentialOf (without_bases net.now (map C.items curves.now)) work.new.potentials }
    ensures cut { result ≡ Balanced.Cut → IsNegativeCut (without_bases net.now (map C.items curves.now)) work.new.reached }
    ensures fits { Fits net.now work.new }
    ensures no_fewer { steps.old ≤ steps.new }
    ensures count { steps.new ≤ steps.old + 3 * reading_unit net.now.nodes (length net.now.arcs) level_most }
{
    begin(work);
    for done in 0..LEVELS + 1 {
        match balance_level(net, curves, done, work, steps) {
            Routed::Cut => return Balanced::Cut,
            Routed::Done => {}
        }
    }
    ground(work);
    Balanced::InKilter
}

/// One level further down: flows are doubled, moved to their curves, and what is too much at a node then is sent where it lacks.
fn balance_level<C: Monotone, L: Ledger>(
    net: &Net,
    curves: &[C],
    done: u32,
    work: &mut Work,
    steps: &mut Steps<L>,
) -> Routed
    requires level { done ≤ level_most }
    requires passable { IsPassable net.now (length curves.now) }
    requires light { All (λ c. C.weight c ≡ 1) curves.now }
    requires leveled { IsLeveled net.now (map C.items curves.now) level_most done work.old }
    ensures leveled { result ≡ Routed.Done → IsLeveled net.now (map C.items curves.now) level_most (done + 1) work.new }
    ensures cut { result ≡ Routed.Cut → IsNegativeCut (without_bases net.now (map C.items curves.now)) work.new.reached }
    ensures fits { Fits net.now work.new }
    ensures no_fewer { steps.old ≤ steps.new }
    ensures count { steps.new ≤ steps.old + level_share (length net.now.arcs) }
{
    double(work);
    let bundle = Levels::of(curves, LEVELS - done);
    let routing = Routing {
        net,
        bundle: &bundle,
    };
    routing.clamp(work, steps);
    route(net, &bundle, work, steps)
}

/// Twice the flows.
fn double(work: &mut Work)
    requires { (j : ℕ) → IsWithin far_most («at» work.old.flows j) }
    ensures { IsDoubledBelow work.old.arcs work.old work.new }
{
    for j in 0..work.arcs() {
        double_one(work, ArcId(j as u32));
    }
}

fn double_one(work: &mut Work, arc: ArcId)
    requires there { arc.0 < work.old.arcs }
    requires flow { IsWithin far_most («at» work.old.flows arc.0) }
    ensures { work.new ≡ with_flow work.old arc.0 (pos 2 *ℤ «at» work.old.flows arc.0) }
{
    let flow = work.flow(arc);
    work.set_flow(arc, 2 * flow);
}

/// No flow, no excess.
fn begin(work: &mut Work)
    ensures { IsBegun work.old work.new }
{
    clear_flows(work);
    for i in 0..work.nodes() {
        set_excess(work, NodeId(i as u32), 0);
    }
}

fn clear_flows(work: &mut Work)
    ensures { IsCleared work.old.arcs work.old work.new }
{
    for j in 0..work.arcs() {
        work.set_flow(ArcId(j as u32), 0);
    }
}

/// Takes the potential of node 0 away from all.
fn ground(work: &mut Work)
    requires { (i : ℕ) → IsWithin ungrounded_most («at» work.old.potentials i) }
    ensures { IsGroundedBelow work.old.nodes («at» work.old.potentials 0) work.old work.new }
{
    let base = work.potential(NodeId(0));
    for i in 0..work.nodes() {
        lower_by(work, NodeId(i as u32), base);
    }
}

fn lower_by(work: &mut Work, node: NodeId, base: i64)
    requires there { node.0 < work.old.nodes }
    requires potential { IsWithin ungrounded_most («at» work.old.potentials node.0) }
    requires base { IsWithin ungrounded_most base }
    ensures { work.new ≡ with_potential work.old node.0 («at» work.old.potentials node.0 -ℤ base) }
{
    let potential = work.potential(node);
    work.set_potential(node, potential - base);
}
