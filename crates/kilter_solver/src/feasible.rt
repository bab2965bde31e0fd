// Whether there are a feasible flow and a feasible potential, each with what shows it.
ghost use Rattle.std.specs.Prelude.{◌≡◌, ◌↔◌, ◌+◌, ◌*◌, ◌≤◌, length, IfOk};
ghost use Rattle.theory.specs.Best.{FlowIsRefused, TensionIsRefused};
ghost use Rattle.theory.specs.Feasible.{IsFeasibleFlow, IsFeasiblePotential};
ghost use Rattle.theory.specs.Cut.{IsNegativeCut};
ghost use Rattle.theory.specs.Circuit.{IsNegativeCircuit};
ghost use Rattle.theory.specs.Certificate.{AreNumbers, IsPotentialOf, IsWalkOf, IsOptimalPair};
ghost use Rattle.theory.specs.Limits.{level_most};
ghost use Rattle.theory.specs.ReadingBound.{reading_bound, reading_unit};
ghost use Rattle.kilter_solver.specs.FeasibleParts.{IsFlowPart, IsTensionPart, IsNoFlow, IsNoTension};

use crate::certifying::number_of;
use crate::cut_test::is_negative_cut;
use crate::kilter_test::is_in_kilter;
use cert_text::{FlowPart, TensionPart};
use feasible_flow::{FlowAns, feasible_flow};
use feasible_tension::{TensionAns, feasible_tension};
use ground_net::Grounded;
use mono_curve::Steps;
use net_incidence::{Flows, Marks, Walk};
use painted_search::Work;
use quick_start::{Proposal, Sketch, fuel_of};
use std::alloc::{AllocError, Global};
use std::sync::ledger::Ledger;

/// A feasible flow or a cut, and a feasible potential or a circuit.
#[derive(Drop)]
pub struct FeasibleParts {
    pub flow: FlowPart,
    pub tension: TensionPart,
}

/// Finds both parts. The room for the search is taken before the first reading, and then that of the parts.
pub fn feasibility<L: Ledger>(
    alloc: Global,
    g: &Grounded,
    steps: &mut Steps<L>,
) -> Result<FeasibleParts, AllocError>
    ensures flow { IfOk result (λ found. IsFlowPart g.now.network found.flow) }
    ensures tension { IfOk result (λ found. IsTensionPart g.now.network found.tension) }
    ensures flow_kind { IfOk result (λ found. IsNoFlow found.flow ↔ FlowIsRefused g.now.network) }
    ensures tension_kind { IfOk result (λ found. IsNoTension found.tension ↔ TensionIsRefused g.now.network) }
    ensures no_fewer { steps.old ≤ steps.new }
    ensures count { steps.new ≤ steps.old + reading_bound g.now.network.nodes (length g.now.network.arcs) level_most }
{
    let net = g.net();
    let curves = g.curves();
    let mut work = Work::take(alloc, net.nodes(), net.arcs())?;
    let mut sketch = Sketch::take(alloc, net.nodes(), net.arcs())?;
    match sketch.draw(net, curves, fuel_of(net), &mut work, steps) {
        Proposal::Pair if is_in_kilter(net, curves, &work, steps) => {
            parts_of_pair(alloc, g, work.flows(), work.potentials())
        }
        Proposal::Cut if is_negative_cut(net, curves, &work, steps) => {
            parts_with_cut(alloc, g, &mut work, steps)
        }
        _ => both_passes(alloc, g, &mut work, steps),
    }
}

/// An optimal pair is a feasible flow and a feasible potential.
fn parts_of_pair(
    alloc: Global,
    g: &Grounded,
    flows: &[i64],
    potentials: &[i64],
) -> Result<FeasibleParts, AllocError>
    requires flows { AreNumbers (length g.now.network.arcs) flows.now }
    requires potentials { IsPotentialOf g.now.network potentials.now }
    requires pair { IsOptimalPair g.now.network flows.now potentials.now }
    ensures flow { IfOk result (λ found. IsFlowPart g.now.network found.flow) }
    ensures tension { IfOk result (λ found. IsTensionPart g.now.network found.tension) }
{
    let flow = yes_flow(alloc, g, flows)?;
    let tension = yes_tension(alloc, g, potentials)?;
    Ok(FeasibleParts { flow, tension })
}

/// The marked nodes refuse every flow; potentials are for their pass.
fn parts_with_cut<L: Ledger>(
    alloc: Global,
    g: &Grounded,
    work: &mut Work,
    steps: &mut Steps<L>,
) -> Result<FeasibleParts, AllocError>
    requires nodes { work.old.nodes ≡ g.now.network.nodes }
    requires arcs { work.old.arcs ≡ length g.now.network.arcs }
    requires negative { IsNegativeCut g.now.network work.old.reached }
    ensures flow { IfOk result (λ found. IsFlowPart g.now.network found.flow) }
    ensures tension { IfOk result (λ found. IsTensionPart g.now.network found.tension) }
    ensures no_fewer { steps.old ≤ steps.new }
    ensures count { steps.new ≤ steps.old + g.now.network.nodes * length g.now.network.arcs }
{
    let flow = no_flow(alloc, g, work)?;
    let tension = tension_pass(alloc, g, work, steps)?;
    Ok(FeasibleParts { flow, tension })
}

/// Both parts by their passes, from nothing that was drawn.
fn both_passes<L: Ledger>(
    alloc: Global,
    g: &Grounded,
    work: &mut Work,
    steps: &mut Steps<L>,
) -> Result<FeasibleParts, AllocError>
    requires nodes { work.old.nodes ≡ g.now.network.nodes }
    requires arcs { work.old.arcs ≡ length g.now.network.arcs }
    ensures flow { IfOk result (λ found. IsFlowPart g.now.network found.flow) }
    ensures tension { IfOk result (λ found. IsTensionPart g.now.network found.tension) }
    ensures no_fewer { steps.old ≤ steps.new }
    ensures count { steps.new ≤ steps.old + 3 * reading_unit g.now.network.nodes (length g.now.network.arcs) level_most
        + g.now.network.nodes * length g.now.network.arcs }
{
    let flow = flow_pass(alloc, g, work, steps)?;
    let tension = tension_pass(alloc, g, work, steps)?;
    Ok(FeasibleParts { flow, tension })
}

/// The flow part by its pass.
fn flow_pass<L: Ledger>(
    alloc: Global,
    g: &Grounded,
    work: &mut Work,
    steps: &mut Steps<L>,
) -> Result<FlowPart, AllocError>
    requires nodes { work.old.nodes ≡ g.now.network.nodes }
    requires arcs { work.old.arcs ≡ length g.now.network.arcs }
    ensures part { IfOk result (IsFlowPart g.now.network) }
    ensures nodes { work.new.nodes ≡ g.now.network.nodes }
    ensures arcs { work.new.arcs ≡ length g.now.network.arcs }
    ensures no_fewer { steps.old ≤ steps.new }
    ensures count { steps.new ≤ steps.old + 3 * reading_unit g.now.network.nodes (length g.now.network.arcs) level_most }
{
    let net = g.net();
    let curves = g.curves();
    match feasible_flow(net, curves, work, steps) {
        FlowAns::Flow => yes_flow(alloc, g, work.flows()),
        FlowAns::Cut => no_flow(alloc, g, work),
    }
}

/// The tension part by its pass.
fn tension_pass<L: Ledger>(
    alloc: Global,
    g: &Grounded,
    work: &mut Work,
    steps: &mut Steps<L>,
) -> Result<TensionPart, AllocError>
    requires nodes { work.old.nodes ≡ g.now.network.nodes }
    requires arcs { work.old.arcs ≡ length g.now.network.arcs }
    ensures part { IfOk result (IsTensionPart g.now.network) }
    ensures no_fewer { steps.old ≤ steps.new }
    ensures count { steps.new ≤ steps.old + g.now.network.nodes * length g.now.network.arcs }
{
    let net = g.net();
    let curves = g.curves();
    match feasible_tension(net, curves, work, steps) {
        TensionAns::Potential => yes_tension(alloc, g, work.potentials()),
        TensionAns::Circuit => no_tension(alloc, g, work),
    }
}

fn yes_flow(alloc: Global, g: &Grounded, flows: &[i64]) -> Result<FlowPart, AllocError>
    requires numbers { AreNumbers (length g.now.network.arcs) flows.now }
    requires feasible { IsFeasibleFlow 1 g.now.network flows.now }
    ensures { IfOk result (IsFlowPart g.now.network) }
{
    let _g = g;
    Ok(FlowPart::Yes(Flows::of_vec(flows.to_vec(alloc)?)))
}

/// A negative cut with its capacity.
fn no_flow(alloc: Global, g: &Grounded, work: &Work) -> Result<FlowPart, AllocError>
    requires nodes { work.now.nodes ≡ g.now.network.nodes }
    requires negative { IsNegativeCut g.now.network work.now.reached }
    ensures { IfOk result (IsFlowPart g.now.network) }
{
    let mut side = Vec::with_capacity(alloc, work.nodes())?;
    work.put_marks(&mut side);
    let capacity = number_of(g.net().cut_sum(g.curves(), side.as_slice()));
    Ok(FlowPart::No {
        side: Marks::of_vec(side),
        capacity,
    })
}

fn yes_tension(alloc: Global, g: &Grounded, potentials: &[i64]) -> Result<TensionPart, AllocError>
    requires potentials { IsPotentialOf g.now.network potentials.now }
    requires feasible { IsFeasiblePotential 1 g.now.network potentials.now }
    ensures { IfOk result (IsTensionPart g.now.network) }
{
    let _g = g;
    Ok(TensionPart::Yes(Flows::of_vec(potentials.to_vec(alloc)?)))
}

/// A negative circuit with its span.
fn no_tension(alloc: Global, g: &Grounded, work: &Work) -> Result<TensionPart, AllocError>
    requires walk { IsWalkOf g.now.network work.now.walk }
    requires negative { IsNegativeCircuit g.now.network work.now.walk }
    ensures { IfOk result (IsTensionPart g.now.network) }
{
    let mut walk = Vec::with_capacity(alloc, work.walk_len())?;
    work.put_walk(&mut walk);
    let span = number_of(g.net().circuit_sum(g.curves(), walk.as_slice()));
    Ok(TensionPart::No {
        walk: Walk::of_vec(walk),
        span,
    })
}
