// The test of a pair of flow and potential that nothing has to be known of: who drew it is of no matter.
ghost use Rattle.std.specs.Prelude.{◌≡◌, ℕ, ◌+◌, ◌<◌, ◌≤◌, pos, IsTrue, length, map};
ghost use Rattle.std.specs.List.{All};
ghost use Rattle.theory.specs.Limits.{flow_most, IsWithin};
ghost use Rattle.theory.specs.Network.{«at», list_at};
ghost use Rattle.theory.specs.OnCurve.{IsOnCurve};
ghost use Rattle.theory.specs.Conserved.{IsConserved, tension};
ghost use Rattle.theory.specs.Readings.{IsUnder, IsOver};
ghost use Rattle.theory.specs.Certificate.{IsOptimalPair, IsPotentialOf, AreNumbers};
ghost use Rattle.net_incidence.specs.Graph.{bare};
ghost use Rattle.painted_search.specs.Fits.{Fits};
ghost use Rattle.net_incidence.specs.WithoutBases.{without_bases, IsPassable};
ghost use Rattle.kilter_solver.specs.Ready.{AreOnCurves};

use mono_curve::{FLOW_MOST, Monotone, Steps};
use net_incidence::Net;
use painted_search::Work;
use std::sync::ledger::Ledger;
use theory::{ArcId, Ext, NodeId};

/// Whether the flows and potentials of the room are an optimal pair: numbers of a certificate, conserved, and each flow on
/// its curve with the tension. It reads each curve at most once.
pub fn is_in_kilter<C: Monotone, L: Ledger>(
    net: &Net,
    curves: &[C],
    work: &Work,
    steps: &mut Steps<L>,
) -> bool
    requires passable { IsPassable net.now (length curves.now) }
    requires light { All (λ c. C.weight c ≡ 1) curves.now }
    requires fits { Fits net.now work.now }
    ensures pair { IsTrue result → IsOptimalPair (without_bases net.now (map C.items curves.now)) work.now.flows work.now.potentials }
    ensures flows { IsTrue result → AreNumbers (length net.now.arcs) work.now.flows }
    ensures potentials { IsTrue result → IsPotentialOf (without_bases net.now (map C.items curves.now)) work.now.potentials }
    ensures no_fewer { steps.old ≤ steps.new }
    ensures count { steps.new ≤ steps.old + length net.now.arcs }
{
    if !are_numbers(work.flows()) || !are_numbers(work.potentials()) {
        return false;
    }
    if work.potential(NodeId(0)) != 0 {
        return false;
    }
    for i in 0..net.nodes() as u32 {
        if net.divergence(work.flows(), NodeId(i)) != 0 {
            return false;
        }
    }
    are_on_curves(net, curves, work, steps)
}

/// Whether a certificate can hold the numbers.
fn are_numbers(numbers: &[i64]) -> bool
    ensures { IsTrue result → AreNumbers (length numbers.now) numbers.now }
{
    for number in numbers {
        if *number < -FLOW_MOST || FLOW_MOST < *number {
            return false;
        }
    }
    true
}

/// Whether every flow is on its curve with the tension.
fn are_on_curves<C: Monotone, L: Ledger>(
    net: &Net,
    curves: &[C],
    work: &Work,
    steps: &mut Steps<L>,
) -> bool
    requires passable { IsPassable net.now (length curves.now) }
    requires light { All (λ c. C.weight c ≡ 1) curves.now }
    requires fits { Fits net.now work.now }
    requires flows { AreNumbers (length net.now.arcs) work.now.flows }
    requires potentials { AreNumbers net.now.nodes work.now.potentials }
    ensures pairs { IsTrue result → AreOnCurves net.now (map C.items curves.now) work.now.flows work.now.potentials }
    ensures no_fewer { steps.old ≤ steps.new }
    ensures count { steps.new ≤ steps.old + length net.now.arcs }
{
    for j in 0..net.arcs() as u32 {
        if !is_on_curve(net, curves, ArcId(j), work, steps) {
            return false;
        }
    }
    true
}

/// Whether the flow of the arc is on its curve with the tension, by one reading.
fn is_on_curve<C: Monotone, L: Ledger>(
    net: &Net,
    curves: &[C],
    arc: ArcId,
    work: &Work,
    steps: &mut Steps<L>,
) -> bool
    requires passable { IsPassable net.now (length curves.now) }
    requires light { All (λ c. C.weight c ≡ 1) curves.now }
    requires fits { Fits net.now work.now }
    requires there { arc.0 < length net.now.arcs }
    requires flows { AreNumbers (length net.now.arcs) work.now.flows }
    requires potentials { AreNumbers net.now.nodes work.now.potentials }
    ensures pair { IsTrue result → IsOnCurve 1 (list_at (map C.items curves.now) arc.0) («at» work.now.flows arc.0)
        (tension (bare net.now) («at» work.now.potentials) arc.0) }
    ensures no_fewer { steps.old ≤ steps.new }
    ensures count { steps.new ≤ steps.old + 1 }
{
    let tension = net.tension(work.potentials(), arc);
    let (low, high) = curves[arc.0 as usize].slopes_at(work.flow(arc), steps);
    is_under(low, tension) && is_over(high, tension)
}

fn is_under(end: Ext, number: i64) -> bool
    ensures { IsTrue result → IsUnder end number }
{
    match end {
        Ext::MinusInf => true,
        Ext::At(a) => a <= number,
        Ext::PlusInf => false,
    }
}

fn is_over(end: Ext, number: i64) -> bool
    ensures { IsTrue result → IsOver end number }
{
    match end {
        Ext::MinusInf => false,
        Ext::At(b) => number <= b,
        Ext::PlusInf => true,
    }
}
