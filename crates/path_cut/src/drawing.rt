// Where the way to a greatest flow begins: with flows that the quick start draws, which nothing has to believe. They are tested as any
// flows are, and forgotten where they fail.
ghost use Rattle.std.specs.Prelude.{◌≡◌, ◌≤◌, length, map, IfOk};
ghost use Rattle.std.specs.List.{All};
ghost use Rattle.theory.specs.Cut.{IsNegativeCut};
ghost use Rattle.theory.specs.Feasible.{IsFeasibleFlow};
ghost use Rattle.theory.specs.Certificate.{AreNumbers};
ghost use Rattle.net_incidence.specs.WithoutBases.{IsPassable, without_bases};
ghost use Rattle.painted_search.specs.Fits.{Fits};

use feasible_flow::{FlowAns, feasible_flow};
use mono_curve::{Curve, CurveFault, Ext, Monotone, Steps, domain_of};
use net_incidence::Net;
use painted_search::Work;
use quick_start::{Sketch, fuel_of};
use std::alloc::{AllocError, Global};
use std::sync::ledger::Ledger;

/// A feasible flow or a negative cut. The draw is for curves of its own, as many as there are arcs.
pub(crate) fn drawn_or_found<C: Monotone, L: Ledger>(
    net: &Net,
    curves: &[C],
    gains: &[Curve],
    sketch: &mut Sketch,
    work: &mut Work,
    steps: &mut Steps<L>,
) -> FlowAns
    requires passable { IsPassable net.now (length curves.now) }
    requires light { All (λ c. C.weight c ≡ 1) curves.now }
    requires gains { length gains.now ≡ length curves.now }
    requires fits { Fits net.now work.old }
    ensures flow { result ≡ FlowAns.Flow → IsFeasibleFlow 1 (without_bases net.now (map C.items curves.now)) work.new.flows }
    ensures within { result ≡ FlowAns.Flow → AreNumbers (length net.now.arcs) work.new.flows }
    ensures cut { result ≡ FlowAns.Cut → IsNegativeCut (without_bases net.now (map C.items curves.now)) work.new.reached }
    ensures fits { Fits net.now work.new }
    ensures no_fewer { steps.old ≤ steps.new }
{
    sketch.draw(net, gains, fuel_of(net), work, steps);
    feasible_flow(net, curves, work, steps)
}

/// The curves for a draw: no cost where a flow may be, but a gain of 1 for each unit on the last arc.
pub(crate) fn gains_of(alloc: Global, curves: &[Curve]) -> Result<Vec<Curve>, AllocError>
    ensures { IfOk result (λ gains. length gains.items ≡ length curves.now) }
{
    let mut gains = Vec::new(alloc);
    for j in 0..curves.len() {
        let slope = if j + 1 < curves.len() { 0 } else { -1 };
        gains.push(gain_of(alloc, &curves[j], slope)?)?;
    }
    Ok(gains)
}

/// The domain of the curve with one slope.
fn gain_of(alloc: Global, curve: &Curve, slope: i64) -> Result<Curve, AllocError> {
    let (low, high) = domain_of(curve);
    let made = if low == high {
        Curve::of_list(alloc, &[low], 0)
    } else {
        Curve::of_list(alloc, &[low, Ext::At(slope), high], 0)
    };
    match made {
        Ok(gain) => Ok(gain),
        Err(CurveFault::NoMemory) => Err(AllocError),
        Err(_) => curve.copy(alloc),
    }
}
