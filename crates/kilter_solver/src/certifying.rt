// From what the passes found to a certificate with its numbers.
ghost use Rattle.std.specs.Prelude.{◌≡◌, length};
ghost use Rattle.theory.specs.Feasible.{IsFeasibleFlow};
ghost use Rattle.theory.specs.Cut.{IsNegativeCut};
ghost use Rattle.theory.specs.Circuit.{IsNegativeCircuit};
ghost use Rattle.theory.specs.Certificate.{AreNumbers, IsPotentialOf, IsWalkOf, IsOptimalPair, IsValid, bare};
ghost use Rattle.theory.specs.Certificate.BareCertificate.{optimal_pair, negative_cut, negative_circuit};
ghost use Rattle.cert_text.specs.Shown.{shown};
ghost use Rattle.net_incidence.specs.declared.sums.Sum.{Sum as EndSum};
ghost use Rattle.kilter_solver.specs.Whole.{IsWhole};

use cert_text::Certificate;
use ground_net::{Grounded, total_cost};
use net_incidence::{Flows, Marks, Sum, Walk};

/// A negative cut with its capacity.
pub(crate) fn cut_of(g: &Grounded, side: Marks) -> Certificate
    requires one_each { length side ≡ g.now.network.nodes }
    requires negative { IsNegativeCut g.now.network side }
    ensures valid { IsValid g.now.network (shown result) }
    ensures parts { bare (shown result) ≡ negative_cut side }
{
    let capacity = number_of(g.net().cut_sum(g.curves(), side.as_slice()));
    Certificate::Cut { side, capacity }
}

/// A feasible flow and a negative circuit with its span.
pub(crate) fn circuit_of(g: &Grounded, x: Flows, walk: Walk) -> Certificate
    requires numbers { AreNumbers (length g.now.network.arcs) x }
    requires feasible { IsFeasibleFlow 1 g.now.network x }
    requires walk { IsWalkOf g.now.network walk }
    requires negative { IsNegativeCircuit g.now.network walk }
    ensures valid { IsValid g.now.network (shown result) }
    ensures parts { bare (shown result) ≡ negative_circuit x walk }
{
    let span = number_of(g.net().circuit_sum(g.curves(), walk.as_slice()));
    Certificate::Circuit { x, walk, span }
}

/// An optimal pair: its value is its cost, since every pair is on its curve.
pub(crate) fn pair_of(g: &Grounded, x: Flows, u: Flows) -> Certificate
    requires flows { AreNumbers (length g.now.network.arcs) x }
    requires potentials { IsPotentialOf g.now.network u }
    requires pair { IsOptimalPair g.now.network x u }
    ensures valid { IsValid g.now.network (shown result) }
    ensures parts { bare (shown result) ≡ optimal_pair x u }
{
    let cost = total_cost(g, x.as_slice());
    Certificate::Optimal {
        x,
        u,
        cost,
        value: cost,
    }
}

/// The number of a sum that counts.
pub(crate) fn number_of(sum: Sum) -> i128
    requires { IsWhole sum }
    ensures { sum ≡ EndSum.Whole result }
{
    match sum {
        Sum::Whole(number) => number,
        Sum::Endless(_) => unreachable!(),
    }
}
