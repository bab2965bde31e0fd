// The laws of networks. Each function does nothing: its contract is the law.

ghost use Rattle.theory.specs.NetworkLaws.{SumLaw, WeakDualityLaw, OptimalPairLaw, NegativeCutLaw, NegativeCircuitLaw, UnboundedLaw};

/// A conserved flow is orthogonal to every tension.
pub fn sum_law()
    ensures { SumLaw }
{}

/// No feasible potential has a value above the cost of a feasible flow.
pub fn weak_duality()
    ensures { WeakDualityLaw }
{}

/// A pair that lies on its curves has equal cost and value; no flow costs less and no potential has a greater value.
pub fn optimal_pair()
    ensures { OptimalPairLaw }
{}

/// A negative cut refuses every flow.
pub fn negative_cut()
    ensures { NegativeCutLaw }
{}

/// A negative circuit refuses every potential.
pub fn negative_circuit()
    ensures { NegativeCircuitLaw }
{}

/// Where there is a feasible flow, a negative circuit leaves no plan bounded.
pub fn unbounded()
    ensures { UnboundedLaw }
{}
