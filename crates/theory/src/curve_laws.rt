// Laws of one curve: duality of cost and conjugate cost, and the pairs on the curve.

ghost use Rattle.theory.specs.CurveLaws.{FenchelLaw, FenchelEqualityLaw, WholeFlowLaw, WholeTensionLaw, ScalingLaw, PairsRiseLaw, TensionOfFlowLaw, FlowOfTensionLaw};

/// Fenchel's inequality: cost plus conjugate cost is never less than flow times tension.
pub fn fenchel()
    ensures { FenchelLaw }
{}

/// The two are equal exactly on the curve.
pub fn fenchel_equality()
    ensures { FenchelEqualityLaw }
{}

/// The inequality at a whole flow, against every tension of a denominator.
pub fn whole_flow()
    ensures { WholeFlowLaw }
{}

/// The inequality at a whole tension, against every flow of a denominator.
pub fn whole_tension()
    ensures { WholeTensionLaw }
{}

/// Cost and conjugate cost go by the fraction: at q x over q they are q times those at x over 1.
pub fn scaling()
    ensures { ScalingLaw }
{}

/// Of two pairs on the curve, the one with the greater flow hasn't the lesser tension.
pub fn pairs_rise()
    ensures { PairsRiseLaw }
{}

/// Every whole flow of the domain has a whole tension on the curve.
pub fn tension_of_flow()
    ensures { TensionOfFlowLaw }
{}

/// Every whole tension of the span has a whole flow on the curve.
pub fn flow_of_tension()
    ensures { FlowOfTensionLaw }
{}
