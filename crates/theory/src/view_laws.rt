// Laws of the derived curves: conjugate, reversed, zero-cost and level lists.

ghost use Rattle.theory.specs.ViewLaws.{ConjugateLaw, ConjugateTwiceLaw, ConjugateCostLaw, ConjugatePairLaw, ReversedLaw, ReversedPairLaw, ReversedTwiceLaw, ReversedCostLaw, ReversedConjugateCostLaw, ZeroCostLaw, LevelLaw, LevelZeroLaw};

/// The conjugate list is a curve; its domain is the span and its span is the domain.
pub fn conjugate_is_list()
    ensures { ConjugateLaw }
{}

/// The conjugate of the conjugate is the curve, with its base.
pub fn conjugate_twice()
    ensures { ConjugateTwiceLaw }
{}

/// On the span, the cost of the conjugate list is the conjugate cost.
pub fn conjugate_cost()
    ensures { ConjugateCostLaw }
{}

/// A pair of the curve, swapped, is a pair of the conjugate.
pub fn conjugate_pair()
    ensures { ConjugatePairLaw }
{}

/// The reversed list of a curve is a curve.
pub fn reversed_is_list()
    ensures { ReversedLaw }
{}

/// A pair of the curve, each number negated, is a pair of the reversed curve.
pub fn reversed_pair()
    ensures { ReversedPairLaw }
{}

/// The reverse of the reversed curve is the curve.
pub fn reversed_twice()
    ensures { ReversedTwiceLaw }
{}

/// The reversed curve costs at the opposite flow what the curve costs.
pub fn reversed_cost()
    ensures { ReversedCostLaw }
{}

/// The reversed curve has at the opposite tension the conjugate cost of the curve.
pub fn reversed_conjugate_cost()
    ensures { ReversedConjugateCostLaw }
{}

/// The zero-cost list of a curve is a curve.
pub fn zero_cost_is_list()
    ensures { ZeroCostLaw }
{}

/// Each level of a curve is a curve.
pub fn level_is_list()
    ensures { LevelLaw }
{}

/// Level 0 of a curve is the curve.
pub fn level_zero()
    ensures { LevelZeroLaw }
{}
