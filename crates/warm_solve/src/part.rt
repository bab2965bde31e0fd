// One part of a cut's or a walk's sum, and the sum with one part in another's place.
ghost use Rattle.std.specs.Prelude.{◌≡◌, pos, ◌+ℤ◌, ◌-ℤ◌, ◌≤ℤ◌, ◌<ℤ◌, IfSome, IfNone};
ghost use Rattle.theory.specs.Ends.{negated};
ghost use Rattle.theory.specs.Circuit.{passing_end};
ghost use Rattle.theory.specs.Limits.{IsWithin, sum_most};
ghost use Rattle.net_incidence.specs.PartOf.{part_of, crossing_end};
ghost use Rattle.warm_solve.specs.Part.{IsSumWith, part_most};

use mono_curve::{Curve, Ext, domain_of, span_of};

/// What an arc adds to the sum of a cut, by whether the set holds its tail and its head; None where that is infinite.
pub(crate) fn crossing_part(curve: &Curve, at_tail: bool, at_head: bool) -> Option<i128>
    ensures value { result ≡ part_of (crossing_end curve.now.listing.items at_tail at_head) }
    ensures within { IfSome result (IsWithin part_most) }
{
    let (low, high) = domain_of(curve);
    match (at_tail, at_head) {
        (true, false) => upper_part(high),
        (false, true) => lower_part(low),
        _ => Some(0),
    }
}

/// What a step adds to the sum of a walk; None where that is infinite.
pub(crate) fn passing_part(curve: &Curve, forward: bool) -> Option<i128>
    ensures value { result ≡ part_of (passing_end curve.now.listing.items forward) }
    ensures within { IfSome result (IsWithin part_most) }
{
    let (low, high) = span_of(curve);
    if forward {
        upper_part(high)
    } else {
        lower_part(low)
    }
}

fn upper_part(end: Ext) -> Option<i128>
    ensures value { result ≡ part_of end }
    ensures within { IfSome result (IsWithin part_most) }
{
    match end {
        Ext::At(a) => Some(i128::from(a)),
        Ext::MinusInf | Ext::PlusInf => None,
    }
}

fn lower_part(end: Ext) -> Option<i128>
    ensures value { result ≡ part_of (negated end) }
    ensures within { IfSome result (IsWithin part_most) }
{
    match end {
        Ext::At(a) => Some(-i128::from(a)),
        Ext::MinusInf | Ext::PlusInf => None,
    }
}

/// The sum with a part in the place of one before, if both are numbers and the sum is below 0.
pub(crate) fn sum_with(sum: i128, before: Option<i128>, now: Option<i128>) -> Option<i128>
    requires sum { IsWithin sum_most sum }
    requires before { IfSome before (IsWithin part_most) }
    requires now { IfSome now (IsWithin part_most) }
    ensures { IsSumWith sum before now result }
{
    match (before, now) {
        (Some(before), Some(now)) => negative(moved(sum, before, now)),
        _ => None,
    }
}

/// The sum with a term in the place of one before.
pub(crate) fn moved(sum: i128, before: i128, now: i128) -> i128
    requires sum { IsWithin sum_most sum }
    requires before { IsWithin part_most before }
    requires now { IsWithin part_most now }
    ensures { result ≡ sum -ℤ before +ℤ now }
{
    sum - before + now
}

fn negative(sum: i128) -> Option<i128>
    ensures some { IfSome result (λ found. (found ≡ sum) × (found <ℤ pos 0)) }
    ensures none { IfNone result (pos 0 ≤ℤ sum) }
{
    if sum < 0 { Some(sum) } else { None }
}
