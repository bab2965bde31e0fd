// The conjugate cost of any listed curve: at a flow of the tension it is flow times tension less the
// cost, by Fenchel's equality. One halving search finds the flow, another its cost.
ghost use Rattle.std.specs.Prelude.{◌≡◌, ◌↔◌, ℕ, ◌*◌, ◌^◌, ◌<◌, ◌≤◌};
ghost use Rattle.std.specs.Prelude.{ℤ, pos, ◌+ℤ◌, ◌-ℤ◌, ◌*ℤ◌, ◌≤ℤ◌};
ghost use Rattle.theory.specs.declared.ext.Ext.{Ext as Item};
ghost use Rattle.theory.specs.Domain.{InDomain};
ghost use Rattle.theory.specs.Cost.{cost};
ghost use Rattle.theory.specs.Span.{InSpan};
ghost use Rattle.theory.specs.ConjugateCost.{conjugate_cost};
ghost use Rattle.theory.specs.Views.{conjugate_of};
ghost use Rattle.theory.specs.OnCurve.{IsOnCurve};
ghost use Rattle.theory.specs.Readings.{IsRange};
ghost use Rattle.theory.specs.Limits.{number_most, IsWithin, flow_most};
ghost use Rattle.mono_curve.specs.Halving.{IsTurn, count_from, is_item_below, is_item_up_to};
ghost use Rattle.curve_views.specs.FlowBetween.{flow_between};

use mono_curve::{Listed, Steps, Uncounted, cost_at, count_below};
use std::marker::Brand;
use std::sync::ledger::{Blank, Ledger};
use theory::Ext;
use theory::pricing::precedes;

/// The conjugate cost at the tension `v`.
pub fn dual_at<C: Listed>(curve: &C, v: i64) -> i128
    requires inside { InSpan 1 (C.listing curve.now).items v }
    requires tension_within { IsWithin (2 * flow_most) v }
    ensures value { result ≡ conjugate_cost 1 (C.listing curve.now) v }
    ensures of_conjugate { result ≡ cost 1 (conjugate_of (C.listing curve.now)) v }
    ensures within { IsWithin (2 * 10 ^ 28) result }

    // Its half of Fenchel's inequality: against every flow p / q of the domain.
    ensures fenchel { (q : ℕ) (p : ℤ) → 1 ≤ q → InDomain q (C.listing curve.now).items p
        → (p *ℤ v) ≤ℤ (cost q (C.listing curve.now) p +ℤ pos q *ℤ result) }

    // At a whole flow the two sides are equal exactly on the curve.
    ensures equality { (x : ℤ) → InDomain 1 (C.listing curve.now).items x
        → (cost 1 (C.listing curve.now) x +ℤ result ≡ x *ℤ v) ↔ IsOnCurve 1 (C.listing curve.now).items x v }

    // The conjugate of the conjugate has the list and base of the curve.
    ensures twice { conjugate_of (conjugate_of (C.listing curve.now)) ≡ C.listing curve.now }
{
    let flow = flow_at(curve, v);
    gain(flow, v, cost_at(curve, flow))
}

/// Flow times tension, less the cost.
pub(crate) fn gain(flow: i64, tension: i64, cost: i128) -> i128
    requires flow { IsWithin number_most flow }
    requires tension { IsWithin (2 * flow_most) tension }
    requires cost { IsWithin (10 ^ 28) cost }
    ensures value { result ≡ flow *ℤ tension -ℤ cost }
    ensures within { IsWithin (2 * 10 ^ 28) result }
{
    i128::from(flow) * i128::from(tension) - cost
}

/// A flow that is on the curve with the tension `v`.
fn flow_at<C: Listed>(curve: &C, v: i64) -> i64
    requires { InSpan 1 (C.listing curve.now).items v }
    ensures pair { IsOnCurve 1 (C.listing curve.now).items result v }
    ensures within { IsWithin number_most result }
{
    let (low, high) = range_of(curve, v);
    finite_between(low, high)
}

/// A flow between two ends: one of them that is finite, else 0.
fn finite_between(low: Ext, high: Ext) -> i64
    ensures { result ≡ flow_between low high }
{
    match (low, high) {
        (Ext::At(a), _) => a,
        (_, Ext::At(b)) => b,
        (_, _) => 0,
    }
}

/// The least and the greatest flow at the tension `v`.
fn range_of<C: Listed>(curve: &C, v: i64) -> (Ext, Ext)
    ensures { IsRange (C.listing curve.now).items v result.0 result.1 }
{
    let below = slopes_below(curve, v);
    let up_to = slopes_up_to(curve, v, below);
    (curve.item(2 * below), curve.item(2 * up_to))
}

/// How many slopes are below the tension.
fn slopes_below<C: Listed>(curve: &C, v: i64) -> usize
    ensures { IsTurn (is_item_below (C.listing curve.now).items 1 (Item.At v)) (count_from (C.listing curve.now).items 1) result }
{
    searched::<C, Brand>(curve, v, Blank::new(1))
}

/// The same, with a counter that nobody reads.
fn searched<C: Listed, L: Ledger>(curve: &C, v: i64, blank: Blank) -> usize
    requires name { blank.name ≡ L.name }
    requires parts { blank.parts ≡ L.parts }
    requires some { 0 < blank.parts }
    ensures { IsTurn (is_item_below (C.listing curve.now).items 1 (Item.At v)) (count_from (C.listing curve.now).items 1) result }
{
    let mut looks = Steps::<L>::open(blank);
    count_below(&Uncounted::of(curve), 1, Ext::At(v), &mut looks)
}

/// How many are not above it: the next one too, where it is the tension itself.
fn slopes_up_to<C: Listed>(curve: &C, v: i64, below: usize) -> usize
    requires { IsTurn (is_item_below (C.listing curve.now).items 1 (Item.At v)) (count_from (C.listing curve.now).items 1) below }
    ensures { IsTurn (is_item_up_to (C.listing curve.now).items 1 (Item.At v)) (count_from (C.listing curve.now).items 1) result }
{
    if below < curve.len() / 2 && !precedes(Ext::At(v), curve.item(2 * below + 1)) {
        below + 1
    } else {
        below
    }
}
