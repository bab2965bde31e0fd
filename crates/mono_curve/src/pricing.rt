// Cost, domain, span and the pairs of any listed curve, uncounted.
ghost use Rattle.std.specs.Prelude.{◌≡◌, ℕ, ◌↔◌, ◌*◌, ◌/◌, ◌^◌, ◌<◌, ◌≤◌, IsTrue, length};
ghost use Rattle.std.specs.Prelude.{ℤ, pos, ◌+ℤ◌, ◌*ℤ◌, ◌≤ℤ◌};
ghost use Rattle.theory.specs.CurveList.{first, last};
ghost use Rattle.theory.specs.Domain.{InDomain};
ghost use Rattle.theory.specs.Cost.{cost};
ghost use Rattle.theory.specs.Span.{InSpan, span_low, span_high};
ghost use Rattle.theory.specs.ConjugateCost.{conjugate_cost};
ghost use Rattle.theory.specs.OnCurve.{FitsPiece, IsOnCurve};
ghost use Rattle.theory.specs.PieceAt.{piece_at};
ghost use Rattle.theory.specs.Limits.{IsWithin, flow_most};

use crate::listed::Listed;
use crate::looked::Uncounted;
use crate::piece_price::price;
use crate::steps::Steps;
use std::marker::Brand;
use std::sync::ledger::{Blank, Ledger};
use theory::Ext;
use theory::pricing::{fits_piece, is_between, is_finite_end};

/// The ends of the domain.
pub fn domain_of<C: Listed>(curve: &C) -> (Ext, Ext)
    ensures low { result.0 ≡ first (C.listing curve.now).items }
    ensures high { result.1 ≡ last (C.listing curve.now).items }
{
    (curve.item(0), curve.item(curve.len() - 1))
}

/// The ends of the span.
pub fn span_of<C: Listed>(curve: &C) -> (Ext, Ext)
    ensures low { result.0 ≡ span_low (C.listing curve.now).items }
    ensures high { result.1 ≡ span_high (C.listing curve.now).items }
{
    let (first, last) = domain_of(curve);
    let low = if is_finite_end(first) {
        Ext::MinusInf
    } else {
        curve.item(1)
    };
    let high = if is_finite_end(last) {
        Ext::PlusInf
    } else {
        curve.item(curve.len() - 2)
    };
    (low, high)
}

/// Whether the flow `x` and the tension `v` are a pair of the curve.
pub fn on_curve<C: Listed>(curve: &C, x: i64, v: i64) -> bool
    ensures { IsTrue result ↔ IsOnCurve 1 (C.listing curve.now).items x v }
{
    let (low, high) = domain_of(curve);
    if !is_between(low, high, x) {
        return false;
    }
    for k in 0..curve.len() / 2 {
        if !fits_piece_at(curve, k, x, v) {
            return false;
        }
    }
    true
}

fn fits_piece_at<C: Listed>(curve: &C, k: usize, x: i64, v: i64) -> bool
    requires { k < length (C.listing curve.now).items / 2 }
    ensures { IsTrue result ↔ FitsPiece 1 x v (piece_at (C.listing curve.now).items k) }
{
    fits_piece(
        curve.item(2 * k),
        curve.item(2 * k + 1),
        curve.item(2 * k + 2),
        x,
        v,
    )
}

/// The cost of the flow `x`.
pub fn cost_at<C: Listed>(curve: &C, x: i64) -> i128
    requires inside { InDomain 1 (C.listing curve.now).items x }
    requires flow_within { IsWithin (2 * flow_most) x }
    ensures value { result ≡ cost 1 (C.listing curve.now) x }
    ensures within { IsWithin (10 ^ 28) result }

    // Its half of Fenchel's inequality: against every tension w / q of the span.
    ensures fenchel { (q : ℕ) (w : ℤ) → 1 ≤ q → InSpan q (C.listing curve.now).items w
        → (x *ℤ w) ≤ℤ (pos q *ℤ result +ℤ conjugate_cost q (C.listing curve.now) w) }
{
    priced::<C, Brand>(curve, x, Blank::new(1))
}

/// The same, with a counter that nobody reads.
fn priced<C: Listed, L: Ledger>(curve: &C, x: i64, blank: Blank) -> i128
    requires name { blank.name ≡ L.name }
    requires parts { blank.parts ≡ L.parts }
    requires some { 0 < blank.parts }
    requires inside { InDomain 1 (C.listing curve.now).items x }
    requires flow_within { IsWithin (2 * flow_most) x }
    ensures value { result ≡ cost 1 (C.listing curve.now) x }
    ensures within { IsWithin (10 ^ 28) result }
{
    let mut looks = Steps::<L>::open(blank);
    price(&Uncounted::of(curve), x, &mut looks)
}
