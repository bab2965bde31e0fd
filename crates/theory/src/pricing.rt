// One end, one piece, and the domain and span of a list: the plain program beside the definitions. Every way of keeping a
// list shares what reads one end or one piece.
ghost use Rattle.std.specs.Prelude.{◌≡◌, ◌↔◌, pos, ◌*ℤ◌, ◌≤ℤ◌, IsTrue};
ghost use Rattle.theory.specs.Ends.{is_finite, whole, is_below, IsAtLeast, IsAtMost, IsBetween, IsPast, IsBefore};
ghost use Rattle.theory.specs.CurveList.{IsCurveList, first, last};
ghost use Rattle.theory.specs.Domain.{raised, lowered, clip};
ghost use Rattle.theory.specs.Cost.{rise};
ghost use Rattle.theory.specs.Span.{span_low, span_high};
ghost use Rattle.theory.specs.OnCurve.{FitsPiece};
ghost use Rattle.theory.specs.Limits.{number_most, IsWithin};
ghost use Rattle.theory.specs.PieceAt.{piece_of};

use crate::Ext;

// ---- one end

pub fn is_finite_end(end: Ext) -> bool
    ensures { result ≡ is_finite end }
{
    match end {
        Ext::At(_) => true,
        Ext::MinusInf | Ext::PlusInf => false,
    }
}

/// The number of a finite end, else 0.
pub fn whole_of(end: Ext) -> i64
    ensures { result ≡ whole end }
{
    match end {
        Ext::At(a) => a,
        Ext::MinusInf | Ext::PlusInf => 0,
    }
}

/// Whether the end is strictly below the other.
pub fn precedes(end: Ext, other: Ext) -> bool
    ensures { result ≡ is_below end other }
{
    end < other
}

fn raised_to(end: Ext, x: i64) -> i64
    ensures { result ≡ raised 1 end x }
{
    match end {
        Ext::At(a) => a.max(x),
        Ext::MinusInf | Ext::PlusInf => x,
    }
}

fn lowered_to(end: Ext, x: i64) -> i64
    ensures { result ≡ lowered 1 end x }
{
    match end {
        Ext::At(b) => b.min(x),
        Ext::MinusInf | Ext::PlusInf => x,
    }
}

/// The point nearest to `x` between the two ends.
pub fn clip_to(left: Ext, right: Ext, x: i64) -> i64
    ensures { result ≡ clip 1 left right x }
{
    lowered_to(right, raised_to(left, x))
}

fn is_at_least(end: Ext, x: i64) -> bool
    ensures { IsTrue result ↔ IsAtLeast 1 end x }
{
    match end {
        Ext::At(a) => a <= x,
        Ext::MinusInf | Ext::PlusInf => true,
    }
}

fn is_at_most(end: Ext, x: i64) -> bool
    ensures { IsTrue result ↔ IsAtMost 1 end x }
{
    match end {
        Ext::At(b) => x <= b,
        Ext::MinusInf | Ext::PlusInf => true,
    }
}

pub fn is_between(low: Ext, high: Ext, x: i64) -> bool
    ensures { IsTrue result ↔ IsBetween 1 low high x }
{
    is_at_least(low, x) && is_at_most(high, x)
}

// ---- one piece

fn is_past(left: Ext, x: i64) -> bool
    ensures { IsTrue result ↔ IsPast 1 left x }
{
    match left {
        Ext::At(a) => a < x,
        Ext::MinusInf | Ext::PlusInf => true,
    }
}

fn is_before(right: Ext, x: i64) -> bool
    ensures { IsTrue result ↔ IsBefore 1 right x }
{
    match right {
        Ext::At(b) => x < b,
        Ext::MinusInf | Ext::PlusInf => true,
    }
}

fn begins_below(left: Ext, slope: Ext, x: i64, v: i64) -> bool
    ensures { IsTrue result ↔ (IsPast 1 left x → (pos 1 *ℤ whole slope) ≤ℤ v) }
{
    !is_past(left, x) || whole_of(slope) <= v
}

fn ends_above(slope: Ext, right: Ext, x: i64, v: i64) -> bool
    ensures { IsTrue result ↔ (IsBefore 1 right x → v ≤ℤ (pos 1 *ℤ whole slope)) }
{
    !is_before(right, x) || v <= whole_of(slope)
}

/// Whether a flow and a tension go with one piece of a curve.
pub fn fits_piece(left: Ext, slope: Ext, right: Ext, x: i64, v: i64) -> bool
    ensures { IsTrue result ↔ FitsPiece 1 x v (piece_of left slope right) }
{
    begins_below(left, slope, x, v) && ends_above(slope, right, x, v)
}

/// What the cost rises by along one piece, from one flow to another.
pub fn rise_of(left: Ext, slope: Ext, right: Ext, from: i64, to: i64) -> i128
    requires { IsWithin number_most (whole slope) }
    ensures { result ≡ rise 1 from to (piece_of left slope right) }
{
    let slope = i128::from(whole_of(slope));
    let from = i128::from(clip_to(left, right, from));
    let to = i128::from(clip_to(left, right, to));
    slope * (to - from)
}

// ---- a whole list

pub fn domain_of(items: &[Ext]) -> (Ext, Ext)
    requires { IsCurveList items.now }
    ensures low { result.0 ≡ first items.now }
    ensures high { result.1 ≡ last items.now }
{
    (items[0], items[items.len() - 1])
}

pub fn span_of(items: &[Ext]) -> (Ext, Ext)
    requires { IsCurveList items.now }
    ensures low { result.0 ≡ span_low items.now }
    ensures high { result.1 ≡ span_high items.now }
{
    let (first, last) = domain_of(items);
    let low = if is_finite_end(first) {
        Ext::MinusInf
    } else {
        items[1]
    };
    let high = if is_finite_end(last) {
        Ext::PlusInf
    } else {
        items[items.len() - 2]
    };
    (low, high)
}
