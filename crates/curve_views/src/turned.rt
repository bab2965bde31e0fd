// The conjugate list with its costs, by looks at the list that it is made from.
ghost use Rattle.std.specs.Prelude.{◌≡◌, ◌+◌, ◌*◌, ◌%◌, ◌^◌, ◌<◌, ◌≤◌, length, slice_index_or};
ghost use Rattle.theory.specs.declared.ext.Ext.{Ext as Item};
ghost use Rattle.theory.specs.Ends.{is_finite};
ghost use Rattle.theory.specs.CurveList.{item};
ghost use Rattle.theory.specs.Views.{conjugate_items, conjugate_of};
ghost use Rattle.mono_curve.specs.PointCosts.{IsFinitePoint, point_cost};
ghost use Rattle.curve_views.specs.Turned.{slope_number, end_to_look_at};

use crate::dual::gain;
use mono_curve::{Listed, Looked, Steps, Uncounted};
use std::sync::ledger::{Blank, Ledger};
use theory::Ext;
use theory::pricing::{is_finite_end, whole_of};

/// Item `i` of the conjugate list.
pub fn turned_item<C: Looked, L: Ledger>(curve: &C, i: usize, looks: &mut Steps<L>) -> Ext
    requires { i < length (conjugate_items (C.listing curve.now).items) }
    ensures item { result ≡ item (conjugate_items (C.listing curve.now).items) i }
    ensures least { looks.old + 1 ≤ looks.new }
    ensures most { looks.new ≤ looks.old + 2 * C.weight curve.now }
{
    let first = curve.look(0, looks);
    if !is_finite_end(first) {
        return look_or_end(curve, i + 1, looks);
    }
    if i == 0 {
        return Ext::MinusInf;
    }
    look_or_end(curve, i - 1, looks)
}

/// The item of the curve's list, and plus infinity past the last.
fn look_or_end<C: Looked, L: Ledger>(curve: &C, i: usize, looks: &mut Steps<L>) -> Ext
    ensures item { result ≡ slice_index_or (C.listing curve.now).items i Item.PlusInf }
    ensures least { looks.old ≤ looks.new }
    ensures most { looks.new ≤ looks.old + C.weight curve.now }
{
    if i < curve.len() {
        curve.look(i, looks)
    } else {
        Ext::PlusInf
    }
}

/// The conjugate's cost at its point `i`, which is a slope of the curve: at an end of the piece of that
/// slope, flow times slope less the cost; and minus the base where the piece has no end.
pub fn turned_cost<C: Looked, L: Ledger>(curve: &C, i: usize, looks: &mut Steps<L>) -> i128
    requires { IsFinitePoint (conjugate_items (C.listing curve.now).items) i }
    ensures cost { result ≡ point_cost (conjugate_of (C.listing curve.now)) i }
    ensures least { looks.old + 1 ≤ looks.new }
    ensures most { looks.new ≤ looks.old + 4 * C.weight curve.now }
{
    let first = curve.look(0, looks);
    let k = number_of_slope(first, i);
    let slope = whole_of(curve.look(2 * k + 1, looks));
    let at = end_of_slope(first, k);
    let end = curve.look(at, looks);
    if is_finite_end(end) {
        return gain(whole_of(end), slope, curve.anchor(at, looks));
    }
    -curve.base()
}

/// The number of the piece whose slope is the conjugate's point `i`.
fn number_of_slope(first: Ext, i: usize) -> usize
    requires { i % 2 ≡ 0 }
    ensures { result ≡ slope_number (is_finite first) i }
{
    if is_finite_end(first) && i != 0 {
        i / 2 - 1
    } else {
        i / 2
    }
}

/// Where an end of piece `k` stands: its left one, unless that is infinite.
fn end_of_slope(first: Ext, k: usize) -> usize
    requires { k < 2 ^ 62 }
    ensures { result ≡ end_to_look_at (is_finite first) k }
{
    if k == 0 && !is_finite_end(first) {
        2
    } else {
        2 * k
    }
}

/// The same of any listed curve, with a counter that nobody reads.
pub fn listed_cost<C: Listed, L: Ledger>(curve: &C, i: usize, blank: Blank) -> i128
    requires name { blank.name ≡ L.name }
    requires parts { blank.parts ≡ L.parts }
    requires some { 0 < blank.parts }
    requires point { IsFinitePoint (conjugate_items (C.listing curve.now).items) i }
    ensures { result ≡ point_cost (conjugate_of (C.listing curve.now)) i }
{
    let mut looks = Steps::<L>::open(blank);
    turned_cost(&Uncounted::of(curve), i, &mut looks)
}
