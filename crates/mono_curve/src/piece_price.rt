// The cost of a flow by a halving search for the piece that holds it.
ghost use Rattle.std.specs.Prelude.{◌≡◌, ℕ, ◌+◌, ◌*◌, ◌/◌, ◌^◌, ◌<◌, ◌≤◌, length};
ghost use Rattle.std.specs.Prelude.{◌+ℤ◌, ◌-ℤ◌, ◌*ℤ◌};
ghost use Rattle.theory.specs.Domain.{InDomain};
ghost use Rattle.theory.specs.Cost.{cost};
ghost use Rattle.theory.specs.Limits.{IsWithin, number_most, flow_most};
ghost use Rattle.mono_curve.specs.Halving.{IsTurn, count_from, is_item_below};
ghost use Rattle.mono_curve.specs.PointCosts.{IsOnPiece};

use crate::looked::Looked;
use crate::steps::Steps;
use std::sync::ledger::Ledger;
use theory::Ext;
use theory::pricing::{is_finite_end, precedes, whole_of};

/// The cost of the flow `x`.
pub fn price<C: Looked, L: Ledger>(curve: &C, x: i64, looks: &mut Steps<L>) -> i128
    requires inside { InDomain 1 (C.listing curve.now).items x }
    requires flow_within { IsWithin (2 * flow_most) x }
    ensures value { result ≡ cost 1 (C.listing curve.now) x }
    ensures within { IsWithin (10 ^ 28) result }

    // A length below 2 ^ d has at most d binary digits.
    ensures counted { (d : ℕ) → length (C.listing curve.now).items < 2 ^ d
        → looks.new ≤ looks.old + C.weight curve.now * (d + 8) }
{
    let below = count_below(curve, 0, Ext::At(x), looks);
    if below == 0 {
        return curve.anchor(0, looks);
    }
    price_on(curve, below - 1, x, looks)
}

/// How many points (from place 0) or slopes (from place 1) are below the end.
pub fn count_below<C: Looked, L: Ledger>(
    curve: &C,
    start: usize,
    end: Ext,
    looks: &mut Steps<L>,
) -> usize
    requires { start ≤ 1 }
    ensures turn { IsTurn (is_item_below (C.listing curve.now).items start end) (count_from (C.listing curve.now).items start) result }
    ensures counted { (d : ℕ) → count_from (C.listing curve.now).items start < 2 ^ d
        → looks.new ≤ looks.old + C.weight curve.now * d }
{
    let mut low = 0;
    let mut high = (curve.len() + 1 - start) / 2;
    while low < high {
        let middle = low + (high - low) / 2;
        if precedes(curve.look(2 * middle + start, looks), end) {
            low = middle + 1;
        } else {
            high = middle;
        }
    }
    low
}

/// The cost of a flow on piece `k`: that at a finite end of the piece, and from there along its slope.
fn price_on<C: Looked, L: Ledger>(curve: &C, k: usize, x: i64, looks: &mut Steps<L>) -> i128
    requires piece { k < length (C.listing curve.now).items / 2 }
    requires on_piece { IsOnPiece (C.listing curve.now).items k x }
    requires flow_within { IsWithin (2 * flow_most) x }
    ensures value { result ≡ cost 1 (C.listing curve.now) x }
    ensures counted { looks.new ≤ looks.old + 4 * C.weight curve.now }
{
    let slope = whole_of(curve.look(2 * k + 1, looks));
    let left = curve.look(2 * k, looks);
    if is_finite_end(left) {
        return along(curve.anchor(2 * k, looks), slope, whole_of(left), x);
    }
    let right = curve.look(2 * k + 2, looks);
    if is_finite_end(right) {
        return along(curve.anchor(2 * k + 2, looks), slope, whole_of(right), x);
    }
    along(curve.base(), slope, 0, x)
}

/// The cost further along a slope.
pub(crate) fn along(cost: i128, slope: i64, from: i64, to: i64) -> i128
    requires cost { IsWithin (10 ^ 28) cost }
    requires slope { IsWithin number_most slope }
    requires from { IsWithin number_most from }
    requires to { IsWithin (2 * flow_most) to }
    ensures { result ≡ cost +ℤ slope *ℤ (to -ℤ from) }
{
    cost + i128::from(slope) * i128::from(to - from)
}
