// Readings of a kept list by a halving search.
ghost use Rattle.std.specs.Prelude.{◌≤◌};
ghost use Rattle.theory.specs.CurveList.{IsCurveList};
ghost use Rattle.theory.specs.Readings.{IsSlopes, IsRange};
ghost use Rattle.mono_curve.specs.Halving.{IsTurn, count_from, is_item_below, is_item_up_to};
ghost use Rattle.mono_curve.specs.Halving.{IsSlopeBefore};

use theory::Ext;
use theory::pricing::precedes;

/// How many points (from place 0) or slopes (from place 1) are below the end.
fn count_below(items: &[Ext], start: usize, end: Ext) -> usize
    requires list { IsCurveList items.now }
    requires start { start ≤ 1 }
    ensures { IsTurn (is_item_below items.now start end) (count_from items.now start) result }
{
    let mut low = 0;
    let mut high = (items.len() + 1 - start) / 2;
    while low < high {
        let middle = low + (high - low) / 2;
        if precedes(items[2 * middle + start], end) {
            low = middle + 1;
        } else {
            high = middle;
        }
    }
    low
}

/// How many are not above the end: the next one too, where it is the end itself.
fn count_up_to(items: &[Ext], start: usize, end: Ext, below: usize) -> usize
    requires list { IsCurveList items.now }
    requires start { start ≤ 1 }
    requires below { IsTurn (is_item_below items.now start end) (count_from items.now start) below }
    ensures { IsTurn (is_item_up_to items.now start end) (count_from items.now start) result }
{
    if below < (items.len() + 1 - start) / 2 && !precedes(end, items[2 * below + start]) {
        below + 1
    } else {
        below
    }
}

fn slope_before(items: &[Ext], k: usize) -> Ext
    requires { IsCurveList items.now }
    ensures { IsSlopeBefore items.now k result }
{
    if k == 0 {
        return Ext::MinusInf;
    }
    if k <= items.len() / 2 {
        return items[2 * (k - 1) + 1];
    }
    Ext::PlusInf
}

/// The slopes on the two sides of the flow `x`.
pub fn slopes_of(items: &[Ext], x: i64) -> (Ext, Ext)
    requires { IsCurveList items.now }
    ensures { IsSlopes items.now x result.0 result.1 }
{
    let below = count_below(items, 0, Ext::At(x));
    let up_to = count_up_to(items, 0, Ext::At(x), below);
    (slope_before(items, below), slope_before(items, up_to))
}

/// The least and the greatest flow at the tension `v`.
pub fn range_of(items: &[Ext], v: i64) -> (Ext, Ext)
    requires { IsCurveList items.now }
    ensures { IsRange items.now v result.0 result.1 }
{
    let below = count_below(items, 1, Ext::At(v));
    let up_to = count_up_to(items, 1, Ext::At(v), below);
    (items[2 * below], items[2 * up_to])
}
