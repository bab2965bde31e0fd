// The tests of a list, in their order.
ghost use Rattle.std.specs.Prelude.{◌≡◌, ◌↔◌, ◌<◌, IsTrue, OnOk, IfErr, length};
ghost use Rattle.theory.specs.Ends.{whole};
ghost use Rattle.theory.specs.Limits.{number_most, base_most, IsWithin};
ghost use Rattle.mono_curve.specs.CurveValue.{IsValidCurve};
ghost use Rattle.mono_curve.specs.Faults.{may_stand, IsPlaced, IsSmall, Rises};
ghost use Rattle.mono_curve.specs.Faults.{IsFirstFailure, IsFault};

use crate::fault::CurveFault;
use crate::limits::{BASE_MOST, ITEMS_MOST, NUMBER_MOST};
use theory::Ext;
use theory::pricing::{precedes, whole_of};

// ---- one item

fn stands_well(item: Ext, count: usize, k: usize) -> bool
    requires { k < count }
    ensures { result ≡ may_stand item count k }
{
    match item {
        Ext::MinusInf => 3 <= count && k == 0,
        Ext::At(_) => true,
        Ext::PlusInf => 3 <= count && k + 1 == count,
    }
}

fn is_small(item: Ext) -> bool
    ensures { IsTrue result ↔ IsWithin number_most (whole item) }
{
    let number = whole_of(item);
    -NUMBER_MOST <= number && number <= NUMBER_MOST
}

fn is_small_base(base: i128) -> bool
    ensures { IsTrue result ↔ IsWithin base_most base }
{
    -BASE_MOST <= base && base <= BASE_MOST
}

// ---- the first place that fails

fn first_misplaced(items: &[Ext]) -> Option<usize>
    ensures { IsFirstFailure (IsPlaced items.now) (length items.now) result }
{
    for k in 0..items.len() {
        if !stands_well(items[k], items.len(), k) {
            return Some(k);
        }
    }
    None
}

fn first_large(items: &[Ext]) -> Option<usize>
    ensures { IsFirstFailure (IsSmall items.now) (length items.now) result }
{
    for k in 0..items.len() {
        if !is_small(items[k]) {
            return Some(k);
        }
    }
    None
}

fn first_not_rising(items: &[Ext]) -> Option<usize>
    ensures { IsFirstFailure (Rises items.now) (length items.now) result }
{
    for k in 2..items.len() {
        if !precedes(items[k - 2], items[k]) {
            return Some(k);
        }
    }
    None
}

// ---- the whole list

/// The first fault of a list, if it has one.
pub fn check(items: &[Ext], base: i128) -> Result<(), CurveFault>
    ensures ok { OnOk result (IsValidCurve (record { items = items.now; base = base })) }
    ensures fault { IfErr result (IsFault items.now base) }
{
    if items.len() % 2 == 0 {
        return Err(CurveFault::Even);
    }
    if items.len() > ITEMS_MOST {
        return Err(CurveFault::Long);
    }
    if let Some(k) = first_misplaced(items) {
        return Err(CurveFault::Infinite(k));
    }
    if let Some(k) = first_large(items) {
        return Err(CurveFault::Magnitude(k));
    }
    if !is_small_base(base) {
        return Err(CurveFault::Magnitude(items.len()));
    }
    if let Some(k) = first_not_rising(items) {
        return Err(CurveFault::Order(k));
    }
    Ok(())
}
