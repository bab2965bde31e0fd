// The domain of a curve at slope 0.
ghost use Rattle.std.specs.Prelude.{◌≡◌, ◌+◌, ◌*◌, ◌≤◌, pos, not, if◌then◌else◌};
ghost use Rattle.theory.specs.declared.ext.Ext.{Ext as Item};
ghost use Rattle.theory.specs.Ends.{is_below};
ghost use Rattle.theory.specs.Views.{zero_cost_items};
ghost use Rattle.curve_views.specs.ZeroCostReadings.{slope_past, slope_or};

use mono_curve::{Monotone, Steps};
use std::sync::ledger::Ledger;
use theory::Ext;
use theory::pricing::{is_finite_end, precedes};

/// The curve that has the domain of the curve that it borrows, and the cost 0 on it.
#[derive(Clone, Copy)]
pub struct ZeroCost<'a, C> {
    curve: &'a C,
}

impl<'a, C> ZeroCost<'a, C> {
    pub fn of(curve: &'a C) -> ZeroCost<'a, C>
        ensures { result.curve.now ≡ curve.now }
    {
        ZeroCost { curve }
    }
}

/// The end of the span, by the end of the domain on that side.
fn span_end(end: Ext, infinite: Ext) -> Ext
    ensures { result ≡ slope_or end infinite }
{
    if is_finite_end(end) {
        infinite
    } else {
        Ext::At(0)
    }
}

/// The slope on one side of a flow, by the ends of the domain that this side is past.
fn slope_by(past_first: bool, past_last: bool) -> Ext
    ensures { result ≡ slope_past past_first past_last }
{
    match (past_first, past_last) {
        (false, _) => Ext::MinusInf,
        (true, false) => Ext::At(0),
        (true, true) => Ext::PlusInf,
    }
}

/// The slopes on the two sides of a flow.
pub(crate) fn slopes_by(first: Ext, last: Ext, x: i64) -> (Ext, Ext)
    ensures low { result.0 ≡ slope_past (is_below first (Item.At x)) (is_below last (Item.At x)) }
    ensures high { result.1 ≡ slope_past (not (is_below (Item.At x) first)) (not (is_below (Item.At x) last)) }
{
    let flow = Ext::At(x);
    (
        slope_by(precedes(first, flow), precedes(last, flow)),
        slope_by(!precedes(flow, first), !precedes(flow, last)),
    )
}

/// The ends of the range at a tension.
pub(crate) fn range_by(first: Ext, last: Ext, v: i64) -> (Ext, Ext)
    ensures low { result.0 ≡ (if is_below (Item.At (pos 0)) (Item.At v) then last else first) }
    ensures high { result.1 ≡ (if not (is_below (Item.At v) (Item.At (pos 0))) then last else first) }
{
    let tension = Ext::At(v);
    let low = if precedes(Ext::At(0), tension) {
        last
    } else {
        first
    };
    let high = if !precedes(tension, Ext::At(0)) {
        last
    } else {
        first
    };
    (low, high)
}

impl<'a, C: Monotone> Monotone for ZeroCost<'a, C> {
    ghost use Rattle.theory.proofs.ZeroCost.{zero_cost-is_list};
    ghost use Rattle.theory.proofs.ReadingLaws.{slopes_law, range_law, rise_law};
    ghost use Rattle.theory.proofs.ReadingLaws.{tensions_law, flows_law};
    ghost use Rattle.theory.proofs.ViewBounds.{zero_cost_within, zero_cost_short};

    ghost items = { λ s. zero_cost_items (C.items s.curve.now) };

    ghost weight = { λ s. C.weight s.curve.now };

    ghost is_list = { λ s. zero_cost-is_list (C.items s.curve.now) (C.is_list s.curve.now) };

    ghost items_within = { λ s. zero_cost_within (C.items s.curve.now) (C.items_within s.curve.now) };

    ghost is_short = { λ s. zero_cost_short (C.items s.curve.now) (C.is_list s.curve.now) (C.items_within s.curve.now) };

    ghost weighs = { λ s. C.weighs s.curve.now };

    ghost between_slopes = { λ s. slopes_law (zero_cost_items (C.items s.curve.now)) };

    ghost between_ends = { λ s. range_law (zero_cost_items (C.items s.curve.now)) };

    ghost pairs_rise = { λ s. rise_law (zero_cost_items (C.items s.curve.now)) (zero_cost-is_list (C.items s.curve.now) (C.is_list s.curve.now)) };

    ghost flows_have_tensions = { λ s. tensions_law (zero_cost_items (C.items s.curve.now)) (zero_cost-is_list (C.items s.curve.now) (C.is_list s.curve.now)) };

    ghost tensions_have_flows = { λ s. flows_law (zero_cost_items (C.items s.curve.now)) (zero_cost-is_list (C.items s.curve.now) (C.is_list s.curve.now)) };

    fn domain<L: Ledger>(&self, steps: &mut Steps<L>) -> (Ext, Ext) {
        self.curve.domain(steps)
    }

    fn span<L: Ledger>(&self, steps: &mut Steps<L>) -> (Ext, Ext) {
        let (first, last) = self.curve.domain(steps);
        (span_end(first, Ext::MinusInf), span_end(last, Ext::PlusInf))
    }

    fn slopes_at<L: Ledger>(&self, x: i64, steps: &mut Steps<L>) -> (Ext, Ext) {
        let (first, last) = self.curve.domain(steps);
        slopes_by(first, last, x)
    }

    fn range_at<L: Ledger>(&self, v: i64, steps: &mut Steps<L>) -> (Ext, Ext) {
        let (first, last) = self.curve.domain(steps);
        range_by(first, last, v)
    }
}
