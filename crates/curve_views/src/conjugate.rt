// The conjugate curve: flows and tensions change places.
ghost use Rattle.std.specs.Prelude.{◌≡◌, ◌+◌, ◌*◌, ◌^◌, ◌<◌, ◌≤◌, slice_index_or};
ghost use Rattle.theory.specs.declared.ext.Ext.{Ext as Item};
ghost use Rattle.theory.specs.Views.{conjugate_items, conjugate_of};
ghost use Rattle.theory.specs.ViewLaws.{ConjugateTwiceLaw};
ghost use Rattle.curve_views.specs.Turned.{turned_length};

use crate::dual::dual_at;
use crate::turned::{listed_cost, turned_cost, turned_item};
use mono_curve::{Curve, Listed, Looked, Monotone, Steps, domain_of, span_of};
use std::marker::Brand;
use std::sync::ledger::{Blank, Ledger};
use theory::Ext;
use theory::pricing::{clip_to, is_finite_end};

/// The conjugate of the curve that it borrows: its flows are that curve's tensions.
#[derive(Clone, Copy)]
pub struct Conjugate<'a, C> {
    curve: &'a C,
}

impl<'a, C> Conjugate<'a, C> {
    pub fn of(curve: &'a C) -> Conjugate<'a, C>
        ensures borrows { result.curve.now ≡ curve.now }

        // The conjugate of the conjugate has the list and base of the curve.
        ensures twice { ConjugateTwiceLaw }
    {
        Conjugate { curve }
    }
}

// ---- its list, item by item

/// The length with an item more beside a finite end, with an item less at an infinite one.
fn turned_len(end: Ext, len: usize) -> usize
    requires some { 1 ≤ len }
    requires few { len < 2 ^ 32 }
    ensures { result ≡ turned_length end len }
{
    if is_finite_end(end) { len + 1 } else { len - 1 }
}

/// The item of the curve's list, and plus infinity past the last.
fn item_or_end<C: Listed>(curve: &C, i: usize) -> Ext
    ensures { result ≡ slice_index_or (C.listing curve.now).items i Item.PlusInf }
{
    if i < curve.len() {
        curve.item(i)
    } else {
        Ext::PlusInf
    }
}

impl<'a, C: Listed> Listed for Conjugate<'a, C> {
    ghost use Rattle.theory.proofs.ConjugateList.{conjugate-is_list};
    ghost use Rattle.theory.proofs.ViewBounds.{conjugate_within, conjugate_short};
    ghost use Rattle.theory.proofs.ViewBounds.{conjugate_twice_base_within};

    ghost listing = { λ s. conjugate_of (C.listing s.curve.now) };

    ghost is_list = { λ s. (conjugate-is_list (C.listing s.curve.now).items (C.is_list s.curve.now)).is_list };

    ghost items_within = { λ s. conjugate_within (C.listing s.curve.now).items (C.items_within s.curve.now) };

    ghost is_short = { λ s. conjugate_short (C.listing s.curve.now).items (C.is_list s.curve.now) (C.items_within s.curve.now) };

    ghost base_within = { λ s. C.conjugate_base_within s.curve.now };

    ghost conjugate_base_within = { λ s. conjugate_twice_base_within (C.listing s.curve.now) (C.is_list s.curve.now) (C.base_within s.curve.now) };

    fn len(&self) -> usize {
        let (first, last) = domain_of(self.curve);
        turned_len(last, turned_len(first, self.curve.len()))
    }

    fn item(&self, i: usize) -> Ext {
        let (first, _) = domain_of(self.curve);
        if !is_finite_end(first) {
            return item_or_end(self.curve, i + 1);
        }
        if i == 0 {
            return Ext::MinusInf;
        }
        item_or_end(self.curve, i - 1)
    }

    /// The conjugate cost at the point of the span that is nearest to 0.
    fn base(&self) -> i128 {
        let (low, high) = span_of(self.curve);
        dual_at(self.curve, clip_to(low, high, 0))
    }

    fn cost_here(&self, i: usize) -> i128 {
        listed_cost::<C, Brand>(self.curve, i, Blank::new(1))
    }
}

// ---- its looks

/// A look is up to two at the curve below, an anchor up to four.
impl<'a> Looked for Conjugate<'a, Curve> {
    ghost use Rattle.std.proofs.Common.{lit≤};
    ghost use Rattle.theory.proofs.ConjugateList.{conjugate-is_list};
    ghost use Rattle.theory.proofs.ViewBounds.{conjugate_within, conjugate_short};
    ghost use Rattle.mono_curve.specs.CurveFacts.{small_conjugate_base};

    ghost listing = { λ s. conjugate_of s.curve.now.listing };

    ghost weight = { λ s. 4 };

    ghost is_list = { λ s. (conjugate-is_list s.curve.now.listing.items s.curve.now.valid.is_list).is_list };

    ghost items_within = { λ s. conjugate_within s.curve.now.listing.items s.curve.now.valid.items_within };

    ghost is_short = { λ s. conjugate_short s.curve.now.listing.items s.curve.now.valid.is_list s.curve.now.valid.items_within };

    ghost base_within = { λ s. small_conjugate_base s.curve.now };

    ghost weighs = { λ s. lit≤ tt };

    fn len(&self) -> usize {
        Listed::len(self)
    }

    fn base(&self) -> i128 {
        Listed::base(self)
    }

    fn look<L: Ledger>(&self, i: usize, looks: &mut Steps<L>) -> Ext {
        turned_item(self.curve, i, looks)
    }

    fn anchor<L: Ledger>(&self, i: usize, looks: &mut Steps<L>) -> i128 {
        turned_cost(self.curve, i, looks)
    }
}

// ---- its readings

impl<'a, C: Monotone> Monotone for Conjugate<'a, C> {
    ghost use Rattle.theory.proofs.ConjugateList.{conjugate-is_list};
    ghost use Rattle.theory.proofs.ReadingLaws.{slopes_law, range_law, rise_law};
    ghost use Rattle.theory.proofs.ReadingLaws.{tensions_law, flows_law};
    ghost use Rattle.theory.proofs.ViewBounds.{conjugate_within, conjugate_short};

    ghost items = { λ s. conjugate_items (C.items s.curve.now) };

    ghost weight = { λ s. C.weight s.curve.now };

    ghost is_list = { λ s. (conjugate-is_list (C.items s.curve.now) (C.is_list s.curve.now)).is_list };

    ghost items_within = { λ s. conjugate_within (C.items s.curve.now) (C.items_within s.curve.now) };

    ghost is_short = { λ s. conjugate_short (C.items s.curve.now) (C.is_list s.curve.now) (C.items_within s.curve.now) };

    ghost weighs = { λ s. C.weighs s.curve.now };

    ghost between_slopes = { λ s. slopes_law (conjugate_items (C.items s.curve.now)) };

    ghost between_ends = { λ s. range_law (conjugate_items (C.items s.curve.now)) };

    ghost pairs_rise = { λ s. rise_law (conjugate_items (C.items s.curve.now)) (conjugate-is_list (C.items s.curve.now) (C.is_list s.curve.now)).is_list };

    ghost flows_have_tensions = { λ s. tensions_law (conjugate_items (C.items s.curve.now)) (conjugate-is_list (C.items s.curve.now) (C.is_list s.curve.now)).is_list };

    ghost tensions_have_flows = { λ s. flows_law (conjugate_items (C.items s.curve.now)) (conjugate-is_list (C.items s.curve.now) (C.is_list s.curve.now)).is_list };

    fn domain<L: Ledger>(&self, steps: &mut Steps<L>) -> (Ext, Ext) {
        self.curve.span(steps)
    }

    fn span<L: Ledger>(&self, steps: &mut Steps<L>) -> (Ext, Ext) {
        self.curve.domain(steps)
    }

    fn slopes_at<L: Ledger>(&self, x: i64, steps: &mut Steps<L>) -> (Ext, Ext) {
        self.curve.range_at(x, steps)
    }

    fn range_at<L: Ledger>(&self, v: i64, steps: &mut Steps<L>) -> (Ext, Ext) {
        self.curve.slopes_at(v, steps)
    }
}
