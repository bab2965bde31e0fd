// The curve of the cost at the opposite flow.
ghost use Rattle.std.specs.Prelude.{◌≡◌, ◌+◌, ◌*◌, ◌≤◌};
ghost use Rattle.theory.specs.Views.{reversed_items, reversed_of};
ghost use Rattle.theory.specs.ViewLaws.{ReversedTwiceLaw};

use crate::ends::{opposite, opposite_end, opposite_ends};
use mono_curve::{Curve, Listed, Looked, Monotone, Steps};
use std::sync::ledger::Ledger;
use theory::Ext;

/// The curve of the cost at the opposite flow: its flows and tensions are the opposites of those of
/// the curve that it borrows.
#[derive(Clone, Copy)]
pub struct Reversed<'a, C> {
    curve: &'a C,
}

impl<'a, C> Reversed<'a, C> {
    pub fn of(curve: &'a C) -> Reversed<'a, C>
        ensures borrows { result.curve.now ≡ curve.now }

        // The reversed of the reversed has the list and base of the curve.
        ensures twice { ReversedTwiceLaw }
    {
        Reversed { curve }
    }
}

impl<'a, C: Listed> Listed for Reversed<'a, C> {
    ghost use Rattle.theory.proofs.ReversedList.{reversed-is_list};
    ghost use Rattle.theory.proofs.ViewBounds.{reversed_within, reversed_short};
    ghost use Rattle.theory.proofs.ViewBounds.{reversed_conjugate_base_within};

    ghost listing = { λ s. reversed_of (C.listing s.curve.now) };

    ghost is_list = { λ s. reversed-is_list (C.listing s.curve.now).items (C.is_list s.curve.now) };

    ghost items_within = { λ s. reversed_within (C.listing s.curve.now).items (C.items_within s.curve.now) };

    ghost is_short = { λ s. reversed_short (C.listing s.curve.now).items (C.is_list s.curve.now) (C.items_within s.curve.now) };

    ghost base_within = { λ s. C.base_within s.curve.now };

    ghost conjugate_base_within = { λ s. reversed_conjugate_base_within (C.listing s.curve.now) (C.is_list s.curve.now) (C.conjugate_base_within s.curve.now) };

    fn len(&self) -> usize {
        self.curve.len()
    }

    fn item(&self, i: usize) -> Ext {
        opposite_end(self.curve.item(self.curve.len() - 1 - i))
    }

    fn base(&self) -> i128 {
        self.curve.base()
    }

    fn cost_here(&self, i: usize) -> i128 {
        self.curve.cost_here(self.curve.len() - 1 - i)
    }
}

impl<'a> Looked for Reversed<'a, Curve> {
    ghost use Rattle.std.proofs.Common.{lit≤};
    ghost use Rattle.theory.proofs.ReversedList.{reversed-is_list};
    ghost use Rattle.theory.proofs.ViewBounds.{reversed_within, reversed_short};
    ghost use Rattle.mono_curve.specs.CurveFacts.{small_base};

    ghost listing = { λ s. reversed_of s.curve.now.listing };

    ghost weight = { λ s. 4 };

    ghost is_list = { λ s. reversed-is_list s.curve.now.listing.items s.curve.now.valid.is_list };

    ghost items_within = { λ s. reversed_within s.curve.now.listing.items s.curve.now.valid.items_within };

    ghost is_short = { λ s. reversed_short s.curve.now.listing.items s.curve.now.valid.is_list s.curve.now.valid.items_within };

    ghost base_within = { λ s. small_base s.curve.now };

    ghost weighs = { λ s. lit≤ tt };

    fn len(&self) -> usize {
        Listed::len(self.curve)
    }

    fn base(&self) -> i128 {
        Listed::base(self.curve)
    }

    fn look<L: Ledger>(&self, i: usize, looks: &mut Steps<L>) -> Ext {
        opposite_end(self.curve.look(Listed::len(self.curve) - 1 - i, looks))
    }

    fn anchor<L: Ledger>(&self, i: usize, looks: &mut Steps<L>) -> i128 {
        self.curve.anchor(Listed::len(self.curve) - 1 - i, looks)
    }
}

impl<'a, C: Monotone> Monotone for Reversed<'a, C> {
    ghost use Rattle.theory.proofs.ReversedList.{reversed-is_list};
    ghost use Rattle.theory.proofs.ReadingLaws.{slopes_law, range_law, rise_law};
    ghost use Rattle.theory.proofs.ReadingLaws.{tensions_law, flows_law};
    ghost use Rattle.theory.proofs.ViewBounds.{reversed_within, reversed_short};

    ghost items = { λ s. reversed_items (C.items s.curve.now) };

    ghost weight = { λ s. C.weight s.curve.now };

    ghost is_list = { λ s. reversed-is_list (C.items s.curve.now) (C.is_list s.curve.now) };

    ghost items_within = { λ s. reversed_within (C.items s.curve.now) (C.items_within s.curve.now) };

    ghost is_short = { λ s. reversed_short (C.items s.curve.now) (C.is_list s.curve.now) (C.items_within s.curve.now) };

    ghost weighs = { λ s. C.weighs s.curve.now };

    ghost between_slopes = { λ s. slopes_law (reversed_items (C.items s.curve.now)) };

    ghost between_ends = { λ s. range_law (reversed_items (C.items s.curve.now)) };

    ghost pairs_rise = { λ s. rise_law (reversed_items (C.items s.curve.now)) (reversed-is_list (C.items s.curve.now) (C.is_list s.curve.now)) };

    ghost flows_have_tensions = { λ s. tensions_law (reversed_items (C.items s.curve.now)) (reversed-is_list (C.items s.curve.now) (C.is_list s.curve.now)) };

    ghost tensions_have_flows = { λ s. flows_law (reversed_items (C.items s.curve.now)) (reversed-is_list (C.items s.curve.now) (C.is_list s.curve.now)) };

    fn domain<L: Ledger>(&self, steps: &mut Steps<L>) -> (Ext, Ext) {
        let (low, high) = self.curve.domain(steps);
        opposite_ends(low, high)
    }

    fn span<L: Ledger>(&self, steps: &mut Steps<L>) -> (Ext, Ext) {
        let (low, high) = self.curve.span(steps);
        opposite_ends(low, high)
    }

    fn slopes_at<L: Ledger>(&self, x: i64, steps: &mut Steps<L>) -> (Ext, Ext) {
        let (low, high) = self.curve.slopes_at(opposite(x), steps);
        opposite_ends(low, high)
    }

    fn range_at<L: Ledger>(&self, v: i64, steps: &mut Steps<L>) -> (Ext, Ext) {
        let (low, high) = self.curve.range_at(opposite(v), steps);
        opposite_ends(low, high)
    }
}
