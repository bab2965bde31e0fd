// Curves whose lists are looked at item by item, each look counted.
ghost use Rattle.std.specs.Prelude.{◌≡◌, ◌+◌, ◌*◌, ◌<◌, ◌≤◌, ℕ, length};
ghost use Rattle.theory.specs.CurveList.{IsCurveList, Listing, item};
ghost use Rattle.theory.specs.Limits.{AreWithin, number_most, base_most, IsWithin};
ghost use Rattle.mono_curve.specs.Counted.{IsCounted};
ghost use Rattle.mono_curve.specs.PointCosts.{IsFinitePoint, point_cost};

use crate::listed::Listed;
use crate::steps::Steps;
use std::sync::ledger::Ledger;
use theory::Ext;

/// A curve list with a base that is looked at item by item. Contracts alone see its weight, which is
/// the most that one look adds to the counter. Neither `len` nor `base` is a look.
pub trait Looked {
    ghost listing: { Self → Listing };

    ghost weight: { Self → ℕ };

    /// How many items the list has, at least one.
    fn len(&self) -> usize
        ensures { result ≡ length (listing self.now).items };

    fn base(&self) -> i128
        ensures { result ≡ (listing self.now).base };

    fn look<L: Ledger>(&self, i: usize, looks: &mut Steps<L>) -> Ext
        requires { i < length (listing self.now).items }
        ensures item { result ≡ item (listing self.now).items i }
        ensures counted { IsCounted (weight self.now) looks.old looks.new };

    /// The cost at a finite point.
    fn anchor<L: Ledger>(&self, i: usize, looks: &mut Steps<L>) -> i128
        requires { IsFinitePoint (listing self.now).items i }
        ensures cost { result ≡ point_cost (listing self.now) i }
        ensures counted { IsCounted (weight self.now) looks.old looks.new };

    ghost is_list: { (c : Self) → IsCurveList (listing c).items };

    ghost items_within: { (c : Self) → AreWithin number_most (listing c).items };

    ghost is_short: { (c : Self) → length (listing c).items ≤ 4 * number_most + 5 };

    ghost base_within: { (c : Self) → IsWithin (2 * base_most) (listing c).base };

    ghost weighs: { (c : Self) → 1 ≤ weight c };
}

/// A listed curve whose looks are counted where nobody reads the counter: one for each.
#[derive(Clone, Copy)]
pub struct Uncounted<'a, C> {
    curve: &'a C,
}

impl<'a, C> Uncounted<'a, C> {
    pub fn of(curve: &'a C) -> Uncounted<'a, C>
        ensures { result.curve.now ≡ curve.now }
    {
        Uncounted { curve }
    }
}

impl<'a, C: Listed> Looked for Uncounted<'a, C> {
    ghost use Rattle.std.proofs.Common.{lit≤};

    ghost listing = { λ s. C.listing s.curve.now };

    ghost weight = { λ s. 1 };

    ghost is_list = { λ s. C.is_list s.curve.now };

    ghost items_within = { λ s. C.items_within s.curve.now };

    ghost is_short = { λ s. C.is_short s.curve.now };

    ghost base_within = { λ s. C.base_within s.curve.now };

    ghost weighs = { λ s. lit≤ tt };

    fn len(&self) -> usize {
        self.curve.len()
    }

    fn base(&self) -> i128 {
        self.curve.base()
    }

    fn look<L: Ledger>(&self, i: usize, looks: &mut Steps<L>) -> Ext {
        looks.tick();
        self.curve.item(i)
    }

    fn anchor<L: Ledger>(&self, i: usize, looks: &mut Steps<L>) -> i128 {
        looks.tick();
        self.curve.cost_here(i)
    }
}
