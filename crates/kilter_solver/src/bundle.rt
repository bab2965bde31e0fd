// A curve for each arc, read by the arc's number: the curves of a slice, or curves that are derived from them.
ghost use Rattle.std.specs.Prelude.{ℕ, ◌<◌, List, length, map};
ghost use Rattle.theory.specs.declared.ext.Ext.{Ext as Item};
ghost use Rattle.theory.specs.CurveList.{IsCurveList};
ghost use Rattle.theory.specs.Readings.{IsSlopes, IsRange};
ghost use Rattle.theory.specs.Limits.{AreWithin, number_most, arg_most, IsWithin};
ghost use Rattle.mono_curve.specs.Counted.{IsCounted};
ghost use Rattle.theory.specs.Network.{list_at};
ghost use Rattle.kilter_solver.specs.BundleFacts.{greatest, all_lists, all_within};

use mono_curve::{Monotone, Steps};
use std::sync::ledger::Ledger;
use theory::{ArcId, Ext};

/// Contracts alone see the weight, the most that one reading adds to the counter.
pub trait Bundle {
    ghost lists: { Self → List (List Item) };

    ghost weight: { Self → ℕ };

    /// The slopes of the arc's curve on the two sides of a flow.
    fn slopes<L: Ledger>(&self, arc: ArcId, x: i64, steps: &mut Steps<L>) -> (Ext, Ext)
        requires there { arc.0 < length (lists self.now) }
        requires argument { IsWithin arg_most x }
        ensures slopes { IsSlopes (list_at (lists self.now) arc.0) x result.0 result.1 }
        ensures counted { IsCounted (weight self.now) steps.old steps.new };

    /// The least and the greatest flow of the arc's curve at a tension.
    fn range<L: Ledger>(&self, arc: ArcId, v: i64, steps: &mut Steps<L>) -> (Ext, Ext)
        requires there { arc.0 < length (lists self.now) }
        requires argument { IsWithin arg_most v }
        ensures range { IsRange (list_at (lists self.now) arc.0) v result.0 result.1 }
        ensures counted { IsCounted (weight self.now) steps.old steps.new };

    ghost are_lists: { (s : Self) (j : ℕ) → IsCurveList (list_at (lists s) j) };

    ghost are_within: { (s : Self) (j : ℕ) → AreWithin number_most (list_at (lists s) j) };
}

/// The curves of a slice as they are.
#[derive(Drop)]
pub struct Plain<'a, C> {
    pub curves: &'a [C],
}

impl<C: Monotone> Bundle for Plain<'_, C> {
    ghost lists = { λ s. map C.items s.curves.now };

    ghost weight = { λ s. greatest C.weight s.curves.now };

    ghost are_lists = { λ s. all_lists C.items C.is_list s.curves.now };

    ghost are_within = { λ s. all_within C.items C.items_within s.curves.now };

    fn slopes<L: Ledger>(&self, arc: ArcId, x: i64, steps: &mut Steps<L>) -> (Ext, Ext) {
        self.curves[arc.0 as usize].slopes_at(x, steps)
    }

    fn range<L: Ledger>(&self, arc: ArcId, v: i64, steps: &mut Steps<L>) -> (Ext, Ext) {
        self.curves[arc.0 as usize].range_at(v, steps)
    }
}
