// Curves that are read at a flow or a tension, each reading counted.
ghost use Rattle.std.specs.Prelude.{◌≡◌, ◌+◌, ◌*◌, ◌≤◌, ℕ, List, length};
ghost use Rattle.theory.specs.declared.ext.Ext.{Ext as Item};
ghost use Rattle.theory.specs.CurveList.{IsCurveList, first, last};
ghost use Rattle.theory.specs.Span.{span_low, span_high};
ghost use Rattle.theory.specs.Readings.{IsSlopes, IsRange};
ghost use Rattle.theory.specs.Limits.{AreWithin, number_most, arg_most, IsWithin};
ghost use Rattle.theory.specs.ReadingLaws.{SlopesLaw, RangeLaw, PairsRise, FlowsHaveTensions, TensionsHaveFlows};
ghost use Rattle.mono_curve.specs.Counted.{IsCounted};

use crate::steps::Steps;
use std::sync::ledger::Ledger;
use theory::Ext;

/// A curve that is read at a flow or a tension. Contracts alone see its weight, which is the most
/// that one reading adds to the counter.
pub trait Monotone {
    ghost items: { Self → List Item };

    ghost weight: { Self → ℕ };

    /// The ends of the domain.
    fn domain<L: Ledger>(&self, steps: &mut Steps<L>) -> (Ext, Ext)
        ensures low { result.0 ≡ first (items self.now) }
        ensures high { result.1 ≡ last (items self.now) }
        ensures counted { IsCounted (weight self.now) steps.old steps.new };

    /// The ends of the span.
    fn span<L: Ledger>(&self, steps: &mut Steps<L>) -> (Ext, Ext)
        ensures low { result.0 ≡ span_low (items self.now) }
        ensures high { result.1 ≡ span_high (items self.now) }
        ensures counted { IsCounted (weight self.now) steps.old steps.new };

    /// The slopes on the two sides of a flow.
    fn slopes_at<L: Ledger>(&self, x: i64, steps: &mut Steps<L>) -> (Ext, Ext)
        requires argument { IsWithin arg_most x }
        ensures slopes { IsSlopes (items self.now) x result.0 result.1 }
        ensures counted { IsCounted (weight self.now) steps.old steps.new };

    /// The least and the greatest flow at a tension.
    fn range_at<L: Ledger>(&self, v: i64, steps: &mut Steps<L>) -> (Ext, Ext)
        requires argument { IsWithin arg_most v }
        ensures range { IsRange (items self.now) v result.0 result.1 }
        ensures counted { IsCounted (weight self.now) steps.old steps.new };

    ghost is_list: { (c : Self) → IsCurveList (items c) };

    ghost items_within: { (c : Self) → AreWithin number_most (items c) };

    ghost is_short: { (c : Self) → length (items c) ≤ 4 * number_most + 5 };

    ghost weighs: { (c : Self) → 1 ≤ weight c };

    ghost between_slopes: { (c : Self) → SlopesLaw (items c) };

    ghost between_ends: { (c : Self) → RangeLaw (items c) };

    ghost pairs_rise: { (c : Self) → PairsRise (items c) };

    ghost flows_have_tensions: { (c : Self) → FlowsHaveTensions (items c) };

    ghost tensions_have_flows: { (c : Self) → TensionsHaveFlows (items c) };
}
