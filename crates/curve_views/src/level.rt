// The levels of a curve: its points divided by a power of two.
ghost use Rattle.std.specs.Prelude.{◌≡◌, ◌+◌, ◌*◌, ◌^◌, ◌≤◌, ◌*ℤ◌, pos};
ghost use Rattle.theory.specs.Ends.{whole, IsBelow};
ghost use Rattle.theory.specs.CurveList.{first, last};
ghost use Rattle.theory.specs.Views.{rounded_down, rounded_up, level_items};
ghost use Rattle.theory.specs.ViewLaws.{LevelZeroLaw};
ghost use Rattle.theory.specs.Limits.{number_most, arg_most, IsWithin};
ghost use Rattle.curve_views.specs.Levels.{coarsest};
ghost use Rattle.curve_views.specs.LevelLaws.{LevelDomainLaw, LevelSpanLaw, TopLevelLaw, DoubledLaw, LevelCutLaw};
ghost use Rattle.curve_views.specs.LevelReadings.{rounded_at, slope_left, limited, argument_below};

use crate::zero_cost::{range_by, slopes_by};
use mono_curve::{Monotone, NUMBER_MOST, Steps};
use std::sync::ledger::Ledger;
use theory::Ext;
use theory::pricing::{clip_to, precedes};

/// The curve at level `k`: its points divided by `2 ^ k`, the last one rounded up and the others
/// down, without the pieces that became points. Level 0 is the curve.
#[derive(Drop)]
pub struct Level<'a, C> {
    curve: &'a C,
    k: u32,
    ghost few: { k ≤ coarsest },
}

impl<'a, C> Level<'a, C> {
    pub fn of(curve: &'a C, k: u32) -> Level<'a, C>
        requires { k ≤ coarsest }
        ensures borrows { result.curve.now ≡ curve.now }
        ensures level { result.k ≡ k }

        // Level 0 is the curve. The domain of a level has every flow divided by 2 ^ k, its span is the same.
        ensures zero { LevelZeroLaw }
        ensures domain { LevelDomainLaw }
        ensures span { LevelSpanLaw }

        // At the top a flow is nearly 0, and the double of a flow is nearly one of the next level.
        ensures top { TopLevelLaw }
        ensures doubled { DoubledLaw }

        // A negative cut of a level is a negative cut.
        ensures cut { LevelCutLaw }
    {
        Level { curve, k }
    }
}

// ---- points

fn down(point: Ext, k: u32) -> Ext
    requires { k ≤ coarsest }
    ensures { result ≡ rounded_down k point }
{
    match point {
        Ext::MinusInf => Ext::MinusInf,
        Ext::At(a) => Ext::At(a >> k),
        Ext::PlusInf => Ext::PlusInf,
    }
}

fn up(point: Ext, k: u32) -> Ext
    requires few { k ≤ coarsest }
    requires small { IsWithin number_most (whole point) }
    ensures { result ≡ rounded_up k point }
{
    match point {
        Ext::MinusInf => Ext::MinusInf,
        Ext::At(a) => Ext::At(-((-a) >> k)),
        Ext::PlusInf => Ext::PlusInf,
    }
}

/// A point of the curve at level `k`, by the last of its points.
fn rounded(point: Ext, end: Ext, k: u32) -> Ext
    requires few { k ≤ coarsest }
    requires small { IsWithin number_most (whole point) }
    ensures { result ≡ rounded_at k end point }
{
    if precedes(point, end) {
        down(point, k)
    } else {
        up(point, k)
    }
}

// ---- flows

fn power(k: u32) -> i128
    requires { k ≤ coarsest }
    ensures { result ≡ pos (2 ^ k) }
{
    1 << k
}

/// A flow of level `k` as one of the curve.
fn scaled(x: i64, k: u32) -> i128
    requires { k ≤ coarsest }
    ensures { result ≡ pos (2 ^ k) *ℤ x }
{
    power(k) * i128::from(x)
}

/// The number, though no further from 0 than just past every point.
fn limited_by(z: i128) -> i64
    ensures { result ≡ limited (number_most + 1) z }
{
    z.min(i128::from(NUMBER_MOST + 1))
        .max(-i128::from(NUMBER_MOST + 1)) as i64
}

/// Where the curve is read for the slope on the left of a flow of level `k`.
fn flow_below(x: i64, end: Ext, k: u32) -> i64
    requires few { k ≤ coarsest }
    requires small { IsWithin number_most (whole end) }
    ensures value { result ≡ argument_below number_most k end x }
    ensures within { IsWithin arg_most result }
{
    clip_to(Ext::MinusInf, end, limited_by(scaled(x, k)))
}

impl<'a, C: Monotone> Level<'a, C> {
    /// The slope on the left of a flow, by the ends of the curve's domain.
    fn left_of<L: Ledger>(&self, x: i64, end: Ext, steps: &mut Steps<L>) -> Ext
        requires long { IsBelow (first (C.items self.now.curve.now)) end }
        requires end { end ≡ last (C.items self.now.curve.now) }
        requires small { IsWithin number_most (whole end) }
        ensures slope { result ≡ slope_left (level_items self.now.k (C.items self.now.curve.now)) x }
        ensures no_fewer { steps.old ≤ steps.new }
        ensures count { steps.new ≤ steps.old + C.weight self.now.curve.now }
    {
        if precedes(up(end, self.k), Ext::At(x)) {
            return Ext::PlusInf;
        }
        self.curve.slopes_at(flow_below(x, end, self.k), steps).0
    }
}

impl<'a, C: Monotone> Monotone for Level<'a, C> {
    ghost use Rattle.theory.proofs.Level.{level-is_list};
    ghost use Rattle.theory.proofs.ReadingLaws.{slopes_law, range_law, rise_law};
    ghost use Rattle.theory.proofs.ReadingLaws.{tensions_law, flows_law};
    ghost use Rattle.curve_views.specs.LevelFacts.{level_within, level_short, three_times};

    ghost items = { λ s. level_items s.k (C.items s.curve.now) };

    ghost weight = { λ s. 3 * C.weight s.curve.now };

    ghost is_list = { λ s. level-is_list s.k (C.items s.curve.now) (C.is_list s.curve.now) };

    ghost items_within = { λ s. level_within s.k (C.items s.curve.now) (C.items_within s.curve.now) };

    ghost is_short = { λ s. level_short s.k (C.items s.curve.now) (C.is_list s.curve.now) (C.items_within s.curve.now) };

    ghost weighs = { λ s. three_times (C.weight s.curve.now) (C.weighs s.curve.now) };

    ghost between_slopes = { λ s. slopes_law (level_items s.k (C.items s.curve.now)) };

    ghost between_ends = { λ s. range_law (level_items s.k (C.items s.curve.now)) };

    ghost pairs_rise = { λ s. rise_law (level_items s.k (C.items s.curve.now)) (level-is_list s.k (C.items s.curve.now) (C.is_list s.curve.now)) };

    ghost flows_have_tensions = { λ s. tensions_law (level_items s.k (C.items s.curve.now)) (level-is_list s.k (C.items s.curve.now) (C.is_list s.curve.now)) };

    ghost tensions_have_flows = { λ s. flows_law (level_items s.k (C.items s.curve.now)) (level-is_list s.k (C.items s.curve.now) (C.is_list s.curve.now)) };

    fn domain<L: Ledger>(&self, steps: &mut Steps<L>) -> (Ext, Ext) {
        let (first, last) = self.curve.domain(steps);
        (down(first, self.k), up(last, self.k))
    }

    fn span<L: Ledger>(&self, steps: &mut Steps<L>) -> (Ext, Ext) {
        self.curve.span(steps)
    }

    /// The curve is read on the left of the flow and of the next one, whose left is the flow's right.
    fn slopes_at<L: Ledger>(&self, x: i64, steps: &mut Steps<L>) -> (Ext, Ext) {
        let (first, last) = self.curve.domain(steps);
        if !precedes(first, last) {
            return slopes_by(down(first, self.k), up(last, self.k), x);
        }
        (
            self.left_of(x, last, steps),
            self.left_of(x + 1, last, steps),
        )
    }

    fn range_at<L: Ledger>(&self, v: i64, steps: &mut Steps<L>) -> (Ext, Ext) {
        let (first, last) = self.curve.domain(steps);
        if !precedes(first, last) {
            return range_by(down(first, self.k), up(last, self.k), v);
        }
        let (low, high) = self.curve.range_at(v, steps);
        (rounded(low, last, self.k), rounded(high, last, self.k))
    }
}
