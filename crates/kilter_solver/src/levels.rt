// The curves of a slice at one level.
ghost use Rattle.std.specs.Prelude.{◌≡◌, ◌*◌, ◌≤◌};
ghost use Rattle.theory.specs.Limits.{arg_most, IsWithin};
ghost use Rattle.theory.specs.Readings.{IsSlopes, IsRange};
ghost use Rattle.theory.specs.Views.{level_items};
ghost use Rattle.theory.proofs.Level.{level-is_list};
ghost use Rattle.curve_views.specs.Levels.{coarsest};
ghost use Rattle.curve_views.specs.LevelFacts.{level_within};
ghost use Rattle.mono_curve.specs.Counted.{IsCounted};
ghost use Rattle.kilter_solver.specs.BundleFacts.{greatest, all_lists, all_within};
ghost use Rattle.kilter_solver.specs.Leveling.{levels_of};

use crate::bundle::Bundle;
use curve_views::Level;
use mono_curve::{Monotone, Steps};
use std::sync::ledger::Ledger;
use theory::{ArcId, Ext};

/// Level `k` of each curve of a slice.
#[derive(Drop)]
pub struct Levels<'a, C> {
    curves: &'a [C],
    k: u32,
    ghost few: { k ≤ coarsest },
}

impl<'a, C> Levels<'a, C> {
    pub fn of(curves: &'a [C], k: u32) -> Levels<'a, C>
        requires { k ≤ coarsest }
        ensures curves { result.curves.now ≡ curves.now }
        ensures level { result.k ≡ k }
    {
        Levels { curves, k }
    }
}

impl<C: Monotone> Bundle for Levels<'_, C> {
    ghost lists = { λ s. levels_of C.items s.k s.curves.now };

    ghost weight = { λ s. 3 * greatest C.weight s.curves.now };

    ghost are_lists = { λ s. all_lists (λ c. level_items s.k (C.items c)) (λ c. level-is_list s.k (C.items c) (C.is_list c)) s.curves.now };

    ghost are_within = { λ s. all_within (λ c. level_items s.k (C.items c)) (λ c. level_within s.k (C.items c) (C.items_within c)) s.curves.now };

    fn slopes<L: Ledger>(&self, arc: ArcId, x: i64, steps: &mut Steps<L>) -> (Ext, Ext) {
        level_slopes(&self.curves[arc.0 as usize], self.k, x, steps)
    }

    fn range<L: Ledger>(&self, arc: ArcId, v: i64, steps: &mut Steps<L>) -> (Ext, Ext) {
        level_range(&self.curves[arc.0 as usize], self.k, v, steps)
    }
}

fn level_slopes<C: Monotone, L: Ledger>(
    curve: &C,
    k: u32,
    x: i64,
    steps: &mut Steps<L>,
) -> (Ext, Ext)
    requires level { k ≤ coarsest }
    requires argument { IsWithin arg_most x }
    ensures slopes { IsSlopes (level_items k (C.items curve.now)) x result.0 result.1 }
    ensures counted { IsCounted (3 * C.weight curve.now) steps.old steps.new }
{
    Level::of(curve, k).slopes_at(x, steps)
}

fn level_range<C: Monotone, L: Ledger>(
    curve: &C,
    k: u32,
    v: i64,
    steps: &mut Steps<L>,
) -> (Ext, Ext)
    requires level { k ≤ coarsest }
    requires argument { IsWithin arg_most v }
    ensures range { IsRange (level_items k (C.items curve.now)) v result.0 result.1 }
    ensures counted { IsCounted (3 * C.weight curve.now) steps.old steps.new }
{
    Level::of(curve, k).range_at(v, steps)
}
