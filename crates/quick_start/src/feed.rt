// Readings of curves, each paid by fuel: all that reads in this crate goes through here.
ghost use Rattle.std.specs.Prelude.{◌≡◌};
ghost use Rattle.std.specs.List.{All};
ghost use Rattle.quick_start.specs.Spent.{IsSpent};

use crate::tables::{FAR, clamped};
use mono_curve::{Ext, Monotone, Steps};
use std::sync::ledger::Ledger;

/// Two ends or two slopes, `FAR` where they are infinite.
#[derive(Clone, Copy)]
pub(crate) struct Ends {
    pub(crate) low: i64,
    pub(crate) high: i64,
}

/// The curves, and how many more readings are paid. Without fuel, or of an arc that is not there, a reading is made
/// up: both its ends are 0.
#[derive(Drop)]
pub(crate) struct Feed<'a, C: Monotone> {
    curves: &'a [C],
    pub(crate) fuel: u64,
    ghost light: { All (λ c. C.weight c ≡ 1) curves.now },
}

impl<'a, C: Monotone> Feed<'a, C> {
    pub(crate) fn new(curves: &'a [C], fuel: u64) -> Feed<'a, C>
        requires light { All (λ c. C.weight c ≡ 1) curves.now }
        ensures { result.fuel ≡ fuel }
    {
        Feed { curves, fuel }
    }

    /// Takes away fuel for work that reads nothing, so that a run that goes wrong ends soon.
    pub(crate) fn spend<L: Ledger>(&mut self, work: u64, steps: &mut Steps<L>)
        ensures { IsSpent self.old.fuel steps.old self.new.fuel steps.new }
    {
        self.fuel = self.fuel.saturating_sub(work);
    }

    /// The ends of the arc's domain.
    pub(crate) fn domain<L: Ledger>(&mut self, arc: u32, steps: &mut Steps<L>) -> Ends
        ensures { IsSpent self.old.fuel steps.old self.new.fuel steps.new }
    {
        let arc = arc as usize;
        if self.fuel == 0 || arc >= self.curves.len() {
            return Ends { low: 0, high: 0 };
        }
        self.fuel -= 1;
        let (low, high) = self.curves[arc].domain(steps);
        ends_of(low, high)
    }

    /// The slopes on the two sides of a flow.
    pub(crate) fn slopes<L: Ledger>(&mut self, arc: u32, flow: i64, steps: &mut Steps<L>) -> Ends
        ensures { IsSpent self.old.fuel steps.old self.new.fuel steps.new }
    {
        let arc = arc as usize;
        if self.fuel == 0 || arc >= self.curves.len() {
            return Ends { low: 0, high: 0 };
        }
        self.fuel -= 1;
        let (low, high) = self.curves[arc].slopes_at(clamped(flow), steps);
        ends_of(low, high)
    }

    /// The least and the greatest flow at a tension.
    pub(crate) fn range<L: Ledger>(&mut self, arc: u32, tension: i64, steps: &mut Steps<L>) -> Ends
        ensures { IsSpent self.old.fuel steps.old self.new.fuel steps.new }
    {
        let arc = arc as usize;
        if self.fuel == 0 || arc >= self.curves.len() {
            return Ends { low: 0, high: 0 };
        }
        self.fuel -= 1;
        let (low, high) = self.curves[arc].range_at(clamped(tension), steps);
        ends_of(low, high)
    }
}

fn ends_of(low: Ext, high: Ext) -> Ends {
    Ends {
        low: number_of(low),
        high: number_of(high),
    }
}

fn number_of(end: Ext) -> i64 {
    match end {
        Ext::MinusInf => -FAR,
        Ext::At(number) => number,
        Ext::PlusInf => FAR,
    }
}
