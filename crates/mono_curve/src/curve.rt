// A curve that keeps its list.
ghost use Rattle.std.specs.Prelude.{◌≡◌, ◌≤◌, ◌*◌, IfOk, IfErr, length};
ghost use Rattle.theory.specs.Limits.{base_most, items_most, IsWithin};
ghost use Rattle.mono_curve.specs.CurveValue.{IsValidCurve};
ghost use Rattle.mono_curve.specs.PointCosts.{AreKept};

use crate::fault::CurveFault;
use crate::listed::Listed;
use crate::looked::Looked;
use crate::monotone::Monotone;
use crate::steps::Steps;
use crate::{faults, halving, kept};
use std::alloc::{AllocError, Global};
use std::marker::Model;
use std::sync::ledger::Ledger;
use theory::{Ext, pricing};

/// A curve by its list of breakpoints and slopes. Beside each finite point it keeps the cost there.
#[derive(Drop)]
pub struct Curve {
    items: Vec<Ext>,
    costs: Vec<i64>,
    base: i128,
    ghost valid: { IsValidCurve (record { items = items.items; base = base }) },
    ghost kept: { AreKept items.items costs.items },
}

impl Model for Curve {
    ghost use Rattle.mono_curve.specs.CurveValue.{CurveValue};

    ghost Value = { CurveValue };

    ghost view = { λ c. record { listing = record { items = c.items.items; base = c.base }; valid = c.valid } };
}

impl Curve {
    ghost use Rattle.mono_curve.specs.Faults.{IsFault};

    /// The curve of a list of breakpoints and slopes in turn. The base is the cost at the rest
    /// point.
    pub fn of_list(alloc: Global, items: &[Ext], base: i128) -> Result<Curve, CurveFault>
        ensures curve { IfOk result (λ c. c.listing ≡ record { items = items.now; base = base }) }
        ensures fault { IfErr result (IsFault items.now base) }
    {
        faults::check(items, base)?;
        let kept = items.to_vec(alloc).map_err(|_| CurveFault::NoMemory)?;
        with_costs(alloc, kept, base).map_err(|_| CurveFault::NoMemory)
    }

    /// The curve of a list that was tested before. It keeps the list itself and copies nothing. Where
    /// there is no memory for the costs at its points it goes without them, and finds each by all
    /// pieces.
    pub fn of_tested(items: Vec<Ext>, base: i128) -> Curve
        requires { IsValidCurve (record { items = items.items; base = base }) }
        ensures { result.listing ≡ record { items = items.items; base = base } }
    {
        let costs = kept::costs_if_room(*items.allocator(), &items);
        Curve { items, costs, base }
    }

    /// The curve once more, its list copied in one piece.
    pub fn copy(&self, alloc: Global) -> Result<Curve, AllocError>
        ensures { IfOk result (λ c. c.listing ≡ self.now.listing) }
    {
        with_costs(alloc, Vec::from_slice(alloc, &self.items)?, self.base)
    }
}

/// The curve of a valid list, with its costs.
fn with_costs(alloc: Global, items: Vec<Ext>, base: i128) -> Result<Curve, AllocError>
    requires { IsValidCurve (record { items = items.items; base = base }) }
    ensures { IfOk result (λ c. c.listing ≡ record { items = items.items; base = base }) }
{
    let costs = kept::costs_of(alloc, &items)?;
    Ok(Curve { items, costs, base })
}

/// The curve with the list and base of another.
pub fn to_curve<C: Listed>(alloc: Global, curve: &C) -> Result<Curve, AllocError>
    requires short { length (C.listing curve.now).items ≤ items_most }
    requires base_within { IsWithin base_most (C.listing curve.now).base }
    ensures { IfOk result (λ c. c.listing ≡ C.listing curve.now) }
{
    let mut items = Vec::with_capacity(alloc, curve.len())?;
    for k in 0..curve.len() {
        items.push(curve.item(k))?;
    }
    with_costs(alloc, items, curve.base())
}

impl Listed for Curve {
    ghost use Rattle.mono_curve.specs.CurveFacts.{short_list, small_base, small_conjugate_base};

    ghost listing = { λ c. c.listing };

    ghost is_list = { λ c. c.valid.is_list };

    ghost items_within = { λ c. c.valid.items_within };

    ghost is_short = { λ c. short_list c };

    ghost base_within = { λ c. small_base c };

    ghost conjugate_base_within = { λ c. small_conjugate_base c };

    fn len(&self) -> usize {
        self.items.len()
    }

    fn item(&self, i: usize) -> Ext {
        self.items[i]
    }

    fn base(&self) -> i128 {
        self.base
    }

    fn cost_here(&self, i: usize) -> i128 {
        self.base + i128::from(kept::cost_at_point(&self.items, &self.costs, i))
    }
}

impl Looked for Curve {
    ghost use Rattle.std.proofs.Common.{lit≤};
    ghost use Rattle.mono_curve.specs.CurveFacts.{short_list, small_base};

    ghost listing = { λ c. c.listing };

    ghost weight = { λ c. 1 };

    ghost is_list = { λ c. c.valid.is_list };

    ghost items_within = { λ c. c.valid.items_within };

    ghost is_short = { λ c. short_list c };

    ghost base_within = { λ c. small_base c };

    ghost weighs = { λ c. lit≤ tt };

    fn len(&self) -> usize {
        self.items.len()
    }

    fn base(&self) -> i128 {
        self.base
    }

    fn look<L: Ledger>(&self, i: usize, looks: &mut Steps<L>) -> Ext {
        looks.tick();
        self.items[i]
    }

    fn anchor<L: Ledger>(&self, i: usize, looks: &mut Steps<L>) -> i128 {
        looks.tick();
        self.cost_here(i)
    }
}

impl Monotone for Curve {
    ghost use Rattle.std.proofs.Common.{lit≤};
    ghost use Rattle.mono_curve.specs.CurveFacts.{short_list};
    ghost use Rattle.theory.proofs.ReadingLaws.{slopes_law, range_law, rise_law};
    ghost use Rattle.theory.proofs.ReadingLaws.{tensions_law, flows_law};

    ghost items = { λ c. c.listing.items };

    ghost weight = { λ c. 1 };

    ghost is_list = { λ c. c.valid.is_list };

    ghost items_within = { λ c. c.valid.items_within };

    ghost is_short = { λ c. short_list c };

    ghost weighs = { λ c. lit≤ tt };

    ghost between_slopes = { λ c. slopes_law c.listing.items };

    ghost between_ends = { λ c. range_law c.listing.items };

    ghost pairs_rise = { λ c. rise_law c.listing.items c.valid.is_list };

    ghost flows_have_tensions = { λ c. tensions_law c.listing.items c.valid.is_list };

    ghost tensions_have_flows = { λ c. flows_law c.listing.items c.valid.is_list };

    fn domain<L: Ledger>(&self, steps: &mut Steps<L>) -> (Ext, Ext) {
        steps.tick();
        pricing::domain_of(&self.items)
    }

    fn span<L: Ledger>(&self, steps: &mut Steps<L>) -> (Ext, Ext) {
        steps.tick();
        pricing::span_of(&self.items)
    }

    fn slopes_at<L: Ledger>(&self, x: i64, steps: &mut Steps<L>) -> (Ext, Ext) {
        steps.tick();
        halving::slopes_of(&self.items, x)
    }

    fn range_at<L: Ledger>(&self, v: i64, steps: &mut Steps<L>) -> (Ext, Ext) {
        steps.tick();
        halving::range_of(&self.items, v)
    }
}
