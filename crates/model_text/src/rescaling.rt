// A model at another scale: each number is counted in other units, exactly or not at all.
ghost use Rattle.std.specs.Prelude.{◌≡◌, ◌≤◌, ◌||◌, true, false, [], length, map, unsigned_abs, IfOk, IfSome, IfErr, OnOk, Some, None, if◌then◌else◌};
ghost use Rattle.theory.specs.Ends.{whole};
ghost use Rattle.theory.specs.Limits.{list_most, number_most, IsWithin, AreWithin};
ghost use Rattle.model_text.specs.Model.{no_entries, IsWithinLimits};
ghost use Rattle.model_text.specs.Scale.{IsScale};
ghost use Rattle.model_text.specs.Rescaled.{rescaled_units, are_inexact, rescaled_number, rescaled_end, is_end_inexact, rescaled_items, are_items_inexact, rescaled_curve, is_curve_inexact, rescaled_node, rescaled_arc, are_nodes_inexact, are_arcs_inexact, rescaled, is_inexact, of_flows, of_tensions};

use crate::model::Model;
use crate::name::Name;
use crate::scale::Scale;
use mono_curve::{Curve, Listed, NUMBER_MOST};
use std::alloc::Global;
use theory::Ext;
use thiserror::Error;

/// Why a model isn't written at a scale.
#[derive(Clone, Copy, PartialEq, Eq, Debug, Error)]
pub enum ScaleFault {
    #[error("a number isn't whole at that scale, or too great")]
    Inexact,
    #[error("out of memory")]
    NoMemory,
}

// Numbers that counted units of 10^-before, and then count units of 10^-after.
#[derive(Clone, Copy)]
struct Decimals {
    before: u8,
    after: u8,
}

/// The same model at the scale: its nodes, arcs, names and ends, and each number in the units of that scale.
pub fn rescale(alloc: Global, m: &Model, to: Scale) -> Result<Model, ScaleFault>
    requires { IsScale to }
    ensures scale { IfOk result (λ r. r.scale ≡ to) }
    ensures entries { IfOk result (λ r. r.entries ≡ rescaled m.now.scale to m.now.entries) }
    ensures exact { IfOk result (λ r. is_inexact m.now.scale to m.now.entries ≡ false) }
    ensures inexact { result ≡ Err ScaleFault.Inexact → is_inexact m.now.scale to m.now.entries ≡ true }
{
    let mut model = Model::with_scale(alloc, to);
    add_nodes(alloc, m, &mut model)?;
    add_arcs(alloc, m, &mut model)?;
    Ok(model)
}

/// Adds all nodes of `m` to a model without any.
fn add_nodes(alloc: Global, m: &Model, model: &mut Model) -> Result<(), ScaleFault>
    requires { model.old.entries ≡ no_entries }
    ensures scale { model.new.scale ≡ model.old.scale }
    ensures added { OnOk result (model.new.entries
        ≡ record { nodes = map (rescaled_node m.now.scale model.old.scale) m.now.entries.nodes; arcs = [] }) }
    ensures exact { OnOk result (are_nodes_inexact m.now.scale model.old.scale m.now.entries.nodes ≡ false) }
    ensures inexact { result ≡ Err ScaleFault.Inexact → are_nodes_inexact m.now.scale model.old.scale m.now.entries.nodes ≡ true }
{
    for i in 0..m.nodes() {
        let supply = curve_at(alloc, m.supply(i), m.scale(), model.scale())?;
        let Ok(name) = Name::of_tested(alloc, m.node_name(i)) else {
            return Err(ScaleFault::NoMemory);
        };
        let Ok(_) = model.push_node(name, supply) else {
            return Err(ScaleFault::NoMemory);
        };
    }
    Ok(())
}

/// Adds all arcs of `m` to a model with its nodes and no arcs.
fn add_arcs(alloc: Global, m: &Model, model: &mut Model) -> Result<(), ScaleFault>
    requires { model.old.entries
        ≡ record { nodes = map (rescaled_node m.now.scale model.old.scale) m.now.entries.nodes; arcs = [] } }
    ensures scale { model.new.scale ≡ model.old.scale }
    ensures added { OnOk result (model.new.entries ≡ rescaled m.now.scale model.old.scale m.now.entries) }
    ensures exact { OnOk result (are_arcs_inexact m.now.scale model.old.scale m.now.entries.arcs ≡ false) }
    ensures inexact { result ≡ Err ScaleFault.Inexact → are_arcs_inexact m.now.scale model.old.scale m.now.entries.arcs ≡ true }
{
    for j in 0..m.arcs() {
        let curve = curve_at(alloc, m.arc_curve(j), m.scale(), model.scale())?;
        let Ok(name) = Name::of_tested(alloc, m.arc_name(j)) else {
            return Err(ScaleFault::NoMemory);
        };
        let Ok(_) = model.push_arc(name, m.arc_from(j), m.arc_to(j), curve) else {
            return Err(ScaleFault::NoMemory);
        };
    }
    Ok(())
}

/// The curve of a model, from one scale to another.
fn curve_at(alloc: Global, curve: &Curve, from: Scale, to: Scale) -> Result<Curve, ScaleFault>
    requires from { IsScale from }
    requires to { IsScale to }
    requires limits { IsWithinLimits curve.now.listing }
    ensures curve { IfOk result (λ r. r.listing ≡ rescaled_curve from to curve.now.listing) }
    ensures exact { IfOk result (λ r. is_curve_inexact from to curve.now.listing ≡ false) }
    ensures inexact { result ≡ Err ScaleFault.Inexact → is_curve_inexact from to curve.now.listing ≡ true }
    ensures short { IfOk result (λ r. length r.listing.items ≤ list_most) }
    ensures base { IfOk result (λ r. IsWithin number_most r.listing.base) }
{
    let items = items_at(alloc, curve, from, to)?;
    let costs = Decimals {
        before: from.cost(),
        after: to.cost(),
    };
    let Some(base) = costs.number(curve.base() as i64) else {
        return Err(ScaleFault::Inexact);
    };
    Ok(Curve::of_tested(items, i128::from(base)))
}

/// The items of the curve, points and slopes in turn, from one scale to another.
fn items_at(alloc: Global, curve: &Curve, from: Scale, to: Scale) -> Result<Vec<Ext>, ScaleFault>
    requires from { IsScale from }
    requires to { IsScale to }
    ensures items { IfOk result (λ r. r.items ≡ rescaled_items (of_flows from to) (of_tensions from to) curve.now.listing.items) }
    ensures exact { IfOk result (λ r. are_items_inexact (of_flows from to) (of_tensions from to) curve.now.listing.items ≡ false) }
    ensures inexact { result ≡ Err ScaleFault.Inexact → are_items_inexact (of_flows from to) (of_tensions from to) curve.now.listing.items ≡ true }
{
    let Ok(mut items) = Vec::with_capacity(alloc, curve.len()) else {
        return Err(ScaleFault::NoMemory);
    };
    let mut here = Decimals {
        before: from.flow,
        after: to.flow,
    };
    let mut next = Decimals {
        before: from.tension,
        after: to.tension,
    };
    for i in 0..curve.len() {
        let Some(item) = here.end(curve.item(i)) else {
            return Err(ScaleFault::Inexact);
        };
        items.push_reserved(item);
        (here, next) = (next, here);
    }
    Ok(items)
}

impl Decimals {
    /// The same end, where it is whole and within the limit in the units afterwards.
    fn end(self, end: Ext) -> Option<Ext>
        requires before { self.before ≤ 12 }
        requires after { self.after ≤ 12 }
        requires within { IsWithin number_most (whole end) }
        ensures { result ≡ (if is_end_inexact self end then None else Some (rescaled_end self end)) }
    {
        match end {
            Ext::At(number) => Some(Ext::At(self.number(number)?)),
            Ext::MinusInf | Ext::PlusInf => Some(end),
        }
    }

    /// The same number.
    fn number(self, number: i64) -> Option<i64>
        requires before { self.before ≤ 12 }
        requires after { self.after ≤ 12 }
        requires within { IsWithin number_most number }
        ensures { result ≡ (if are_inexact self (unsigned_abs number) then None else Some (rescaled_number self number)) }
    {
        let units = self.units(number.unsigned_abs())? as i64;
        Some(if number < 0 { -units } else { units })
    }

    /// So many units of 10^-before in those of 10^-after.
    fn units(self, count: u64) -> Option<u64>
        requires before { self.before ≤ 12 }
        requires after { self.after ≤ 12 }
        requires within { count ≤ number_most }
        ensures is { result ≡ (if are_inexact self count then None else Some (rescaled_units self count)) }
        ensures most { IfSome result (λ units. units ≤ number_most) }
    {
        let finest = u128::from(count) * u128::from(10u64.pow(u32::from(self.after)));
        let divisor = u128::from(10u64.pow(u32::from(self.before)));
        let units = finest / divisor;
        if finest % divisor != 0 || units > NUMBER_MOST as u128 {
            return None;
        }
        Some(units as u64)
    }
}
