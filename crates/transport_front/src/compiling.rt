// The model that a table stands for.
ghost use Rattle.std.specs.Prelude.{◌≡◌, ◌≤◌, ◌<◌, [], ◌∷◌, None, pos, length, map, IfOk, OnOk};
ghost use Rattle.theory.specs.Limits.{IsWithin, number_most, list_most};
ghost use Rattle.theory.specs.declared.ext.Ext.{Ext as Item};
ghost use Rattle.model_text.specs.Model.{no_entries, node_fault, arc_fault, with_node, with_arc};
ghost use Rattle.model_text.specs.Names.{IsName};
ghost use Rattle.model_text.specs.Scale.{plain};
ghost use Rattle.transport_front.specs.Table.{ArePairs, IsKind, compiled, place_node, priced, listed, supply_items};
ghost use Rattle.transport_front.specs.Rows.{kind_of};

use crate::pair::Pair;
use crate::table::{Kind, Table};
use model_text::{AddFault, Model, Name, NameFault};
use mono_curve::Curve;
use std::alloc::{AllocError, Global};
use theory::Ext;

/// Its places are nodes and its lanes are arcs, in order and with their names. A plant supplies what it makes and a shop takes
/// its demand away; the prices are slopes. The model's text is of version 1.
pub fn compile(alloc: Global, t: &Table) -> Result<Model, AllocError>
    ensures entries { IfOk result (λ model. model.entries ≡ compiled t.now.table) }
    ensures scale { IfOk result (λ model. model.scale ≡ plain) }
{
    let mut model = Model::new(alloc);
    add_nodes(alloc, &mut model, t)?;
    add_arcs(alloc, &mut model, t)?;
    Ok(model)
}

fn add_nodes(alloc: Global, model: &mut Model, t: &Table) -> Result<(), AllocError>
    requires { model.old.entries ≡ no_entries }
    ensures nodes { OnOk result (model.new.entries ≡ record { nodes = map place_node t.now.table.places; arcs = [] }) }
    ensures scale { model.new.scale ≡ model.old.scale }
{
    for i in 0..t.places() {
        let name = name_of(alloc, t.place_name(i))?;
        let supply = supply_of(alloc, t.kind(i))?;
        add_node(model, name, supply)?;
    }
    Ok(())
}

fn add_arcs(alloc: Global, model: &mut Model, t: &Table) -> Result<(), AllocError>
    requires { model.old.entries ≡ record { nodes = map place_node t.now.table.places; arcs = [] } }
    ensures arcs { OnOk result (model.new.entries ≡ compiled t.now.table) }
    ensures scale { model.new.scale ≡ model.old.scale }
{
    for j in 0..t.lanes() {
        let name = name_of(alloc, t.lane_name(j))?;
        let lane = t.lane(j);
        let curve = curve_of(alloc, &lane.pairs)?;
        add_arc(model, name, (lane.from, lane.to), curve)?;
    }
    Ok(())
}

/// Only for want of memory can that fail.
fn add_node(model: &mut Model, name: Name, supply: Curve) -> Result<(), AllocError>
    requires free { node_fault model.old.entries name.bytes ≡ None }
    requires short { length supply.listing.items ≤ list_most }
    requires base { supply.listing.base ≡ pos 0 }
    ensures added { OnOk result (model.new.entries ≡ with_node model.old.entries name.bytes supply.listing) }
    ensures scale { model.new.scale ≡ model.old.scale }
{
    match model.add_node(name, supply) {
        Ok(_) => Ok(()),
        Err(AddFault::NoMemory) => Err(AllocError),
        Err(_) => unreachable!(),
    }
}

/// Only for want of memory can that fail.
fn add_arc(model: &mut Model, name: Name, ends: (u32, u32), curve: Curve) -> Result<(), AllocError>
    requires free { arc_fault model.old.entries name.bytes ends.0 ends.1 ≡ None }
    requires tail { ends.0 < length model.old.entries.nodes }
    requires head { ends.1 < length model.old.entries.nodes }
    requires short { length curve.listing.items ≤ list_most }
    requires base { curve.listing.base ≡ pos 0 }
    ensures added { OnOk result (model.new.entries ≡ with_arc model.old.entries name.bytes ends.0 ends.1 curve.listing) }
    ensures scale { model.new.scale ≡ model.old.scale }
{
    match model.add_arc(name, ends.0, ends.1, curve) {
        Ok(_) => Ok(()),
        Err(AddFault::NoMemory) => Err(AllocError),
        Err(_) => unreachable!(),
    }
}

fn name_of(alloc: Global, bytes: &[u8]) -> Result<Name, AllocError>
    requires { IsName bytes.now }
    ensures { IfOk result (λ name. name.bytes ≡ bytes.now) }
{
    match Name::of(alloc, bytes) {
        Ok(name) => Ok(name),
        Err(NameFault::NoMemory) => Err(AllocError),
        Err(NameFault::Form) => unreachable!(),
    }
}

fn supply_of(alloc: Global, kind: &Kind) -> Result<Curve, AllocError>
    requires { IsKind (kind_of kind.now) }
    ensures { IfOk result (λ curve. curve.listing ≡ listed (supply_items (kind_of kind.now))) }
{
    match kind {
        Kind::Plant(pairs) => curve_of(alloc, pairs),
        Kind::Shop(demand) => point_of(alloc, -i64::from(*demand)),
    }
}

fn point_of(alloc: Global, point: i64) -> Result<Curve, AllocError>
    requires { IsWithin number_most point }
    ensures { IfOk result (λ curve. curve.listing ≡ listed (Item.At point ∷ [])) }
{
    let mut items = Vec::new(alloc);
    items.push(Ext::At(point))?;
    Ok(Curve::of_tested(items, 0))
}

/// Each price holds up to the sum of the sizes so far.
fn curve_of(alloc: Global, pairs: &[Pair]) -> Result<Curve, AllocError>
    requires { ArePairs pairs.now }
    ensures { IfOk result (λ curve. curve.listing ≡ listed (priced pairs.now)) }
{
    let mut items = Vec::new(alloc);
    items.push(Ext::At(0))?;
    let mut total: u32 = 0;
    for pair in pairs {
        total += pair.size;
        items.push(Ext::At(pair.price))?;
        items.push(Ext::At(i64::from(total)))?;
    }
    Ok(Curve::of_tested(items, 0))
}
