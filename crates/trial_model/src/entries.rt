// Nodes and arcs by the number in their name.
ghost use Rattle.std.specs.Prelude.{◌≡◌, ◌≤◌, ◌<◌, ◌∷◌, [], true, None, IfOk, OnOk, length};
ghost use Rattle.theory.specs.declared.ext.Ext.{Ext as Item};
ghost use Rattle.theory.specs.Limits.{list_most, number_most, IsWithin};
ghost use Rattle.mono_curve.specs.CurveValue.{IsValidCurve};
ghost use Rattle.model_text.specs.Model.{with_node, with_arc, node_fault, arc_fault};
ghost use Rattle.model_text.specs.Names.{is_name_byte};
ghost use Rattle.trial_model.specs.Trial.{listed, numbered, node};

use itoa::Buffer;
use model_text::{AddFault, Model, Name, NameFault};
use mono_curve::Curve;
use std::alloc::{AllocError, Global};
use theory::Ext;

/// The letter, and the number of the position, counted from 1.
fn name_at(alloc: Global, letter: u8, position: u32) -> Result<Name, AllocError>
    requires letter { is_name_byte letter ≡ true }
    requires position { position < 1000 }
    ensures { IfOk result (λ name. name.bytes ≡ numbered letter position) }
{
    let mut bytes = Vec::new(alloc);
    bytes.push(letter)?;
    bytes.extend_from_slice(Buffer::new().format(position + 1).as_bytes())?;
    match Name::of(alloc, bytes.as_slice()) {
        Ok(name) => Ok(name),
        Err(NameFault::NoMemory) => Err(AllocError),
        Err(NameFault::Form) => unreachable!(),
    }
}

fn curve_of(alloc: Global, items: &[Ext]) -> Result<Curve, AllocError>
    requires { IsValidCurve (listed items.now) }
    ensures { IfOk result (λ curve. curve.listing ≡ listed items.now) }
{
    Ok(Curve::of_tested(Vec::from_slice(alloc, items)?, 0))
}

/// A further node with a fixed supply.
pub(crate) fn add_node(
    alloc: Global,
    model: &mut Model,
    position: u32,
    supply: i64,
) -> Result<(), AllocError>
    requires position { position < 1000 }
    requires supply { IsWithin number_most supply }
    requires free { node_fault model.old.entries (numbered 110 position) ≡ None }
    ensures added { OnOk result (model.new.entries
        ≡ with_node model.old.entries (numbered 110 position) (listed (Item.At supply ∷ []))) }
    ensures scale { model.new.scale ≡ model.old.scale }
{
    let name = name_at(alloc, b'n', position)?;
    let curve = curve_of(alloc, &[Ext::At(supply)])?;
    match model.add_node(name, curve) {
        Ok(_) => Ok(()),
        Err(AddFault::NoMemory) => Err(AllocError),
        Err(_) => unreachable!(),
    }
}

/// Where an arc begins and ends, as positions of nodes.
#[derive(Clone, Copy)]
pub(crate) struct Ends {
    pub from: u32,
    pub to: u32,
}

/// A further arc with the curve of the list.
pub(crate) fn add_arc(
    alloc: Global,
    model: &mut Model,
    letter: u8,
    position: u32,
    ends: Ends,
    items: &[Ext],
) -> Result<(), AllocError>
    requires letter { is_name_byte letter ≡ true }
    requires position { position < 1000 }
    requires tail { ends.from < length model.old.entries.nodes }
    requires head { ends.to < length model.old.entries.nodes }
    requires curve { IsValidCurve (listed items.now) }
    requires short { length items.now ≤ list_most }
    requires free { arc_fault model.old.entries (numbered letter position) ends.from ends.to ≡ None }
    ensures added { OnOk result (model.new.entries ≡ with_arc model.old.entries
        (numbered letter position) ends.from ends.to (listed items.now)) }
    ensures scale { model.new.scale ≡ model.old.scale }
{
    let name = name_at(alloc, letter, position)?;
    let curve = curve_of(alloc, items)?;
    match model.add_arc(name, ends.from, ends.to, curve) {
        Ok(_) => Ok(()),
        Err(AddFault::NoMemory) => Err(AllocError),
        Err(_) => unreachable!(),
    }
}
