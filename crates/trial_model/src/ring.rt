// The ring: it carries every balanced supply, at a price in either direction.
ghost use Rattle.std.specs.Prelude.{◌≡◌, ◌<◌, ◌+◌, [], OnOk, length};
ghost use Rattle.trial_model.specs.Generator.{state_after};
ghost use Rattle.trial_model.specs.Trial.{ring, ring_items};

use crate::draws::Draws;
use crate::entries::{Ends, add_arc};
use crate::nodes::NODES;
use model_text::Model;
use std::alloc::{AllocError, Global};
use theory::Ext;

pub(crate) fn add_ring(
    alloc: Global,
    model: &mut Model,
    draws: &mut Draws,
) -> Result<(), AllocError>
    requires nodes { length model.old.entries.nodes ≡ 200 }
    requires arcs { model.old.entries.arcs ≡ [] }
    ensures arcs { OnOk result (model.new.entries ≡ record model.old.entries { arcs = ring draws.old.state }) }
    ensures scale { model.new.scale ≡ model.old.scale }
    ensures state { OnOk result (draws.new.state ≡ state_after draws.old.state 200) }
{
    for position in 0..NODES {
        let items = ring_items(draws.draw(1000));
        let ends = Ends {
            from: position,
            to: (position + 1) % NODES,
        };
        add_arc(alloc, model, b'r', position, ends, &items)?;
    }
    Ok(())
}

/// A flow of any size, at a price above 0 in either direction.
fn ring_items(draw: u32) -> [Ext; 5]
    requires { draw < 1000 }
    ensures { result ≡ ring_items (1 + draw) }
{
    let slope = 1 + i64::from(draw);
    [
        Ext::MinusInf,
        Ext::At(-slope),
        Ext::At(0),
        Ext::At(slope),
        Ext::PlusInf,
    ]
}
