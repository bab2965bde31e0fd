// The chords: arcs across the ring, each with two prices.
ghost use Rattle.std.specs.Prelude.{◌≡◌, ◌≢◌, ◌<◌, ℕ, ◌++◌, OnOk, length};
ghost use Rattle.trial_model.specs.Generator.{state_after};
ghost use Rattle.trial_model.specs.Trial.{ring, chords, chord_from, chord_to, chord_items, chord_list};

use crate::draws::Draws;
use crate::entries::{Ends, add_arc};
use crate::nodes::NODES;
use model_text::Model;
use std::alloc::{AllocError, Global};
use theory::Ext;

const CHORDS: u32 = 800;

pub(crate) fn add_chords(
    alloc: Global,
    model: &mut Model,
    draws: &mut Draws,
) -> Result<(), AllocError>
    requires nodes { length model.old.entries.nodes ≡ 200 }
    requires arcs { (state : ℕ) × (model.old.entries.arcs ≡ ring state) }
    ensures arcs { OnOk result (model.new.entries
        ≡ record model.old.entries { arcs = model.old.entries.arcs ++ chords draws.old.state }) }
    ensures scale { model.new.scale ≡ model.old.scale }
{
    for position in 0..CHORDS {
        let (ends, items) = draw_chord(draws);
        add_arc(alloc, model, b'c', position, ends, &items)?;
    }
    Ok(())
}

/// The ends of a chord, which differ, and its list.
fn draw_chord(draws: &mut Draws) -> (Ends, [Ext; 5])
    ensures from { result.0.from ≡ chord_from draws.old.state }
    ensures to { result.0.to ≡ chord_to draws.old.state }
    ensures items { result.1 ≡ chord_items draws.old.state }
    ensures state { draws.new.state ≡ state_after draws.old.state 6 }
{
    let from = draws.draw(NODES);
    let distance = 1 + draws.draw(NODES - 1);
    let slope = draws.draw(1000);
    let first = draws.draw(50);
    let steeper = draws.draw(100);
    let further = draws.draw(50);
    let ends = Ends {
        from,
        to: (from + distance) % NODES,
    };
    (ends, chord_list(slope, first, steeper, further))
}

/// The list by the draws that it is made of.
fn chord_list(slope: u32, first: u32, steeper: u32, further: u32) -> [Ext; 5]
    requires slope { slope < 1000 }
    requires first { first < 50 }
    requires steeper { steeper < 100 }
    requires further { further < 50 }
    ensures { result ≡ chord_list slope first steeper further }
{
    let slope = i64::from(slope) - 500;
    let first = 1 + i64::from(first);
    let steeper = 1 + i64::from(steeper);
    let further = 1 + i64::from(further);
    [
        Ext::At(0),
        Ext::At(slope),
        Ext::At(first),
        Ext::At(slope + steeper),
        Ext::At(first + further),
    ]
}
