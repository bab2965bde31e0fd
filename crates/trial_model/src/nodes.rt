// The nodes, with drawn supplies that the last one balances.
ghost use Rattle.std.specs.Prelude.{◌≡◌, ◌<◌, ◌-ℤ◌, pos, [], IfOk, OnOk};
ghost use Rattle.theory.specs.Limits.{IsWithin};
ghost use Rattle.theory.specs.Sums.{sum_over};
ghost use Rattle.model_text.specs.Model.{no_entries};
ghost use Rattle.trial_model.specs.Generator.{state_after};
ghost use Rattle.trial_model.specs.Trial.{nodes, drawn_node, drawn_supply, values_below};

use crate::draws::Draws;
use crate::entries::add_node;
use model_text::Model;
use std::alloc::{AllocError, Global};

/// How many nodes a trial model has, and how many arcs its ring.
pub(crate) const NODES: u32 = 200;

pub(crate) fn add_nodes(
    alloc: Global,
    model: &mut Model,
    draws: &mut Draws,
) -> Result<(), AllocError>
    requires { model.old.entries ≡ no_entries }
    ensures nodes { OnOk result (model.new.entries ≡ record { nodes = nodes draws.old.state; arcs = [] }) }
    ensures scale { model.new.scale ≡ model.old.scale }
    ensures state { OnOk result (draws.new.state ≡ state_after draws.old.state 199) }
{
    let sum = add_drawn_nodes(alloc, model, draws)?;
    add_node(alloc, model, NODES - 1, -sum)
}

/// All nodes but the last, and the sum of their supplies.
fn add_drawn_nodes(alloc: Global, model: &mut Model, draws: &mut Draws) -> Result<i64, AllocError>
    requires { model.old.entries ≡ no_entries }
    ensures nodes { OnOk result (model.new.entries
        ≡ record { nodes = values_below 199 (drawn_node draws.old.state); arcs = [] }) }
    ensures sum { IfOk result (λ sum.
        sum ≡ sum_over (λ supply. supply) (values_below 199 (drawn_supply draws.old.state))) }
    ensures scale { model.new.scale ≡ model.old.scale }
    ensures near { IfOk result (λ sum. IsWithin 1990 sum) }
    ensures state { OnOk result (draws.new.state ≡ state_after draws.old.state 199) }
{
    let mut sum = 0;
    for position in 0..NODES - 1 {
        let supply = supply_of(draws.draw(21));
        add_node(alloc, model, position, supply)?;
        sum += supply;
    }
    Ok(sum)
}

fn supply_of(draw: u32) -> i64
    requires { draw < 21 }
    ensures { result ≡ pos draw -ℤ pos 10 }
{
    i64::from(draw) - 10
}
