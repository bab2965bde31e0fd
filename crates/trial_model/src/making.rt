// The model of a number.
ghost use Rattle.std.specs.Prelude.{◌≡◌, IfOk};
ghost use Rattle.model_text.specs.Scale.{plain};
ghost use Rattle.trial_model.specs.Trial.{trial_entries};

use crate::chords::add_chords;
use crate::draws::Draws;
use crate::nodes::add_nodes;
use crate::ring::add_ring;
use model_text::Model;
use std::alloc::{AllocError, Global};

/// The trial model of the number, which is the state that the generator begins with. Its text is of version 1.
pub fn trial(alloc: Global, number: u64) -> Result<Model, AllocError>
    ensures entries { IfOk result (λ model. model.entries ≡ trial_entries number) }
    ensures scale { IfOk result (λ model. model.scale ≡ plain) }
{
    let mut model = Model::new(alloc);
    let mut draws = Draws { state: number };
    add_nodes(alloc, &mut model, &mut draws)?;
    add_ring(alloc, &mut model, &mut draws)?;
    add_chords(alloc, &mut model, &mut draws)?;
    Ok(model)
}
