// What a line that passes the tests adds to the model.
ghost use Rattle.std.specs.Prelude.{◌≡◌, ◌≤◌, false, None, IfOk, OnOk, length};
ghost use Rattle.theory.specs.Limits.{list_most, number_most, IsWithin};
ghost use Rattle.model_text.specs.ModelText.{first_fault, entry_tests, with_line, line_listing, word_at, lacks_names};
ghost use Rattle.model_text.specs.LineParts.{texts, AreEnds};

use crate::line::{Kind, Line};
use crate::model::Model;
use crate::name::{Name, NameFault};
use mono_curve::Curve;
use std::alloc::{AllocError, Global};

/// Adds the node or the arc of the line. Only for want of memory can that fail.
pub(crate) fn add(
    alloc: Global,
    model: &mut Model,
    line: &Line<'_>,
    curve: Curve,
    ends: (u32, u32),
) -> Result<(), AllocError>
    requires passed { first_fault (entry_tests model.old.scale model.old.entries (texts line.now.words.now)) ≡ None }
    requires curve { curve.listing ≡ line_listing model.old.scale (texts line.now.words.now) }
    requires short { length curve.listing.items ≤ list_most }
    requires base { IsWithin number_most curve.listing.base }
    requires ends { AreEnds model.old.entries (texts line.now.words.now) ends.0 ends.1 }
    ensures added { OnOk result (model.new.entries ≡ with_line model.old.scale model.old.entries (texts line.now.words.now)) }
    ensures scale { model.new.scale ≡ model.old.scale }
{
    let name = name_of(alloc, line)?;
    match line.kind {
        Kind::Node => model.push_node(name, curve)?,
        Kind::Arc => model.push_arc(name, ends.0, ends.1, curve)?,
    };
    Ok(())
}

fn name_of(alloc: Global, line: &Line<'_>) -> Result<Name, AllocError>
    requires { lacks_names (texts line.now.words.now) ≡ false }
    ensures { IfOk result (λ name. name.bytes ≡ word_at (texts line.now.words.now) 1) }
{
    match Name::of(alloc, line.word(1)) {
        Ok(name) => Ok(name),
        Err(NameFault::NoMemory) => Err(AllocError),
        Err(NameFault::Form) => unreachable!(),
    }
}
