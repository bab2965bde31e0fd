// A line after the header: its tests, and what it adds to the model.
ghost use Rattle.std.specs.Prelude.{◌≡◌, ◌≤◌, is_none, IfSome, IfOk, OnOk, length};
ghost use Rattle.theory.specs.Limits.{list_most, number_most, IsWithin};
ghost use Rattle.model_text.specs.ModelText.{entry_tests, first_fault, with_line, line_listing, is_full, is_twice, is_unknown, is_loop};
ghost use Rattle.model_text.specs.LineParts.{texts, curve_tests, name_tests, AreEnds, Passes};

use crate::addition::add;
use crate::bytes::are_same;
use crate::fault::{FaultWord, PartFault};
use crate::line::{Kind, Line};
use crate::model::{ARCS_MOST, Model, NODES_MOST};
use crate::part::numbers_of;
use mono_curve::Curve;
use std::alloc::Global;

/// Adds what the line is to the model, where it passes the tests.
pub(crate) fn read_entry(alloc: Global, model: &mut Model, words: &[&[u8]]) -> Result<(), PartFault>
    ensures tests { Passes (entry_tests model.old.scale model.old.entries (texts words.now)) result }
    ensures added { OnOk result (model.new.entries ≡ with_line model.old.scale model.old.entries (texts words.now)) }
    ensures scale { model.new.scale ≡ model.old.scale }
{
    let Some(line) = Line::of(words) else {
        return Err(PartFault::Word(FaultWord::Keyword));
    };
    let curve = curve_of(alloc, model, &line)?;
    let ends = ends_of(model, &line);
    if let Some(word) = name_fault(model, &line, ends.is_none()) {
        return Err(PartFault::Word(word));
    }
    let ends = ends.unwrap();
    add(alloc, model, &line, curve, ends).map_err(|_| PartFault::NoMemory)
}

/// The curve of the line, where it passes the tests up to those of its names.
fn curve_of(alloc: Global, model: &Model, line: &Line<'_>) -> Result<Curve, PartFault>
    ensures tests { Passes (curve_tests model.now.scale model.now.entries (texts line.now.words.now)) result }
    ensures curve { IfOk result (λ curve. curve.listing ≡ line_listing model.now.scale (texts line.now.words.now)) }
    ensures short { IfOk result (λ curve. length curve.listing.items ≤ list_most) }
    ensures base { IfOk result (λ curve. IsWithin number_most curve.listing.base) }
{
    if line.lacks_names() {
        return Err(PartFault::Word(FaultWord::Name));
    }
    let numbers = numbers_of(alloc, line.part, model.scale())?;
    if is_full(model, line) {
        return Err(PartFault::Word(FaultWord::Limit));
    }
    numbers.into_curve(line.kind.is_node())
}

/// The first test of its names that the line fails, where it is known whether a node is unknown.
fn name_fault(model: &Model, line: &Line<'_>, unknown: bool) -> Option<FaultWord>
    requires { unknown ≡ is_unknown model.now.entries (texts line.now.words.now) }
    ensures { result ≡ first_fault (name_tests model.now.entries (texts line.now.words.now)) }
{
    if is_twice(model, line) {
        Some(FaultWord::Twice)
    } else if unknown {
        Some(FaultWord::Unknown)
    } else if is_loop(line) {
        Some(FaultWord::Loop)
    } else {
        None
    }
}

fn is_full(model: &Model, line: &Line<'_>) -> bool
    ensures { result ≡ is_full model.now.entries (texts line.now.words.now) }
{
    match line.kind {
        Kind::Node => model.nodes() as usize >= NODES_MOST,
        Kind::Arc => model.arcs() as usize >= ARCS_MOST,
    }
}

fn is_twice(model: &Model, line: &Line<'_>) -> bool
    ensures { result ≡ is_twice model.now.entries (texts line.now.words.now) }
{
    match line.kind {
        Kind::Node => model.node_of(line.word(1)).is_some(),
        Kind::Arc => model.arc_of(line.word(1)).is_some(),
    }
}

/// The ends of an arc by their positions, or nothing where one is unknown. A node has none, so these stand for them.
fn ends_of(model: &Model, line: &Line<'_>) -> Option<(u32, u32)>
    ensures unknown { is_none result ≡ is_unknown model.now.entries (texts line.now.words.now) }
    ensures ends { IfSome result (λ ends. AreEnds model.now.entries (texts line.now.words.now) ends.0 ends.1) }
{
    match line.kind {
        Kind::Node => Some((0, 0)),
        Kind::Arc => {
            let from = model.node_of(line.word(2))?;
            let to = model.node_of(line.word(3))?;
            Some((from, to))
        }
    }
}

fn is_loop(line: &Line<'_>) -> bool
    ensures { result ≡ is_loop (texts line.now.words.now) }
{
    match line.kind {
        Kind::Node => false,
        Kind::Arc => are_same(line.word(2), line.word(3)),
    }
}
