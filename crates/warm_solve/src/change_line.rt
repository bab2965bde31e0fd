// A line after the header: its tests, and the change that it makes.
ghost use Rattle.std.specs.Prelude.{◌≡◌, ◌≤◌, ◌<◌, ◌+◌, ◌++◌, ◌∷◌, [], IfOk, OnOk, length, option_map};
ghost use Rattle.theory.specs.Limits.{list_most, number_most, IsWithin};
ghost use Rattle.model_text.specs.LineParts.{texts, Passes};
ghost use Rattle.model_text.specs.ModelText.{word_at, part_listing};
ghost use Rattle.model_text.specs.Scale.{IsScale};
ghost use Rattle.warm_solve.specs.ChangesText.{entry_tests, named_tests, curve_tests, changes_in, change_of, part_of, arc_of};
ghost use Rattle.warm_solve.specs.ChangesReading.{has_numbers};

use crate::changes::{Change, Changes};
use model_text::{FaultWord, Model, PartFault, Scale, are_same, curve_of_words, is_name};
use mono_curve::Curve;
use net_incidence::ArcId;
use std::alloc::Global;

/// Adds the change that the line makes, where it passes the tests.
pub(crate) fn read_change(
    alloc: Global,
    m: &Model,
    changes: &mut Changes,
    words: &[&[u8]],
    line: u32,
) -> Result<(), PartFault>
    ensures tests { Passes (entry_tests m.now.scale m.now.entries (length changes.old) (texts words.now)) result }
    ensures added { OnOk result (changes.new ≡ changes.old ++ changes_in m.now.scale m.now.entries line (texts words.now)) }
{
    let keyword = word(words, 0);
    if are_same(keyword, b"node") {
        read_named(alloc, m, changes, words, line, true)
    } else if are_same(keyword, b"arc") {
        read_named(alloc, m, changes, words, line, false)
    } else {
        Err(PartFault::Word(FaultWord::Keyword))
    }
}

/// The same behind the keyword of a node, or of an arc.
fn read_named(
    alloc: Global,
    m: &Model,
    changes: &mut Changes,
    words: &[&[u8]],
    line: u32,
    node: bool,
) -> Result<(), PartFault>
    ensures tests { Passes (named_tests m.now.scale m.now.entries node (length changes.old) (texts words.now)) result }
    ensures added { OnOk result (changes.new
        ≡ changes.old ++ change_of m.now.scale m.now.entries node line (texts words.now) ∷ []) }
{
    let name = word(words, 1);
    if !is_name(name) {
        return Err(PartFault::Word(FaultWord::Name));
    }
    let curve = curve_of(alloc, part_of(words), m.scale(), node, changes.is_full())?;
    let Some(arc) = arc_of(m, node, name) else {
        return Err(PartFault::Word(FaultWord::Unknown));
    };
    changes
        .push(Change { arc, curve, line })
        .map_err(|_| PartFault::NoMemory)
}

/// The curve that the part lists, where there is room for one more.
fn curve_of(
    alloc: Global,
    part: &[&[u8]],
    scale: Scale,
    node: bool,
    full: bool,
) -> Result<Curve, PartFault>
    requires { IsScale scale }
    ensures tests { Passes (curve_tests scale node full (texts part.now)) result }
    ensures curve { IfOk result (λ curve. curve.listing ≡ part_listing scale (texts part.now)) }
{
    let curve = curve_of_words(alloc, part, scale, node);
    if full && has_numbers(&curve) {
        return Err(PartFault::Word(FaultWord::Limit));
    }
    curve
}

/// Whether the words were numbers, of which no curve may have come for another reason.
fn has_numbers(curve: &Result<Curve, PartFault>) -> bool
    ensures { result ≡ has_numbers curve.now }
{
    match curve {
        Ok(_) => true,
        Err(PartFault::Word(word)) => *word != FaultWord::Number,
        Err(PartFault::NoMemory) => false,
    }
}

/// The grounded arc of that name: a node's, or an arc's.
#[tactic(auto, unfolding(crate::specs::ChangesText::arc_of))]
fn arc_of(m: &Model, node: bool, name: &[u8]) -> Option<ArcId>
    ensures { option_map (λ arc. arc.0) result ≡ arc_of m.now.entries node name.now }
{
    if node {
        Some(ArcId(m.node_of(name)?))
    } else {
        Some(ArcId(m.nodes() + m.arc_of(name)?))
    }
}

/// The word at that place, or nothing.
fn word<'a>(words: &[&'a [u8]], place: usize) -> &'a [u8]
    ensures { result.now ≡ word_at (texts words.now) place }
{
    match words.get(place) {
        Some(word) => word,
        None => b"",
    }
}

/// The words behind the keyword and the name.
fn part_of<'a, 'b>(words: &'b [&'a [u8]]) -> &'b [&'a [u8]]
    ensures { texts result.now ≡ part_of (texts words.now) }
{
    match words {
        [_, _, part @ ..] => part,
        _ => &[],
    }
}
