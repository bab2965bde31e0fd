// The part of a line that lists a curve: `LIST`, or `LIST base B`.
ghost use Rattle.std.specs.Prelude.{◌≡◌, ◌≤◌, ◌==◌, ◌%◌, ◌&&◌, not, ◌∷◌, [], pos, false, is_none, unwrap_or, IfSome, IfOk, map, length, if◌then◌else◌};
ghost use Rattle.std.specs.List.{position_or_len};
ghost use Rattle.theory.specs.Limits.{list_most, number_most, IsWithin};
ghost use Rattle.model_text.specs.Lines.{line_words};
ghost use Rattle.model_text.specs.ModelText.{is_base_word, word_at, is_no_base, is_over, are_over, are_misshapen, listing_of, items_of, part_items, part_base, part_listing, part_tests};
ghost use Rattle.model_text.specs.NumberWords.{fixed_of};
ghost use Rattle.model_text.specs.Scale.{IsScale};
ghost use Rattle.model_text.specs.NearNumbers.{near_item, near_number};
ghost use Rattle.model_text.specs.LineParts.{texts, item_tests, number_tests, shape_tests, Passes};

use crate::bytes::are_same;
use crate::fault::{FaultWord, PartFault};
use crate::items;
use crate::model::LIST_MOST;
use crate::numbers::{item, number};
use crate::scale::Scale;
use crate::words::words_of;
use mono_curve::Curve;
use std::alloc::{AllocError, Global};
use theory::Ext;

/// The curve that is listed behind the names of a line of a node, or of an arc.
pub fn read_curve(alloc: Global, part: &[u8], scale: Scale, node: bool) -> Result<Curve, PartFault>
    requires { IsScale scale }
    ensures tests { Passes (part_tests scale node (line_words part.now)) result }
    ensures curve { IfOk result (λ curve. curve.listing ≡ part_listing scale (line_words part.now)) }
    ensures short { IfOk result (λ curve. length curve.listing.items ≤ list_most) }
    ensures base { IfOk result (λ curve. IsWithin number_most curve.listing.base) }
{
    let Ok(words) = words_of(alloc, part) else {
        return Err(PartFault::NoMemory);
    };
    curve_of_words(alloc, &words, scale, node)
}

/// The same by the words of the part.
pub fn curve_of_words(
    alloc: Global,
    part: &[&[u8]],
    scale: Scale,
    node: bool,
) -> Result<Curve, PartFault>
    requires { IsScale scale }
    ensures tests { Passes (part_tests scale node (texts part.now)) result }
    ensures curve { IfOk result (λ curve. curve.listing ≡ part_listing scale (texts part.now)) }
    ensures short { IfOk result (λ curve. length curve.listing.items ≤ list_most) }
    ensures base { IfOk result (λ curve. IsWithin number_most curve.listing.base) }
{
    numbers_of(alloc, part, scale)?.into_curve(node)
}

/// The items and the base of a part, all within the limits.
#[derive(Drop)]
pub(crate) struct Numbers {
    items: Vec<Ext>,
    base: i64,
    ghost short: { length items.items ≤ list_most },
    ghost within: { are_over items.items ≡ false },
    ghost base_within: { is_over base ≡ false },
}

/// The numbers of the part, where it passes the tests that tell no node from an arc.
pub(crate) fn numbers_of(alloc: Global, part: &[&[u8]], scale: Scale) -> Result<Numbers, PartFault>
    requires { IsScale scale }
    ensures tests { Passes (number_tests scale (texts part.now)) result }
    ensures items { IfOk result (λ numbers. numbers.items.items ≡ part_items scale (texts part.now)) }
    ensures base { IfOk result (λ numbers. numbers.base ≡ part_base scale (texts part.now)) }
{
    let (list, based) = part.split_at(before_base(part));
    let items = items_of(alloc, list, scale)?;
    let Some(base) = base_of(based, scale.cost()) else {
        return Err(PartFault::Word(FaultWord::Number));
    };
    if list.len() > LIST_MOST {
        return Err(PartFault::Word(FaultWord::Limit));
    }
    if items::are_over(&items) {
        return Err(PartFault::Word(FaultWord::Limit));
    }
    if items::is_over(base) {
        return Err(PartFault::Word(FaultWord::Limit));
    }
    Ok(Numbers { items, base })
}

impl Numbers {
    /// The curve of the numbers, where they are those of one.
    pub(crate) fn into_curve(self, node: bool) -> Result<Curve, PartFault>
        ensures tests { Passes (shape_tests node self.items.items) result }
        ensures curve { IfOk result (λ curve. curve.listing ≡ listing_of self.items.items self.base) }
        ensures short { IfOk result (λ curve. length curve.listing.items ≤ list_most) }
        ensures base { IfOk result (λ curve. IsWithin number_most curve.listing.base) }
    {
        if are_misshapen(&self.items, node) {
            return Err(PartFault::Word(FaultWord::Shape));
        }
        if items::has_fall(&self.items) {
            return Err(PartFault::Word(FaultWord::Order));
        }
        let Numbers { items, base } = self;
        match filled(items) {
            Ok(items) => Ok(Curve::of_tested(items, i128::from(base))),
            Err(_) => Err(PartFault::NoMemory),
        }
    }
}

fn are_misshapen(items: &[Ext], node: bool) -> bool
    ensures { result ≡ are_misshapen node items.now }
{
    has_wrong_count(items.len(), node)
        || items::is_misplaced(items)
        || items::is_infinite_point(items)
}

/// Whether so many items are even, but none are well for a node.
fn has_wrong_count(count: usize, node: bool) -> bool
    ensures { result ≡ ((count % 2 == 0) && not (node && (count == 0))) }
{
    count % 2 == 0 && !(node && count == 0)
}

/// An empty list stands for the one point 0.
fn filled(mut items: Vec<Ext>) -> Result<Vec<Ext>, AllocError>
    ensures { IfOk result (λ filled. filled.items ≡ (if length items.items == 0 then Ext.At (pos 0) ∷ [] else items.items)) }
{
    if items.is_empty() {
        items.push(Ext::At(0))?;
    }
    Ok(items)
}

/// The items that the words are, points and slopes in turn, each parsed once, in a vector with room for one at least.
fn items_of(alloc: Global, words: &[&[u8]], scale: Scale) -> Result<Vec<Ext>, PartFault>
    requires { IsScale scale }
    ensures tests { Passes (item_tests scale (texts words.now)) result }
    ensures items { IfOk result (λ items. items.items ≡ map near_item (items_of scale.flow scale.tension (texts words.now))) }
{
    let Ok(mut items) = Vec::with_capacity(alloc, words.len().max(1)) else {
        return Err(PartFault::NoMemory);
    };
    let (mut here, mut next) = (scale.flow, scale.tension);
    for word in words {
        let Some(item) = item(word, here) else {
            return Err(PartFault::Word(FaultWord::Number));
        };
        items.push_reserved(item);
        (here, next) = (next, here);
    }
    Ok(items)
}

/// The base, or 0 where none is written, or nothing where `base` isn't followed by one number alone.
fn base_of(words: &[&[u8]], decimals: u8) -> Option<i64>
    requires { decimals ≤ 12 }
    ensures none { is_none result ≡ is_no_base decimals (texts words.now) }
    ensures base { IfSome result (λ base. base ≡ near_number (unwrap_or (fixed_of decimals (word_at (texts words.now) 1)) (pos 0))) }
{
    match words {
        [] => Some(0),
        [_, word] => number(word, decimals),
        _ => None,
    }
}

/// How many words stand before the first word `base`.
fn before_base(words: &[&[u8]]) -> usize
    ensures count { result ≡ position_or_len is_base_word (texts words.now) }
    ensures most { result ≤ length words.now }
{
    words
        .iter()
        .position(|word| are_same(word, b"base"))
        .unwrap_or(words.len())
}
