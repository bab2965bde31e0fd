// The printed form of numbers, ends, lists, lines and models.
ghost use Rattle.std.specs.Prelude.{◌≡◌, ◌++◌, ◌+◌, ◌<◌, ◌≤◌, [], ◌∷◌, length, IfOk, OnOk, OnErr};
ghost use Rattle.std.specs.List.{flat_map};
ghost use Rattle.model_text.specs.Model.{node_at, arc_at};
ghost use Rattle.model_text.specs.Scale.{IsScale};
ghost use Rattle.model_text.specs.Printed.{filled, pointed, sign_of, printed_fixed, printed_end, spaced, printed_list, printed_base, printed_curve, printed_front, printed_node, printed_arc, printed_model};

use crate::model::Model;
use crate::scale::Scale;
use itoa::{Buffer, Integer};
use mono_curve::{Curve, Ext, Listed};
use outside_io::ByteText;
use std::alloc::{AllocError, Global};

/// Appends a space and the word, whole or not at all, as do the other calls here.
pub fn append_word(out: &mut Vec<u8>, word: &[u8]) -> Result<(), AllocError>
    ensures ok { OnOk result (out.new.items ≡ out.old.items ++ 32 ∷ word.now) }
    ensures err { OnErr result (out.new.items ≡ out.old.items) }
{
    out.reserve(word.len() + 1)?;
    out.push(b' ')?;
    out.extend_from_slice(word)
}

/// Appends a space and the number in its one shortest decimal form.
pub fn append_number<I: Integer>(out: &mut Vec<u8>, number: I) -> Result<(), AllocError>
    ensures ok { OnOk result (out.new.items ≡ out.old.items ++ 32 ∷ I.text number) }
    ensures err { OnErr result (out.new.items ≡ out.old.items) }
{
    append_word(out, Buffer::new().format(number).as_bytes())
}

/// The greatest count of decimals, less one.
const ZEROS: &[u8; 12] = b"000000000000";

/// Appends a space and the number of units in its one printed form with so many decimals.
pub fn append_fixed(out: &mut Vec<u8>, number: i128, decimals: u8) -> Result<(), AllocError>
    requires { decimals ≤ 12 }
    ensures ok { OnOk result (out.new.items ≡ out.old.items ++ 32 ∷ printed_fixed decimals number) }
    ensures err { OnErr result (out.new.items ≡ out.old.items) }
{
    if decimals == 0 {
        return append_number(out, number);
    }
    let mut buffer = Buffer::new();
    let digits = buffer.format(number.unsigned_abs()).as_bytes();
    append_pointed(out, number < 0, digits, decimals as usize)
}

/// Appends a space, the sign and the digits, with a point before the last of them, and zeros where they are few.
fn append_pointed(
    out: &mut Vec<u8>,
    negative: bool,
    digits: &[u8],
    decimals: usize,
) -> Result<(), AllocError>
    requires some { 1 ≤ length digits.now }
    requires few { length digits.now ≤ 64 }
    requires least { 1 ≤ decimals }
    requires most { decimals ≤ 12 }
    ensures ok { OnOk result (out.new.items ≡ out.old.items ++ 32 ∷ (sign_of negative ++ pointed decimals (filled (decimals + 1) digits.now))) }
    ensures err { OnErr result (out.new.items ≡ out.old.items) }
{
    out.reserve(3 + digits.len() + decimals)?;
    out.push(b' ')?;
    out.extend_from_slice(sign_of(negative))?;
    if digits.len() > decimals {
        let (whole, further) = digits.split_at(digits.len() - decimals);
        out.extend_from_slice(whole)?;
        out.push(b'.')?;
        out.extend_from_slice(further)
    } else {
        out.push(b'0')?;
        out.push(b'.')?;
        out.extend_from_slice(&ZEROS[..decimals - digits.len()])?;
        out.extend_from_slice(digits)
    }
}

fn sign_of(negative: bool) -> &'static [u8]
    ensures { result.now ≡ sign_of negative }
{
    if negative { b"-" } else { b"" }
}

/// Appends a space and the end of a domain or span, or an item of a curve list, with so many decimals.
pub fn append_end(out: &mut Vec<u8>, end: Ext, decimals: u8) -> Result<(), AllocError>
    requires { decimals ≤ 12 }
    ensures ok { OnOk result (out.new.items ≡ out.old.items ++ 32 ∷ printed_end decimals end) }
    ensures err { OnErr result (out.new.items ≡ out.old.items) }
{
    match end {
        Ext::MinusInf => append_word(out, b"-inf"),
        Ext::At(number) => append_fixed(out, i128::from(number), decimals),
        Ext::PlusInf => append_word(out, b"+inf"),
    }
}

/// Appends the items of the list, each after a space: points and slopes in turn, with so many decimals each.
pub fn append_list<C: Listed>(
    out: &mut Vec<u8>,
    curve: &C,
    points: u8,
    slopes: u8,
) -> Result<(), AllocError>
    requires points { points ≤ 12 }
    requires slopes { slopes ≤ 12 }
    ensures ok { OnOk result (out.new.items
        ≡ out.old.items ++ spaced (printed_list points slopes (C.listing curve.now).items)) }
    ensures err { OnErr result (out.new.items ≡ out.old.items) }
{
    let before = out.len();
    let (mut here, mut next) = (points, slopes);
    for i in 0..curve.len() {
        if append_end(out, curve.item(i), here).is_err() {
            out.truncate(before);
            return Err(AllocError);
        }
        (here, next) = (next, here);
    }
    Ok(())
}

/// Appends the words that stand ready, and ends the line.
pub fn append_line(out: &mut Vec<u8>, line: &[u8]) -> Result<(), AllocError>
    ensures ok { OnOk result (out.new.items ≡ out.old.items ++ line.now ++ 10 ∷ []) }
    ensures err { OnErr result (out.new.items ≡ out.old.items) }
{
    out.reserve(line.len() + 1)?;
    out.extend_from_slice(line)?;
    out.push(b'\n')?;
    Ok(())
}

// Below, a text that memory ran out for is dropped, so nothing is said of it.

fn append_base(out: &mut Vec<u8>, base: i128, decimals: u8) -> Result<(), AllocError>
    requires { decimals ≤ 12 }
    ensures { OnOk result (out.new.items ≡ out.old.items ++ spaced (printed_base decimals base)) }
{
    if base != 0 {
        append_word(out, b"base")?;
        append_fixed(out, base, decimals)?;
    }
    Ok(())
}

// Appends the curve of a node or an arc, which ends the line.
fn append_curve(out: &mut Vec<u8>, curve: &Curve, scale: Scale) -> Result<(), AllocError>
    requires { IsScale scale }
    ensures { OnOk result (out.new.items
        ≡ out.old.items ++ spaced (printed_curve scale curve.now.listing) ++ 10 ∷ []) }
{
    append_list(out, curve, scale.flow, scale.tension)?;
    append_base(out, curve.base(), scale.cost())?;
    append_line(out, b"")
}

fn append_node(out: &mut Vec<u8>, m: &Model, i: u32) -> Result<(), AllocError>
    requires { i < length m.now.entries.nodes }
    ensures { OnOk result (out.new.items
        ≡ out.old.items ++ printed_node m.now.scale (node_at m.now.entries i)) }
{
    out.extend_from_slice(b"node")?;
    append_word(out, m.node_name(i))?;
    append_curve(out, m.supply(i), m.scale())
}

fn append_arc(out: &mut Vec<u8>, m: &Model, j: u32) -> Result<(), AllocError>
    requires { j < length m.now.entries.arcs }
    ensures { OnOk result (out.new.items
        ≡ out.old.items ++ printed_arc m.now.scale m.now.entries (arc_at m.now.entries j)) }
{
    out.extend_from_slice(b"arc")?;
    append_word(out, m.arc_name(j))?;
    append_word(out, m.node_name(m.arc_from(j)))?;
    append_word(out, m.node_name(m.arc_to(j)))?;
    append_curve(out, m.arc_curve(j), m.scale())
}

fn append_nodes(out: &mut Vec<u8>, m: &Model) -> Result<(), AllocError>
    ensures { OnOk result (out.new.items
        ≡ out.old.items ++ flat_map (printed_node m.now.scale) m.now.entries.nodes) }
{
    for i in 0..m.nodes() {
        append_node(out, m, i)?;
    }
    Ok(())
}

fn append_arcs(out: &mut Vec<u8>, m: &Model) -> Result<(), AllocError>
    ensures { OnOk result (out.new.items
        ≡ out.old.items ++ flat_map (printed_arc m.now.scale m.now.entries) m.now.entries.arcs) }
{
    for j in 0..m.arcs() {
        append_arc(out, m, j)?;
    }
    Ok(())
}

fn append_front(out: &mut Vec<u8>, scale: Scale) -> Result<(), AllocError>
    requires { IsScale scale }
    ensures { OnOk result (out.new.items ≡ out.old.items ++ printed_front scale) }
{
    if scale.version == 1 {
        return append_line(out, b"network 1");
    }
    append_line(out, b"network 2")?;
    out.extend_from_slice(b"decimals")?;
    append_word(out, &[b'0' + scale.flow])?;
    append_word(out, &[b'0' + scale.tension])?;
    append_line(out, b"")
}

/// The printed form of the model: it spells the model, and no line of it has a comment or an idle space.
pub fn print_model(alloc: Global, m: &Model) -> Result<ByteText, AllocError>
    ensures { IfOk result (λ text. text ≡ printed_model m.now.scale m.now.entries) }
{
    let mut out = Vec::new(alloc);
    append_front(&mut out, m.scale())?;
    append_nodes(&mut out, m)?;
    append_arcs(&mut out, m)?;
    Ok(ByteText::of_vec(out))
}
