// The text of a certificate.
ghost use Rattle.std.specs.Prelude.{◌≡◌, ℕ, ◌+◌, ◌<◌, ◌≤◌, ◌++◌, [], ◌∷◌, length, OnOk, IfOk, codes, if◌then◌else◌};
ghost use Rattle.std.specs.List.{flat_map};
ghost use Rattle.theory.specs.declared.network.Step.{Step as NetworkStep};
ghost use Rattle.theory.specs.Network.{«at»};
ghost use Rattle.theory.specs.Grounded.{grounded, arc_name, node_name};
ghost use Rattle.theory.specs.Circuit.{step};
ghost use Rattle.theory.specs.Certificate.{Fits};
ghost use Rattle.model_text.specs.Printed.{printed_line, printed_fixed};
ghost use Rattle.cert_text.specs.CertificateText.{certificate_text, texts_below, head_line, number_line, potential_line, flow_line, node_line, side_line, step_line, supply_lines, arc_lines};
ghost use Rattle.cert_text.specs.Shown.{shown};

use crate::certificate::Certificate;
use model_text::{Model, append_fixed, append_word};
use outside_io::ByteText;
use std::alloc::{AllocError, Global};
use theory::Step;

/// The one text of the certificate.
pub fn print_cert(alloc: Global, m: &Model, c: &Certificate) -> Result<ByteText, AllocError>
    requires { Fits (grounded m.now.entries) (shown c.now) }
    ensures { IfOk result (λ text. text ≡ certificate_text m.now.scale m.now.entries (shown c.now)) }
{
    let mut out = Vec::new(alloc);
    match c {
        Certificate::Optimal { x, u, cost, value } => {
            append_head(&mut out, m, b"optimal")?;
            append_number_line(&mut out, b"cost", *cost, m.scale().cost())?;
            append_number_line(&mut out, b"value", *value, m.scale().cost())?;
            append_potentials(&mut out, m, u.as_slice(), x.as_slice())?;
            append_arcs(&mut out, m, x.as_slice())?;
        }
        Certificate::Cut { side, capacity } => {
            append_head(&mut out, m, b"cut")?;
            append_number_line(&mut out, b"capacity", *capacity, m.scale().flow)?;
            append_side(&mut out, m, side.as_slice())?;
        }
        Certificate::Circuit { x, walk, span } => {
            append_head(&mut out, m, b"circuit")?;
            append_number_line(&mut out, b"span", *span, m.scale().tension)?;
            append_supplies(&mut out, m, x.as_slice())?;
            append_arcs(&mut out, m, x.as_slice())?;
            append_walk(&mut out, m, walk.as_slice())?;
        }
    }
    Ok(ByteText::of_vec(out))
}

fn append_head(out: &mut Vec<u8>, m: &Model, kind: &[u8]) -> Result<(), AllocError>
    ensures { OnOk result (out.new.items ≡ out.old.items ++ head_line m.now.scale kind.now) }
{
    out.extend_from_slice(b"certificate")?;
    append_word(out, &[b'0' + m.scale().version])?;
    append_word(out, kind)?;
    out.push(b'\n')?;
    Ok(())
}

pub(crate) fn append_number_line(
    out: &mut Vec<u8>,
    keyword: &[u8],
    number: i128,
    decimals: u8,
) -> Result<(), AllocError>
    requires { decimals ≤ 12 }
    ensures { OnOk result (out.new.items ≡ out.old.items ++ number_line decimals keyword.now number) }
{
    out.extend_from_slice(keyword)?;
    append_fixed(out, number, decimals)?;
    out.push(b'\n')?;
    Ok(())
}

/// A space and the number at a position.
pub(crate) fn append_number_at(
    out: &mut Vec<u8>,
    numbers: &[i64],
    k: u32,
    decimals: u8,
) -> Result<(), AllocError>
    requires there { k < length numbers.now }
    requires few { decimals ≤ 12 }
    ensures { OnOk result (out.new.items ≡ out.old.items ++ 32 ∷ printed_fixed decimals («at» numbers.now k)) }
{
    append_fixed(out, i128::from(numbers[k as usize]), decimals)
}

/// The potential and the supply of each model node.
fn append_potentials(out: &mut Vec<u8>, m: &Model, u: &[i64], x: &[i64]) -> Result<(), AllocError>
    requires potentials { length u.now ≡ length m.now.entries.nodes + 1 }
    requires flows { length x.now ≡ length m.now.entries.nodes + length m.now.entries.arcs }
    ensures { OnOk result (out.new.items ≡ out.old.items
        ++ texts_below (length m.now.entries.nodes) (potential_line m.now.scale m.now.entries u.now x.now)) }
{
    for i in 0..m.nodes() {
        append_potential(out, m, u, x, i)?;
    }
    Ok(())
}

fn append_potential(
    out: &mut Vec<u8>,
    m: &Model,
    u: &[i64],
    x: &[i64],
    i: u32,
) -> Result<(), AllocError>
    requires there { i < length m.now.entries.nodes }
    requires potentials { length u.now ≡ length m.now.entries.nodes + 1 }
    requires flows { length x.now ≡ length m.now.entries.nodes + length m.now.entries.arcs }
    ensures { OnOk result (out.new.items ≡ out.old.items ++ potential_line m.now.scale m.now.entries u.now x.now i) }
{
    out.extend_from_slice(b"node")?;
    append_node_name(out, m, i + 1)?;
    append_number_at(out, u, i + 1, m.scale().tension)?;
    append_number_at(out, x, i, m.scale().flow)?;
    out.push(b'\n')?;
    Ok(())
}

/// The flows of the ground arcs.
pub(crate) fn append_supplies(out: &mut Vec<u8>, m: &Model, x: &[i64]) -> Result<(), AllocError>
    requires { length x.now ≡ length m.now.entries.nodes + length m.now.entries.arcs }
    ensures { OnOk result (out.new.items ≡ out.old.items ++ supply_lines m.now.scale m.now.entries x.now) }
{
    for i in 0..m.nodes() {
        append_flow(out, m, x, i)?;
    }
    Ok(())
}

/// The flows of the model's arcs.
pub(crate) fn append_arcs(out: &mut Vec<u8>, m: &Model, x: &[i64]) -> Result<(), AllocError>
    requires { length x.now ≡ length m.now.entries.nodes + length m.now.entries.arcs }
    ensures { OnOk result (out.new.items ≡ out.old.items ++ arc_lines m.now.scale m.now.entries x.now) }
{
    let nodes = m.nodes();
    for j in 0..m.arcs() {
        append_flow(out, m, x, nodes + j)?;
    }
    Ok(())
}

fn append_flow(out: &mut Vec<u8>, m: &Model, x: &[i64], j: u32) -> Result<(), AllocError>
    requires there { j < length m.now.entries.nodes + length m.now.entries.arcs }
    requires one_each { length x.now ≡ length m.now.entries.nodes + length m.now.entries.arcs }
    ensures { OnOk result (out.new.items ≡ out.old.items ++ flow_line m.now.scale m.now.entries x.now j) }
{
    append_arc_name(out, m, j)?;
    append_number_at(out, x, j, m.scale().flow)?;
    out.push(b'\n')?;
    Ok(())
}

/// Appends `node NAME` of a ground arc, `arc NAME` of a model's arc.
pub fn append_arc_name(out: &mut Vec<u8>, m: &Model, j: u32) -> Result<(), AllocError>
    requires { j < length m.now.entries.nodes + length m.now.entries.arcs }
    ensures { OnOk result (out.new.items ≡ out.old.items ++ arc_name m.now.entries j) }
{
    let nodes = m.nodes();
    if j < nodes {
        out.extend_from_slice(b"node")?;
        append_word(out, m.node_name(j))
    } else {
        out.extend_from_slice(b"arc")?;
        append_word(out, m.arc_name(j - nodes))
    }
}

/// The nodes of the side, the ground first.
pub(crate) fn append_side(out: &mut Vec<u8>, m: &Model, side: &[bool]) -> Result<(), AllocError>
    requires { length side.now ≡ length m.now.entries.nodes + 1 }
    ensures { OnOk result (out.new.items ≡ out.old.items
        ++ texts_below (length m.now.entries.nodes + 1) (side_line m.now.entries side.now)) }
{
    for i in 0..m.nodes() + 1 {
        append_side_line(out, m, side, i)?;
    }
    Ok(())
}

fn append_side_line(out: &mut Vec<u8>, m: &Model, side: &[bool], i: u32) -> Result<(), AllocError>
    requires there { i ≤ length m.now.entries.nodes }
    requires one_each { length side.now ≡ length m.now.entries.nodes + 1 }
    ensures { OnOk result (out.new.items ≡ out.old.items ++ side_line m.now.entries side.now i) }
{
    if side[i as usize] {
        append_node_line(out, m, i)
    } else {
        Ok(())
    }
}

/// `side NAME` of a grounded node.
pub(crate) fn append_node_line(out: &mut Vec<u8>, m: &Model, i: u32) -> Result<(), AllocError>
    requires { i ≤ length m.now.entries.nodes }
    ensures { OnOk result (out.new.items ≡ out.old.items ++ node_line m.now.entries i) }
{
    out.extend_from_slice(b"side")?;
    append_node_name(out, m, i)?;
    out.push(b'\n')?;
    Ok(())
}

/// Appends a space and the printed name of a grounded node.
pub fn append_node_name(out: &mut Vec<u8>, m: &Model, i: u32) -> Result<(), AllocError>
    requires { i ≤ length m.now.entries.nodes }
    ensures { OnOk result (out.new.items ≡ out.old.items ++ 32 ∷ node_name m.now.entries i) }
{
    if i == 0 {
        append_word(out, b"*")
    } else {
        append_word(out, m.node_name(i - 1))
    }
}

/// The steps of the walk in order.
pub(crate) fn append_walk(out: &mut Vec<u8>, m: &Model, walk: &[Step]) -> Result<(), AllocError>
    requires { (k : ℕ) → k < length walk.now → (step walk.now k).arc.0 < length m.now.entries.nodes + length m.now.entries.arcs }
    ensures { OnOk result (out.new.items ≡ out.old.items ++ flat_map (step_line m.now.entries) walk.now) }
{
    for step in walk {
        append_step(out, m, *step)?;
    }
    Ok(())
}

fn append_step(out: &mut Vec<u8>, m: &Model, step: Step) -> Result<(), AllocError>
    requires { step.arc.0 < length m.now.entries.nodes + length m.now.entries.arcs }
    ensures { OnOk result (out.new.items ≡ out.old.items ++ step_line m.now.entries step) }
{
    out.extend_from_slice(b"step")?;
    append_word(out, if step.forward { b"+" } else { b"-" })?;
    out.push(b' ')?;
    append_arc_name(out, m, step.arc.0)?;
    out.push(b'\n')?;
    Ok(())
}
