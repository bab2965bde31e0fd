// The texts of `maxflow` and `maxtension`.
ghost use Rattle.std.specs.Prelude.{◌≡◌, ℕ, ◌+◌, ◌<◌, ◌≤◌, ◌++◌, ◌∷◌, length, IfOk, OnOk};
ghost use Rattle.std.specs.List.{flat_map};
ghost use Rattle.theory.specs.Circuit.{step as step_of};
ghost use Rattle.theory.specs.Network.{«at»};
ghost use Rattle.model_text.specs.Printed.{printed_fixed};
ghost use Rattle.cert_text.specs.CertificateText.{texts_below, number_line, supply_lines, arc_lines, flow_line, side_line, step_line};
ghost use Rattle.cert_text.specs.FeasibilityText.{tension_line};
ghost use Rattle.mono_top.specs.Between.{FlowFits, TensionFits, flow_text, tension_text, side_lines, tension_lines};

use crate::pieces::append_step;
use cert_text::{append_arc_name, append_node_name};
use model_text::{Model, append_fixed, append_line};
use net_incidence::Step;
use outside_io::ByteText;
use path_cut::{FlowFound, TensionFound};
use std::alloc::{AllocError, Global};

pub(crate) fn print_flow(
    alloc: Global,
    model: &Model,
    found: &FlowFound,
) -> Result<ByteText, AllocError>
    requires { FlowFits model.now.entries found.now }
    ensures { IfOk result (λ text. text ≡ flow_text model.now.scale model.now.entries found.now) }
{
    let mut out = Vec::new(alloc);
    match found {
        FlowFound::Greatest { flow, flows, side } => {
            append_head(&mut out, b"maxflow", i128::from(*flow), model.scale().flow)?;
            append_flows(&mut out, model, flows.as_slice())?;
            append_side(&mut out, model, side.as_slice())?;
        }
        FlowFound::Unbounded { flows, walk } => {
            append_line(&mut out, b"maxflow unbounded")?;
            append_flows(&mut out, model, flows.as_slice())?;
            append_walk(&mut out, model, walk.as_slice())?;
        }
        FlowFound::Refused { side, sum } => {
            append_head(&mut out, b"maxflow no", *sum, model.scale().flow)?;
            append_side(&mut out, model, side.as_slice())?;
        }
    }
    Ok(ByteText::of_vec(out))
}

pub(crate) fn print_tension(
    alloc: Global,
    model: &Model,
    found: &TensionFound,
) -> Result<ByteText, AllocError>
    requires { TensionFits model.now.entries found.now }
    ensures { IfOk result (λ text. text ≡ tension_text model.now.scale model.now.entries found.now) }
{
    let mut out = Vec::new(alloc);
    match found {
        TensionFound::Greatest {
            tension,
            potentials,
            walk,
        } => {
            append_head(
                &mut out,
                b"maxtension",
                i128::from(*tension),
                model.scale().tension,
            )?;
            append_tensions(&mut out, model, potentials.as_slice())?;
            append_walk(&mut out, model, walk.as_slice())?;
        }
        TensionFound::Unbounded { potentials, side } => {
            append_line(&mut out, b"maxtension unbounded")?;
            append_tensions(&mut out, model, potentials.as_slice())?;
            append_side(&mut out, model, side.as_slice())?;
        }
        TensionFound::Refused { walk, sum } => {
            append_head(&mut out, b"maxtension no", *sum, model.scale().tension)?;
            append_walk(&mut out, model, walk.as_slice())?;
        }
    }
    Ok(ByteText::of_vec(out))
}

fn append_head(
    out: &mut Vec<u8>,
    keyword: &[u8],
    number: i128,
    decimals: u8,
) -> Result<(), AllocError>
    requires { decimals ≤ 12 }
    ensures { OnOk result (out.new.items ≡ out.old.items ++ number_line decimals keyword.now number) }
{
    out.extend_from_slice(keyword)?;
    append_fixed(out, number, decimals)?;
    out.push(b'\n')?;
    Ok(())
}

/// The flows of the model's nodes, and of its arcs. More flows may stand behind them.
fn append_flows(out: &mut Vec<u8>, model: &Model, flows: &[i64]) -> Result<(), AllocError>
    requires { length model.now.entries.nodes + length model.now.entries.arcs ≤ length flows.now }
    ensures { OnOk result (out.new.items ≡ out.old.items ++ supply_lines model.now.scale model.now.entries flows.now ++ arc_lines model.now.scale model.now.entries flows.now) }
{
    append_supplies(out, model, flows)?;
    append_arcs(out, model, flows)
}

fn append_supplies(out: &mut Vec<u8>, model: &Model, flows: &[i64]) -> Result<(), AllocError>
    requires { length model.now.entries.nodes + length model.now.entries.arcs ≤ length flows.now }
    ensures { OnOk result (out.new.items ≡ out.old.items ++ supply_lines model.now.scale model.now.entries flows.now) }
{
    for i in 0..model.nodes() {
        append_flow(out, model, flows, i)?;
    }
    Ok(())
}

fn append_arcs(out: &mut Vec<u8>, model: &Model, flows: &[i64]) -> Result<(), AllocError>
    requires { length model.now.entries.nodes + length model.now.entries.arcs ≤ length flows.now }
    ensures { OnOk result (out.new.items ≡ out.old.items ++ arc_lines model.now.scale model.now.entries flows.now) }
{
    let nodes = model.nodes();
    for j in 0..model.arcs() {
        append_flow(out, model, flows, nodes + j)?;
    }
    Ok(())
}

fn append_flow(out: &mut Vec<u8>, model: &Model, flows: &[i64], j: u32) -> Result<(), AllocError>
    requires there { j < length model.now.entries.nodes + length model.now.entries.arcs }
    requires one_each { length model.now.entries.nodes + length model.now.entries.arcs ≤ length flows.now }
    ensures { OnOk result (out.new.items ≡ out.old.items ++ flow_line model.now.scale model.now.entries flows.now j) }
{
    append_arc_name(out, model, j)?;
    append_number_at(out, flows, j, model.scale().flow)?;
    out.push(b'\n')?;
    Ok(())
}

/// A space and the number at a position, with so many decimals.
fn append_number_at(
    out: &mut Vec<u8>,
    numbers: &[i64],
    k: u32,
    decimals: u8,
) -> Result<(), AllocError>
    requires there { k < length numbers.now }
    requires few { decimals ≤ 12 }
    ensures { OnOk result (out.new.items ≡ out.old.items ++ 32 ∷ printed_fixed decimals («at» numbers.now k)) }
{
    append_fixed(out, i128::from(numbers[k as usize]), decimals)
}

fn append_tensions(out: &mut Vec<u8>, model: &Model, u: &[i64]) -> Result<(), AllocError>
    requires { length u.now ≡ length model.now.entries.nodes + 1 }
    ensures { OnOk result (out.new.items ≡ out.old.items ++ tension_lines model.now.scale model.now.entries u.now) }
{
    for i in 0..model.nodes() {
        append_tension(out, model, u, i)?;
    }
    Ok(())
}

fn append_tension(out: &mut Vec<u8>, model: &Model, u: &[i64], i: u32) -> Result<(), AllocError>
    requires there { i < length model.now.entries.nodes }
    requires one_each { length u.now ≡ length model.now.entries.nodes + 1 }
    ensures { OnOk result (out.new.items ≡ out.old.items ++ tension_line model.now.scale model.now.entries u.now i) }
{
    out.extend_from_slice(b"node")?;
    append_node_name(out, model, i + 1)?;
    append_number_at(out, u, i + 1, model.scale().tension)?;
    out.push(b'\n')?;
    Ok(())
}

/// The nodes of the side, the ground first.
fn append_side(out: &mut Vec<u8>, model: &Model, side: &[bool]) -> Result<(), AllocError>
    requires { length side.now ≡ length model.now.entries.nodes + 1 }
    ensures { OnOk result (out.new.items ≡ out.old.items ++ side_lines model.now.entries side.now) }
{
    for i in 0..model.nodes() + 1 {
        append_side_line(out, model, side, i)?;
    }
    Ok(())
}

fn append_side_line(
    out: &mut Vec<u8>,
    model: &Model,
    side: &[bool],
    i: u32,
) -> Result<(), AllocError>
    requires there { i ≤ length model.now.entries.nodes }
    requires one_each { length side.now ≡ length model.now.entries.nodes + 1 }
    ensures { OnOk result (out.new.items ≡ out.old.items ++ side_line model.now.entries side.now i) }
{
    if side[i as usize] {
        out.extend_from_slice(b"side")?;
        append_node_name(out, model, i)?;
        out.push(b'\n')?;
    }
    Ok(())
}

/// The steps in order.
fn append_walk(out: &mut Vec<u8>, model: &Model, walk: &[Step]) -> Result<(), AllocError>
    requires { (k : ℕ) → k < length walk.now → (step_of walk.now k).arc.0 < length model.now.entries.nodes + length model.now.entries.arcs }
    ensures { OnOk result (out.new.items ≡ out.old.items ++ flat_map (step_line model.now.entries) walk.now) }
{
    for step in walk {
        append_step(out, model, *step)?;
    }
    Ok(())
}
