// The text of `feasible`.
ghost use Rattle.std.specs.Prelude.{◌≡◌, ◌+◌, ◌<◌, ◌≤◌, ◌++◌, length, OnOk, IfOk};
ghost use Rattle.theory.specs.Grounded.{grounded};
ghost use Rattle.cert_text.specs.CertificateText.{texts_below};
ghost use Rattle.cert_text.specs.FeasibilityText.{FlowFits, TensionFits, tension_line, flow_text, tension_text, feasibility_text};

use crate::print::{
    append_arcs, append_node_name, append_number_at, append_number_line, append_side,
    append_supplies, append_walk,
};
use model_text::{Model, append_line};
use net_incidence::{Flows, Marks, Walk};
use outside_io::ByteText;
use std::alloc::{AllocError, Global};

/// Whether a flow is feasible: one that is, by grounded arc, or a cut that refuses every flow.
#[derive(Drop)]
pub enum FlowPart {
    Yes(Flows),
    No { side: Marks, capacity: i128 },
}

/// Whether a potential is feasible: one that is, by grounded node, or a circuit that refuses every potential.
#[derive(Drop)]
pub enum TensionPart {
    Yes(Flows),
    No { walk: Walk, span: i128 },
}

/// The flow part, then the tension part.
pub fn print_feasible(
    alloc: Global,
    m: &Model,
    flow: &FlowPart,
    tension: &TensionPart,
) -> Result<ByteText, AllocError>
    requires flow { FlowFits (grounded m.now.entries) flow.now }
    requires tension { TensionFits (grounded m.now.entries) tension.now }
    ensures { IfOk result (λ text. text ≡ feasibility_text m.now.scale m.now.entries flow.now tension.now) }
{
    let mut out = Vec::new(alloc);
    append_flow_part(&mut out, m, flow)?;
    append_tension_part(&mut out, m, tension)?;
    Ok(ByteText::of_vec(out))
}

fn append_flow_part(out: &mut Vec<u8>, m: &Model, flow: &FlowPart) -> Result<(), AllocError>
    requires { FlowFits (grounded m.now.entries) flow.now }
    ensures { OnOk result (out.new.items ≡ out.old.items ++ flow_text m.now.scale m.now.entries flow.now) }
{
    match flow {
        FlowPart::Yes(x) => {
            append_line(out, b"flow yes")?;
            append_supplies(out, m, x.as_slice())?;
            append_arcs(out, m, x.as_slice())
        }
        FlowPart::No { side, capacity } => {
            append_number_line(out, b"flow no", *capacity, m.scale().flow)?;
            append_side(out, m, side.as_slice())
        }
    }
}

fn append_tension_part(
    out: &mut Vec<u8>,
    m: &Model,
    tension: &TensionPart,
) -> Result<(), AllocError>
    requires { TensionFits (grounded m.now.entries) tension.now }
    ensures { OnOk result (out.new.items ≡ out.old.items ++ tension_text m.now.scale m.now.entries tension.now) }
{
    match tension {
        TensionPart::Yes(u) => {
            append_line(out, b"tension yes")?;
            append_tensions(out, m, u.as_slice())
        }
        TensionPart::No { walk, span } => {
            append_number_line(out, b"tension no", *span, m.scale().tension)?;
            append_walk(out, m, walk.as_slice())
        }
    }
}

/// The potential of each model node.
fn append_tensions(out: &mut Vec<u8>, m: &Model, u: &[i64]) -> Result<(), AllocError>
    requires { length u.now ≡ length m.now.entries.nodes + 1 }
    ensures { OnOk result (out.new.items
        ≡ out.old.items ++ texts_below (length m.now.entries.nodes) (tension_line m.now.scale m.now.entries u.now)) }
{
    for i in 0..m.nodes() {
        append_tension(out, m, u, i)?;
    }
    Ok(())
}

fn append_tension(out: &mut Vec<u8>, m: &Model, u: &[i64], i: u32) -> Result<(), AllocError>
    requires there { i < length m.now.entries.nodes }
    requires one_each { length u.now ≡ length m.now.entries.nodes + 1 }
    ensures { OnOk result (out.new.items ≡ out.old.items ++ tension_line m.now.scale m.now.entries u.now i) }
{
    out.extend_from_slice(b"node")?;
    append_node_name(out, m, i + 1)?;
    append_number_at(out, u, i + 1, m.scale().tension)?;
    out.push(b'\n')?;
    Ok(())
}
