// The certificate that a text would be that of, read from the ends of its lines alone.
ghost use Rattle.std.specs.Prelude.{◌≡◌, ◌+◌, ◌^◌, ◌<◌, ◌≤◌, [], ◌∷◌, pos, length, codes, IfOk, OnOk, MatchOption};
ghost use Rattle.cert_text.specs.CertificateText.{head_line};
ghost use Rattle.cert_text.specs.Candidate.{after, IsCandidate, IsOptimalRead, IsCutRead, IsCircuitRead, AreFlowsRead, ArePairsRead, IsSideRead, IsStepRead, IsNoStep, named_arc, AreStepsRead, line_at};
ghost use Rattle.cert_text.specs.Shown.{shown};

use crate::certificate::Certificate;
use crate::lines::{content, split_last_word, split_line};
use crate::numbers::{last_flow, last_pair, last_sum};
use crate::print::append_node_line;
use model_text::Model;
use net_incidence::{Flows, Marks, Walk};
use std::alloc::{AllocError, Global};
use theory::{ArcId, Step};

/// A certificate whose text is like this one as far as that of any certificate is.
pub(crate) fn candidate(alloc: Global, m: &Model, text: &[u8]) -> Result<Certificate, AllocError>
    requires { length text.now ≤ 2 ^ 26 }
    ensures { IfOk result (λ c. IsCandidate m.now.scale m.now.entries text.now (shown c)) }
{
    let (head, rest) = split_line(text);
    let (cut, circuit) = heads(m);
    if head == cut {
        candidate_cut(alloc, m, rest)
    } else if head == circuit {
        candidate_circuit(alloc, m, rest)
    } else {
        candidate_optimal(alloc, m, rest)
    }
}

/// The heads of cuts and of circuits, by the version of the model.
fn heads(m: &Model) -> (&'static [u8], &'static [u8])
    ensures cut { result.0.now ≡ head_line m.now.scale (codes "cut") }
    ensures circuit { result.1.now ≡ head_line m.now.scale (codes "circuit") }
{
    if m.scale().version == 1 {
        (b"certificate 1 cut\n", b"certificate 1 circuit\n")
    } else {
        (b"certificate 2 cut\n", b"certificate 2 circuit\n")
    }
}

fn candidate_optimal(alloc: Global, m: &Model, text: &[u8]) -> Result<Certificate, AllocError>
    ensures { IfOk result (λ c. IsOptimalRead m.now.entries text.now (shown c)) }
{
    let (cost_line, rest) = split_line(text);
    let (value_line, rest) = split_line(rest);
    let mut u = Vec::new(alloc);
    let mut x = Vec::new(alloc);
    let rest = read_pairs(&mut u, &mut x, rest, m.nodes())?;
    let _ = read_flows(&mut x, rest, m.arcs())?;
    Ok(Certificate::Optimal {
        x: Flows::of_vec(x),
        u: Flows::of_vec(u),
        cost: last_sum(cost_line),
        value: last_sum(value_line),
    })
}

fn candidate_cut(alloc: Global, m: &Model, text: &[u8]) -> Result<Certificate, AllocError>
    ensures { IfOk result (λ c. IsCutRead m.now.entries text.now (shown c)) }
{
    let (capacity_line, rest) = split_line(text);
    let side = read_side(alloc, m, rest)?;
    Ok(Certificate::Cut {
        side: Marks::of_vec(side),
        capacity: last_sum(capacity_line),
    })
}

fn candidate_circuit(alloc: Global, m: &Model, text: &[u8]) -> Result<Certificate, AllocError>
    requires { length text.now ≤ 2 ^ 26 }
    ensures { IfOk result (λ c. IsCircuitRead m.now.entries text.now (shown c)) }
{
    let (span_line, rest) = split_line(text);
    let mut x = Vec::new(alloc);
    let rest = read_flows(&mut x, rest, m.nodes() + m.arcs())?;
    let walk = read_steps(alloc, m, rest)?;
    Ok(Certificate::Circuit {
        x: Flows::of_vec(x),
        walk: Walk::of_vec(walk),
        span: last_sum(span_line),
    })
}

/// The ground's potential, and then the potential and the supply of each node. What is left of the text comes back.
fn read_pairs<'a>(
    u: &mut Vec<i64>,
    x: &mut Vec<i64>,
    text: &'a [u8],
    count: u32,
) -> Result<&'a [u8], AllocError>
    requires potentials { u.old.items ≡ [] }
    requires supplies { x.old.items ≡ [] }
    ensures rest { IfOk result (λ rest. rest.now ≡ after count text.now) }
    ensures read { OnOk result (ArePairsRead text.now count u.new.items x.new.items) }
{
    u.push(0)?;
    let mut rest = text;
    for _i in 0..count {
        let (line, behind) = split_line(rest);
        let (potential, supply) = last_pair(line);
        u.push(potential)?;
        x.push(supply)?;
        rest = behind;
    }
    Ok(rest)
}

/// A flow from each of the lines. What is left of the text comes back.
fn read_flows<'a>(x: &mut Vec<i64>, text: &'a [u8], count: u32) -> Result<&'a [u8], AllocError>
    ensures rest { IfOk result (λ rest. rest.now ≡ after count text.now) }
    ensures read { OnOk result (AreFlowsRead text.now count x.old.items x.new.items) }
{
    let mut rest = text;
    for _j in 0..count {
        let (line, behind) = split_line(rest);
        x.push(last_flow(line))?;
        rest = behind;
    }
    Ok(rest)
}

/// A mark for each grounded node: whether its own line is next when the nodes before it have taken theirs.
fn read_side(alloc: Global, m: &Model, text: &[u8]) -> Result<Vec<bool>, AllocError>
    ensures { IfOk result (λ side. IsSideRead m.now.entries text.now (length m.now.entries.nodes + 1) side.items) }
{
    let mut side = Vec::new(alloc);
    let mut own = Vec::new(alloc);
    let mut rest = text;
    for i in 0..m.nodes() + 1 {
        own.clear();
        append_node_line(&mut own, m, i)?;
        let (line, behind) = split_line(rest);
        let held = line == own.as_slice();
        side.push(held)?;
        if held {
            rest = behind;
        }
    }
    Ok(side)
}

/// The steps, up to the first line that is none.
fn read_steps(alloc: Global, m: &Model, text: &[u8]) -> Result<Vec<Step>, AllocError>
    requires { length text.now ≤ 2 ^ 26 }
    ensures { IfOk result (λ walk. AreStepsRead m.now.entries text.now walk.items) }
{
    let mut walk = Vec::new(alloc);
    let mut rest = text;
    loop {
        let (line, behind) = split_line(rest);
        let Some(step) = step_of(m, line) else {
            return Ok(walk);
        };
        walk.push(step)?;
        rest = behind;
    }
}

/// The step whose line this is, `step SIGN ARC`; perhaps a step for a line that is no step's.
fn step_of(m: &Model, line: &[u8]) -> Option<Step>
    ensures { MatchOption result (IsNoStep m.now.entries line.now) (IsStepRead m.now.entries line.now) }
{
    if line.is_empty() {
        return None;
    }
    let (front, name) = split_last_word(content(line));
    let (sign, kind) = split_last_word(front);
    let arc = named_arc(m, kind, name)?;
    Some(Step {
        arc: ArcId(arc),
        forward: sign == b"step +".as_slice(),
    })
}

/// The grounded arc `KIND NAME`: that of a node for the kind `node`, else an arc of the model.
fn named_arc(m: &Model, kind: &[u8], name: &[u8]) -> Option<u32>
    ensures { result ≡ named_arc m.now.entries kind.now name.now }
{
    if kind == b"node".as_slice() {
        m.node_of(name)
    } else {
        Some(m.nodes() + m.arc_of(name)?)
    }
}
