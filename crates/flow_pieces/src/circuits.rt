// What is taken round a circuit along the flow.
ghost use Rattle.std.specs.Prelude.{◌≡◌, ◌≢◌, ℕ, ◌<◌, ◌≤◌, ℤ, pos, ◌-ℤ◌, ◌≤ℤ◌, ◌++◌, take, drop, length, if◌then◌else◌, IfOk, neg_ℤ};
ghost use Rattle.theory.specs.Limits.{IsWithin, flow_most};
ghost use Rattle.theory.specs.Network.{«at»};
ghost use Rattle.theory.specs.Circuit.{step, begin_of, WalkIsThere};
ghost use Rattle.theory.specs.Certificate.{AreNumbers};
ghost use Rattle.net_incidence.specs.Graph.{bare};
ghost use Rattle.net_incidence.specs.FlowAlong.{flow_along};
ghost use Rattle.flow_pieces.specs.Pieces.{directed, carried, IsLeastAlong, IsPiece};
ghost use Rattle.flow_pieces.specs.Course.{IsRound};
ghost use Rattle.flow_pieces.specs.Splitting.{piece_of};

use crate::list::Piece;
use net_incidence::Net;
use std::alloc::{AllocError, Global};
use theory::Step;

/// The piece round a circuit.
pub(crate) fn piece_round(
    alloc: Global,
    net: &Net,
    rest: &[i64],
    circuit: &[Step],
) -> Result<Piece, AllocError>
    requires numbers { AreNumbers (length net.now.arcs) rest.now }
    requires round { IsRound (bare net.now) («at» rest.now) circuit.now }
    ensures piece { IfOk result (λ p. IsPiece (bare net.now) («at» rest.now) (piece_of p)) }
    ensures same { IfOk result (λ p. (j : ℕ) → carried p.weight p.walk.items j ≡ carried p.weight circuit.now j) }
    ensures weighs { IfOk result (λ p. IsLeastAlong («at» rest.now) circuit.now p.weight) }
{
    let turn = least_begin(net, circuit);
    Ok(Piece {
        weight: least_along(rest, circuit),
        walk: turned(alloc, circuit, turn)?,
    })
}

/// What is left along the step.
pub(crate) fn flow_along(rest: &[i64], step: Step) -> i64
    requires there { step.arc.0 < length rest.now }
    requires within { IsWithin flow_most («at» rest.now step.arc.0) }
    ensures { result ≡ flow_along («at» rest.now) step }
{
    let flow = rest[step.arc.0 as usize];
    if step.forward { flow } else { -flow }
}

/// The least that is left along the steps.
fn least_along(rest: &[i64], circuit: &[Step]) -> i64
    requires not_empty { 0 < length circuit.now }
    requires there { (k : ℕ) → k < length circuit.now → (step circuit.now k).arc.0 < length rest.now }
    requires numbers { AreNumbers (length rest.now) rest.now }
    ensures { IsLeastAlong («at» rest.now) circuit.now result }
{
    let mut least = flow_along(rest, circuit[0]);
    for step in circuit {
        least = least.min(flow_along(rest, *step));
    }
    least
}

/// The place of the step that begins at the node of the least number.
fn least_begin(net: &Net, circuit: &[Step]) -> usize
    requires there { WalkIsThere (bare net.now) circuit.now }
    requires not_empty { 0 < length circuit.now }
    ensures in_walk { result < length circuit.now }
    ensures least { (k : ℕ) → k < length circuit.now
        → begin_of (bare net.now) (step circuit.now result) ≤ begin_of (bare net.now) (step circuit.now k) }
{
    let mut turn = 0;
    for k in 1..circuit.len() {
        if net.begin(circuit[k]).0 < net.begin(circuit[turn]).0 {
            turn = k;
        }
    }
    turn
}

/// The circuit from this place on.
fn turned(alloc: Global, circuit: &[Step], turn: usize) -> Result<Vec<Step>, AllocError>
    requires { turn ≤ length circuit.now }
    ensures { IfOk result (λ walk. walk.items ≡ drop turn circuit.now ++ take turn circuit.now) }
{
    let (front, back) = circuit.split_at(turn);
    let mut walk = Vec::with_capacity(alloc, circuit.len())?;
    walk.extend_from_slice(back)?;
    walk.extend_from_slice(front)?;
    Ok(walk)
}

/// Takes the weight off the arcs of the circuit.
pub(crate) fn take_off(rest: &mut Vec<i64>, circuit: &[Step], weight: i64)
    requires numbers { AreNumbers (length rest.old.items) rest.old.items }
    requires there { (k : ℕ) → k < length circuit.now → (step circuit.now k).arc.0 < length rest.old.items }
    requires differ { (i k : ℕ) → i < k → k < length circuit.now → (step circuit.now i).arc.0 ≢ (step circuit.now k).arc.0 }
    requires some { pos 0 ≤ℤ weight }
    requires most { (k : ℕ) → k < length circuit.now → weight ≤ℤ flow_along («at» rest.old.items) (step circuit.now k) }
    ensures same { length rest.new.items ≡ length rest.old.items }
    ensures less { (j : ℕ) → «at» rest.new.items j ≡ («at» rest.old.items j -ℤ carried weight circuit.now j) }
{
    for step in circuit {
        let place = step.arc.0 as usize;
        rest[place] = reduced(rest[place], step.forward, weight);
    }
}

/// A flow less the weight in the direction of a step.
fn reduced(flow: i64, forward: bool, weight: i64) -> i64
    requires within { IsWithin flow_most flow }
    requires some { pos 0 ≤ℤ weight }
    requires most { weight ≤ℤ (if forward then flow else (neg_ℤ flow)) }
    ensures { result ≡ flow -ℤ directed weight forward }
{
    if forward {
        flow - weight
    } else {
        flow + weight
    }
}
