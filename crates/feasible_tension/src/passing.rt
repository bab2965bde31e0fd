// The pass: rounds from potential 0 on, then the potential by its value at node 0, or the circuit.
ghost use Rattle.std.specs.Prelude.{◌≡◌, ℕ, ◌+◌, ◌*◌, ◌<◌, ◌≤◌, pos, None, length, map};
ghost use Rattle.std.specs.List.{All};
ghost use Rattle.theory.specs.Limits.{number_most, IsWithin};
ghost use Rattle.theory.specs.Network.{«at»};
ghost use Rattle.theory.specs.Feasible.{IsFeasiblePotential};
ghost use Rattle.theory.specs.Circuit.{IsNegativeCircuit, WalkIsThere};
ghost use Rattle.net_incidence.specs.FlowAlong.{AreSmall};
ghost use Rattle.painted_search.specs.Fits.{Fits};
ghost use Rattle.painted_search.specs.Path.{label_at};
ghost use Rattle.net_incidence.specs.WithoutBases.{without_bases, IsPassable};
ghost use Rattle.feasible_tension.specs.Kept.{IsKept, IsShifted};

use crate::relaxing::Spans;
use mono_curve::{Monotone, Steps};
use net_incidence::Net;
use painted_search::Work;
use std::sync::ledger::Ledger;
use theory::NodeId;

/// What the pass found.
#[derive(Clone, Copy, PartialEq, Eq, Debug)]
pub enum TensionAns {
    /// The potentials of the room are feasible.
    Potential,
    /// The walk of the room is a negative circuit.
    Circuit,
}

/// Finds a feasible potential, or a circuit that refuses every tension. It takes no memory, and writes over potentials, labels
/// and walk. The labels after it are its own and not those of a search: a node's label is the step whose bound lowered the node
/// last, and a node that was never lowered has none. The marks stay.
pub fn feasible_tension<C: Monotone, L: Ledger>(
    net: &Net,
    curves: &[C],
    work: &mut Work,
    steps: &mut Steps<L>,
) -> TensionAns
    requires passable { IsPassable net.now (length curves.now) }
    requires light { All (λ c. C.weight c ≡ 1) curves.now }
    requires fits { Fits net.now work.old }
    ensures potential { result ≡ TensionAns.Potential → IsFeasiblePotential 1 (without_bases net.now (map C.items curves.now)) work.new.potentials }
    ensures within { result ≡ TensionAns.Potential → (i : ℕ) → i < net.now.nodes
        → IsWithin (net.now.nodes * number_most) («at» work.new.potentials i) }
    ensures circuit { result ≡ TensionAns.Circuit → IsNegativeCircuit (without_bases net.now (map C.items curves.now)) work.new.walk }
    ensures there { result ≡ TensionAns.Circuit → WalkIsThere (without_bases net.now (map C.items curves.now)) work.new.walk }
    ensures flows { work.new.flows ≡ work.old.flows }
    ensures fits { Fits net.now work.new }
    ensures no_fewer { steps.old ≤ steps.new }
    ensures count { steps.new ≤ steps.old + net.now.nodes * length net.now.arcs }
{
    let spans = Spans { net, curves };
    begin(work);
    match spans.rounds(work, steps) {
        None => {
            shift(work);
            TensionAns::Potential
        }
        Some(node) => {
            spans.write_circuit(node, work);
            TensionAns::Circuit
        }
    }
}

/// Potential 0 everywhere, and no label.
fn begin(work: &mut Work)
    ensures zero { (i : ℕ) → «at» work.new.potentials i ≡ pos 0 }
    ensures unlabelled { (i : ℕ) → label_at work.new.labels i ≡ None }
    ensures kept { IsKept work.old work.new }
{
    work.clear_labels();
    for node in 0..work.nodes() {
        work.set_potential(NodeId(node as u32), 0);
    }
}

/// Subtracts the potential of node 0 from all.
fn shift(work: &mut Work)
    requires { AreSmall work.old.potentials }
    ensures shifted { IsShifted work.old work.new }
    ensures kept { IsKept work.old work.new }
{
    let ground = work.potential(NodeId(0));
    for i in 0..work.nodes() {
        let node = NodeId(i as u32);
        work.set_potential(node, work.potential(node) - ground);
    }
}
