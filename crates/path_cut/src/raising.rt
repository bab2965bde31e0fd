// Lifting the potentials of the nodes that weren't reached.
ghost use Rattle.std.specs.Prelude.{◌≡◌, ℕ, ◌^◌, ◌<◌, ◌≤◌};
ghost use Rattle.theory.specs.Network.{«at»};
ghost use Rattle.net_incidence.specs.FlowAlong.{AreSmall};
ghost use Rattle.path_cut.specs.Lifting.{lift, lifted};
ghost use Rattle.path_cut.specs.Climbing.{IsSameButPotentials};

use net_incidence::NodeId;
use painted_search::Work;

/// Lifts the nodes outside the reached set by the amount, and counts all from node 0 again.
pub(crate) fn raise(work: &mut Work, amount: u64)
    requires small { AreSmall work.old.potentials }
    requires few { amount ≤ 2 ^ 61 }
    ensures lifts { (i : ℕ) → i < work.old.nodes → «at» work.new.potentials i ≡ lifted amount work.old.reached work.old.potentials i }
    ensures same { IsSameButPotentials work.old work.new }
{
    let ground = lift(amount, work.reached(NodeId(0)));
    for i in 0..work.nodes() {
        let node = NodeId(i as u32);
        let higher = work.potential(node) + lift(amount, work.reached(node));
        work.set_potential(node, higher - ground);
    }
}

/// What a node is lifted by.
fn lift(amount: u64, reached: bool) -> i64
    requires { amount ≤ 2 ^ 61 }
    ensures { result ≡ lift amount reached }
{
    if reached { 0 } else { amount as i64 }
}
