// Greatest tensions. A step is tight where the tension has come to the end of the span that it leads to. Where no path of tight steps
// joins the two nodes, the potentials outside the nodes that are reached over such steps are lifted together, until one more step is
// tight: the painted search of R. T. Rockafellar, Network Flows and Monotropic Optimization, 1984.
ghost use Rattle.std.specs.Prelude.{◌≡◌, ◌≢◌, ℕ, ◌+◌, ◌*◌, ◌<◌, ◌≤◌, length, map};
ghost use Rattle.std.specs.List.{All};
ghost use Rattle.theory.specs.Limits.{number_most, IsWithin};
ghost use Rattle.theory.specs.Network.{«at»};
ghost use Rattle.theory.specs.Feasible.{IsFeasiblePotential};
ghost use Rattle.net_incidence.specs.FlowAlong.{AreSmall};
ghost use Rattle.net_incidence.specs.WithoutBases.{IsPassable, without_bases};
ghost use Rattle.painted_search.specs.Fits.{Fits};
ghost use Rattle.path_cut.specs.GreatestTension.{rise};
ghost use Rattle.path_cut.specs.Climbing.{IsTensionAnswer};

use crate::raising::raise;
use crate::tight::Tight;
use mono_curve::{Monotone, Steps};
use net_incidence::{Net, NodeId};
use painted_search::{Found, Work, search};
use std::sync::ledger::Ledger;

/// What was found of the tensions from one node to another.
#[derive(Clone, Copy, PartialEq, Eq, Debug)]
pub enum TensionTop {
    /// The potentials of the room rise the most, by this, and its walk is a path of the same span sum.
    Greatest(i64),
    /// The reached set of the room is an open cut.
    Unbounded,
}

/// Begins with the room's potentials. It takes no memory.
pub fn greatest_tension<C: Monotone, L: Ledger>(
    net: &Net,
    curves: &[C],
    from: NodeId,
    to: NodeId,
    work: &mut Work,
    steps: &mut Steps<L>,
) -> TensionTop
    requires passable { IsPassable net.now (length curves.now) }
    requires light { All (λ c. C.weight c ≡ 1) curves.now }
    requires fits { Fits net.now work.old }
    requires from_there { from.0 < net.now.nodes }
    requires to_there { to.0 < net.now.nodes }
    requires apart { from.0 ≢ to.0 }
    requires feasible { IsFeasiblePotential 1 (without_bases net.now (map C.items curves.now)) work.old.potentials }
    requires near { (i : ℕ) → i < net.now.nodes → IsWithin (net.now.nodes * number_most) («at» work.old.potentials i) }
    ensures answer { IsTensionAnswer (without_bases net.now (map C.items curves.now)) from.0 to.0 work.new result }
    ensures feasible { IsFeasiblePotential 1 (without_bases net.now (map C.items curves.now)) work.new.potentials }
    ensures within { (i : ℕ) → i < net.now.nodes → IsWithin (4 * (net.now.nodes * number_most)) («at» work.new.potentials i) }
    ensures flows { work.new.flows ≡ work.old.flows }
    ensures fits { Fits net.now work.new }
    ensures no_fewer { steps.old ≤ steps.new }
    ensures count { steps.new ≤ steps.old + 3 * (net.now.nodes + 1) * length net.now.arcs }
{
    let tight = Tight { net, curves };
    match search(net, &tight, from, to, work, steps) {
        Found::Path => return TensionTop::Greatest(risen(work, from, to)),
        Found::Cut => {}
    }
    while let Some(room) = tight.least_slack(work, steps) {
        raise(work, room);
        match search(net, &tight, from, to, work, steps) {
            Found::Path => return TensionTop::Greatest(risen(work, from, to)),
            Found::Cut => {}
        }
    }
    TensionTop::Unbounded
}

/// How far the potential rises from one node to the other.
fn risen(work: &Work, from: NodeId, to: NodeId) -> i64
    requires from_there { from.0 < work.now.nodes }
    requires to_there { to.0 < work.now.nodes }
    requires small { AreSmall work.now.potentials }
    ensures { result ≡ rise work.now.potentials from.0 to.0 }
{
    work.potential(to) - work.potential(from)
}
