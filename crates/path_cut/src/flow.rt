// Greatest flows, by augmenting paths (L. R. Ford and D. R. Fulkerson, Flows in Networks, 1962), each a shortest one
// (J. Edmonds and R. M. Karp, Theoretical improvements in algorithmic efficiency for network flow problems, 1972) and used by its
// whole room. Whether a path is open is asked first: where none is, a cut bounds all flows.
ghost use Rattle.std.specs.Prelude.{◌≡◌, ℕ, ◌+◌, ◌*◌, ◌^◌, ◌<◌, ◌≤◌, pos, true, false, length, map};
ghost use Rattle.std.specs.List.{All};
ghost use Rattle.theory.specs.Limits.{flow_most, IsWithin};
ghost use Rattle.theory.specs.Network.{«at»};
ghost use Rattle.theory.specs.Feasible.{IsFeasibleFlow};
ghost use Rattle.theory.specs.Certificate.{AreNumbers};
ghost use Rattle.net_incidence.specs.WithoutBases.{IsPassable, without_bases};
ghost use Rattle.painted_search.specs.Fits.{Fits};
ghost use Rattle.path_cut.specs.GreatestFlow.{return_arc, HasReturn, IsFlowBound, IsCutOf, IsOpenPath};
ghost use Rattle.path_cut.specs.Augmenting.{top_most, IsAugmented, IsFlowAnswer};

use crate::capacities::Capacities;
use crate::endless::Endless;
use feasible_flow::send_around;
use mono_curve::{Monotone, Steps};
use net_incidence::{ArcId, Net, Step};
use painted_search::{Found, Work, search};
use std::sync::ledger::Ledger;

/// What was found of the flows from the start to the goal.
#[derive(Clone, Copy, PartialEq, Eq, Debug)]
pub enum FlowTop {
    /// The flows of the room are greatest, this one on the last arc, and the reached set is a cut of the same sum.
    Greatest(i64),
    /// The flows are those that the room had, and its walk is an open path.
    Unbounded,
}

/// Begins with the room's flows. It takes no memory.
pub fn greatest_flow<C: Monotone, L: Ledger>(
    net: &Net,
    curves: &[C],
    work: &mut Work,
    steps: &mut Steps<L>,
) -> FlowTop
    requires passable { IsPassable net.now (length curves.now) }
    requires light { All (λ c. C.weight c ≡ 1) curves.now }
    requires fits { Fits net.now work.old }
    requires returns { HasReturn (without_bases net.now (map C.items curves.now)) }
    requires feasible { IsFeasibleFlow 1 (without_bases net.now (map C.items curves.now)) work.old.flows }
    requires near { AreNumbers (length net.now.arcs) work.old.flows }
    ensures answer { IsFlowAnswer (without_bases net.now (map C.items curves.now)) work.old.flows work.new result }
    ensures feasible { IsFeasibleFlow 1 (without_bases net.now (map C.items curves.now)) work.new.flows }
    ensures within { (j : ℕ) → IsWithin (4 * flow_most) («at» work.new.flows j) }
    ensures potentials { work.new.potentials ≡ work.old.potentials }
    ensures fits { Fits net.now work.new }
    ensures no_fewer { steps.old ≤ steps.new }
{
    if is_open(net, curves, work, steps) {
        return FlowTop::Unbounded;
    }
    augment(net, curves, work, steps);
    FlowTop::Greatest(work.flow(return_arc(net)))
}

/// The arc that leads back from the goal to the start.
pub(crate) fn return_arc(net: &Net) -> ArcId
    requires some { 0 < length net.now.arcs }
    requires few { length net.now.arcs ≤ 2 ^ 31 }
    ensures number { result.0 + 1 ≡ length net.now.arcs }
{
    ArcId(net.arcs() as u32 - 1)
}

/// Whether there is an open path. Else a cut bounds all flows.
fn is_open<C: Monotone, L: Ledger>(
    net: &Net,
    curves: &[C],
    work: &mut Work,
    steps: &mut Steps<L>,
) -> bool
    requires passable { IsPassable net.now (length curves.now) }
    requires light { All (λ c. C.weight c ≡ 1) curves.now }
    requires fits { Fits net.now work.old }
    requires returns { HasReturn (without_bases net.now (map C.items curves.now)) }
    ensures open { result ≡ true → IsOpenPath (without_bases net.now (map C.items curves.now)) work.new.walk }
    ensures bound { let network = without_bases net.now (map C.items curves.now) in
        result ≡ false → IsFlowBound network (pos (top_most network)) }
    ensures flows { work.new.flows ≡ work.old.flows }
    ensures potentials { work.new.potentials ≡ work.old.potentials }
    ensures fits { Fits net.now work.new }
    ensures no_fewer { steps.old ≤ steps.new }
{
    let last = return_arc(net);
    let endless = Endless { curves, last };
    match search(net, &endless, net.to(last), net.from(last), work, steps) {
        Found::Path => true,
        Found::Cut => false,
    }
}

/// Sends along one path after the other, until a cut holds all.
fn augment<C: Monotone, L: Ledger>(net: &Net, curves: &[C], work: &mut Work, steps: &mut Steps<L>)
    requires passable { IsPassable net.now (length curves.now) }
    requires light { All (λ c. C.weight c ≡ 1) curves.now }
    requires fits { Fits net.now work.old }
    requires returns { HasReturn (without_bases net.now (map C.items curves.now)) }
    requires feasible { IsFeasibleFlow 1 (without_bases net.now (map C.items curves.now)) work.old.flows }
    requires near { AreNumbers (length net.now.arcs) work.old.flows }
    requires bound { let network = without_bases net.now (map C.items curves.now) in IsFlowBound network (pos (top_most network)) }
    ensures augmented { IsAugmented (without_bases net.now (map C.items curves.now)) work.old.flows work.new.flows }
    ensures cut { let network = without_bases net.now (map C.items curves.now) in
        IsCutOf network work.new.reached («at» work.new.flows (return_arc network)) }
    ensures potentials { work.new.potentials ≡ work.old.potentials }
    ensures fits { Fits net.now work.new }
    ensures no_fewer { steps.old ≤ steps.new }
{
    let last = return_arc(net);
    let capacities = Capacities { curves, last };
    let back = Step {
        arc: last,
        forward: true,
    };
    while let Some(amount) = capacities.find_room(net, work, steps) {
        send_around(work, back, amount);
    }
}
