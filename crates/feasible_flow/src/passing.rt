// The pass: a feasible flow, or a negative cut. It goes down level by level, from where 0 is a flow of nearly every arc to the curves
// themselves; between two levels it doubles the flows.
ghost use Rattle.std.specs.Prelude.{◌≡◌, ℕ, ◌+◌, ◌*◌, ◌<◌, ◌≤◌, pos, true, false, length, map};
ghost use Rattle.std.specs.List.{All};
ghost use Rattle.theory.specs.Limits.{level_most};
ghost use Rattle.theory.specs.Network.{«at»};
ghost use Rattle.theory.specs.Cut.{IsNegativeCut};
ghost use Rattle.theory.specs.Feasible.{IsFeasibleFlow};
ghost use Rattle.theory.specs.Certificate.{AreNumbers};
ghost use Rattle.theory.specs.ReadingBound.{reading_unit};
ghost use Rattle.painted_search.specs.Fits.{Fits};
ghost use Rattle.net_incidence.specs.WithoutBases.{IsPassable, without_bases};
ghost use Rattle.feasible_flow.specs.Violations.{violation_at, total_violation};
ghost use Rattle.feasible_flow.specs.UnderWay.{IsUnderWay, round_cost};
ghost use Rattle.feasible_flow.specs.ByLevels.{levels_of, flow_limit, level_cost, IsSettled};

use crate::domains::Domains;
use crate::moving::{clear_flows, double_flows};
use mono_curve::{LEVELS, Monotone, Steps};
use net_incidence::{ArcId, Net};
use painted_search::Work;
use std::sync::ledger::Ledger;

/// What the pass found.
#[derive(Clone, Copy, PartialEq, Eq, Debug)]
pub enum FlowAns {
    /// The flows of the room are feasible.
    Flow,
    /// The reached set of the room is a negative cut.
    Cut,
}

/// Begins with the room's flows where they are conserved, not too far from 0, and lack little to their domains. Else it
/// begins with 0, and level by level brings the flow of one arc after the other into its domain. It takes no memory.
pub fn feasible_flow<C: Monotone, L: Ledger>(
    net: &Net,
    curves: &[C],
    work: &mut Work,
    steps: &mut Steps<L>,
) -> FlowAns
    requires passable { IsPassable net.now (length curves.now) }
    requires light { All (λ c. C.weight c ≡ 1) curves.now }
    requires fits { Fits net.now work.old }
    ensures flow { result ≡ FlowAns.Flow → IsFeasibleFlow 1 (without_bases net.now (map C.items curves.now)) work.new.flows }
    ensures within { result ≡ FlowAns.Flow → AreNumbers (length net.now.arcs) work.new.flows }
    ensures cut { result ≡ FlowAns.Cut → IsNegativeCut (without_bases net.now (map C.items curves.now)) work.new.reached }
    ensures potentials { work.new.potentials ≡ work.old.potentials }
    ensures fits { Fits net.now work.new }
    ensures no_fewer { steps.old ≤ steps.new }
    ensures count { steps.new ≤ steps.old + 3 * reading_unit net.now.nodes (length net.now.arcs) level_most }
{
    let domains = Domains { curves, level: 0 };
    let will_do = domains.will_do(net, work, steps);
    if will_do {
        return answer(domains.settle_all(net, work, steps));
    }
    clear_flows(work);
    answer(settle_levels(net, curves, work, steps))
}

fn answer(settled: bool) -> FlowAns
    ensures flow { result ≡ FlowAns.Flow → settled ≡ true }
    ensures cut { result ≡ FlowAns.Cut → settled ≡ false }
{
    if settled { FlowAns::Flow } else { FlowAns::Cut }
}

/// From flows of 0 to flows within all domains, from the top level down. False where there are none: the reached set is a
/// negative cut.
fn settle_levels<C: Monotone, L: Ledger>(
    net: &Net,
    curves: &[C],
    work: &mut Work,
    steps: &mut Steps<L>,
) -> bool
    requires passable { IsPassable net.now (length curves.now) }
    requires light { All (λ c. C.weight c ≡ 1) curves.now }
    requires fits { Fits net.now work.old }
    requires zero { (j : ℕ) → «at» work.old.flows j ≡ pos 0 }
    ensures settled { result ≡ true → IsSettled net.now (map C.items curves.now) (level_most + 1) work.new.flows }
    ensures cut { result ≡ false → IsNegativeCut (without_bases net.now (map C.items curves.now)) work.new.reached }
    ensures potentials { work.new.potentials ≡ work.old.potentials }
    ensures fits { Fits net.now work.new }
    ensures no_fewer { steps.old ≤ steps.new }
    ensures count { let m = length net.now.arcs in
        steps.new ≤ steps.old + (level_most + 1) * level_cost net.now.nodes m m + m * round_cost net.now.nodes m }
{
    for done in 0..LEVELS + 1 {
        let domains = Domains {
            curves,
            level: LEVELS - done,
        };
        double_flows(work);
        if !domains.settle_all(net, work, steps) {
            return false;
        }
    }
    true
}

impl<'a, C: Monotone> Domains<'a, C> {
    /// Brings the flow of one arc after the other into its domain. False where that can't be: the reached set is a negative
    /// cut.
    fn settle_all<L: Ledger>(&self, net: &Net, work: &mut Work, steps: &mut Steps<L>) -> bool
        requires passable { IsPassable net.now (length self.now.curves.now) }
        requires light { All (λ c. C.weight c ≡ 1) self.now.curves.now }
        requires fits { Fits net.now work.old }
        requires under_way { IsUnderWay net.now (levels_of C.items self.now.level self.now.curves.now)
            (flow_limit (length net.now.arcs) self.now.level) work.old.flows }
        ensures settled { result ≡ true → (j : ℕ) → j < length net.now.arcs
            → violation_at (levels_of C.items self.now.level self.now.curves.now) work.new.flows j ≡ 0 }
        ensures cut { result ≡ false
            → IsNegativeCut (without_bases net.now (levels_of C.items self.now.level self.now.curves.now)) work.new.reached }
        ensures under_way { IsUnderWay net.now (levels_of C.items self.now.level self.now.curves.now)
            (flow_limit (length net.now.arcs) self.now.level) work.new.flows }
        ensures potentials { work.new.potentials ≡ work.old.potentials }
        ensures fits { Fits net.now work.new }
        ensures no_fewer { steps.old ≤ steps.new }
        ensures count { let m = length net.now.arcs in
            result ≡ true → steps.new ≤ steps.old
            + level_cost net.now.nodes m (total_violation m (levels_of C.items self.now.level self.now.curves.now) work.old.flows) }
        ensures cut_count { let m = length net.now.arcs in
            result ≡ false → steps.new ≤ steps.old
            + level_cost net.now.nodes m (total_violation m (levels_of C.items self.now.level self.now.curves.now) work.old.flows)
            + m * round_cost net.now.nodes m }
    {
        for j in 0..net.arcs() {
            if !self.settle(net, ArcId(j as u32), work, steps) {
                return false;
            }
        }
        true
    }
}
