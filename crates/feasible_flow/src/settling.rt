// Bringing one arc's flow into its domain, and no other arc's flow further from its own.
ghost use Rattle.std.specs.Prelude.{◌≡◌, ◌+◌, ◌<◌, ◌≤◌, true, false, length};
ghost use Rattle.std.specs.List.{All};
ghost use Rattle.theory.specs.Network.{«at»};
ghost use Rattle.theory.specs.Cut.{IsNegativeCut};
ghost use Rattle.painted_search.specs.Fits.{Fits};
ghost use Rattle.net_incidence.specs.WithoutBases.{IsPassable, without_bases};
ghost use Rattle.theory.specs.Network.{list_at};
ghost use Rattle.feasible_flow.specs.Violations.{violation_at, IsNeed};
ghost use Rattle.feasible_flow.specs.UnderWay.{IsUnderWay, AreNoFurther, IsNearer, look_cost, round_cost, readings_left};
ghost use Rattle.feasible_flow.specs.ByLevels.{levels_of, flow_limit};

use crate::domains::{Domains, Need};
use crate::moving::send_around;
use mono_curve::{Monotone, Steps};
use net_incidence::{ArcId, Net};
use painted_search::{Found, Work, search};
use std::sync::ledger::Ledger;

impl<'a, C: Monotone> Domains<'a, C> {
    /// Moves flow round the arc until it is in its domain. False where it can't be: the reached set is a negative cut.
    pub(crate) fn settle<L: Ledger>(
        &self,
        net: &Net,
        arc: ArcId,
        work: &mut Work,
        steps: &mut Steps<L>,
    ) -> bool
        requires passable { IsPassable net.now (length self.now.curves.now) }
        requires light { All (λ c. C.weight c ≡ 1) self.now.curves.now }
        requires there { arc.0 < length net.now.arcs }
        requires fits { Fits net.now work.old }
        requires under_way { IsUnderWay net.now (levels_of C.items self.now.level self.now.curves.now) (flow_limit (length net.now.arcs) self.now.level) work.old.flows }
        ensures settled { result ≡ true → violation_at (levels_of C.items self.now.level self.now.curves.now) work.new.flows arc.0 ≡ 0 }
        ensures cut { result ≡ false → IsNegativeCut (without_bases net.now (levels_of C.items self.now.level self.now.curves.now)) work.new.reached }
        ensures under_way { IsUnderWay net.now (levels_of C.items self.now.level self.now.curves.now) (flow_limit (length net.now.arcs) self.now.level) work.new.flows }
        ensures no_further { AreNoFurther (levels_of C.items self.now.level self.now.curves.now) work.old.flows work.new.flows }
        ensures potentials { work.new.potentials ≡ work.old.potentials }
        ensures fits { Fits net.now work.new }
        ensures no_fewer { steps.old ≤ steps.new }
        ensures count { result ≡ true → let lists = levels_of C.items self.now.level self.now.curves.now in
            steps.new + readings_left net.now lists work.new.flows ≤ steps.old + readings_left net.now lists work.old.flows + look_cost }
        ensures cut_count { result ≡ false → let lists = levels_of C.items self.now.level self.now.curves.now in
            steps.new + readings_left net.now lists work.new.flows
            ≤ steps.old + readings_left net.now lists work.old.flows + round_cost net.now.nodes (length net.now.arcs) }
    {
        while let Some(need) = self.need_of(arc, work, steps) {
            if !self.send_round(net, need, work, steps) {
                return false;
            }
        }
        true
    }

    /// Moves flow over the need's step, as much as it lacks and a path back to its beginning has room for. False where
    /// there is no path.
    fn send_round<L: Ledger>(
        &self,
        net: &Net,
        need: Need,
        work: &mut Work,
        steps: &mut Steps<L>,
    ) -> bool
        requires passable { IsPassable net.now (length self.now.curves.now) }
        requires light { All (λ c. C.weight c ≡ 1) self.now.curves.now }
        requires there { need.step.arc.0 < length net.now.arcs }
        requires fits { Fits net.now work.old }
        requires under_way { IsUnderWay net.now (levels_of C.items self.now.level self.now.curves.now) (flow_limit (length net.now.arcs) self.now.level) work.old.flows }
        requires need { IsNeed (list_at (levels_of C.items self.now.level self.now.curves.now) need.step.arc.0) («at» work.old.flows need.step.arc.0)
            need.step.forward need.amount }
        ensures cut { result ≡ false → IsNegativeCut (without_bases net.now (levels_of C.items self.now.level self.now.curves.now)) work.new.reached }
        ensures still { result ≡ false → work.new.flows ≡ work.old.flows }
        ensures nearer { result ≡ true → IsNearer net.now (levels_of C.items self.now.level self.now.curves.now)
            (flow_limit (length net.now.arcs) self.now.level) work.old.flows work.new.flows }
        ensures potentials { work.new.potentials ≡ work.old.potentials }
        ensures fits { Fits net.now work.new }
        ensures no_fewer { steps.old ≤ steps.new }
        ensures count { steps.new + look_cost ≤ steps.old + round_cost net.now.nodes (length net.now.arcs) }
    {
        let (from, to) = (net.end(need.step), net.begin(need.step));
        match search(net, self, from, to, work, steps) {
            Found::Cut => false,
            Found::Path => {
                let amount = self.room_along(work, need.amount, steps);
                send_around(work, need.step, amount);
                true
            }
        }
    }
}
