// Where the pass begins: with the room's flows, if it can go on from them, and else with 0.
ghost use Rattle.std.specs.Prelude.{◌≡◌, ℕ, ◌+◌, ◌*◌, ◌<◌, ◌≤◌, ◌^◌, ◌↔◌, IsTrue, length};
ghost use Rattle.std.specs.List.{All};
ghost use Rattle.theory.specs.Limits.{IsWithin};
ghost use Rattle.theory.specs.Network.{«at»};
ghost use Rattle.theory.specs.Conserved.{IsConserved};
ghost use Rattle.net_incidence.specs.Graph.{bare};
ghost use Rattle.painted_search.specs.Fits.{Fits};
ghost use Rattle.painted_search.specs.Room.{count_most};
ghost use Rattle.net_incidence.specs.WithoutBases.{IsPassable};
ghost use Rattle.feasible_flow.specs.Violations.{violation_at, total_violation, movable_most, AreNear};
ghost use Rattle.feasible_flow.specs.UnderWay.{look_cost};
ghost use Rattle.feasible_flow.specs.ByLevels.{levels_of, WillDo};

use crate::domains::{Domains, missing, surplus};
use mono_curve::{LEVELS, Monotone, NUMBER_MOST, Steps};
use net_incidence::{ArcId, Net, NodeId};
use painted_search::Work;
use std::sync::ledger::Ledger;

impl<'a, C: Monotone> Domains<'a, C> {
    /// Whether the pass can go on from the room's flows.
    pub(crate) fn will_do<L: Ledger>(&self, net: &Net, work: &Work, steps: &mut Steps<L>) -> bool
        requires passable { IsPassable net.now (length self.now.curves.now) }
        requires light { All (λ c. C.weight c ≡ 1) self.now.curves.now }
        requires fits { Fits net.now work.now }
        ensures answer { IsTrue result ↔ WillDo net.now (levels_of C.items self.now.level self.now.curves.now) work.now.flows }
        ensures no_fewer { steps.old ≤ steps.new }
        ensures count { steps.new ≤ steps.old + length net.now.arcs * look_cost }
    {
        let arcs = net.arcs() as u64;
        if !are_within(work.flows(), arcs * NUMBER_MOST as u64) {
            return false;
        }
        if !is_conserved(net, work.flows()) {
            return false;
        }
        self.lack_at_most(arcs * LEVELS as u64, work, steps)
    }

    /// Whether the flows lack no more than this to their domains.
    fn lack_at_most<L: Ledger>(&self, amount: u64, work: &Work, steps: &mut Steps<L>) -> bool
        requires one_each { length work.now.flows ≡ length self.now.curves.now }
        requires light { All (λ c. C.weight c ≡ 1) self.now.curves.now }
        requires near { AreNear movable_most work.now.flows }
        ensures answer { IsTrue result ↔ (total_violation (length self.now.curves.now) (levels_of C.items self.now.level self.now.curves.now)
            work.now.flows ≤ amount) }
        ensures no_fewer { steps.old ≤ steps.new }
        ensures count { steps.new ≤ steps.old + length self.now.curves.now * look_cost }
    {
        let mut left = amount;
        for j in 0..work.arcs() {
            let lacks = self.violation_of(ArcId(j as u32), work, steps);
            if left < lacks {
                return false;
            }
            left -= lacks;
        }
        true
    }

    /// How far the arc's flow is from its domain.
    fn violation_of<L: Ledger>(&self, arc: ArcId, work: &Work, steps: &mut Steps<L>) -> u64
        requires there { arc.0 < length self.now.curves.now }
        requires one_each { length work.now.flows ≡ length self.now.curves.now }
        requires light { All (λ c. C.weight c ≡ 1) self.now.curves.now }
        requires near { AreNear movable_most work.now.flows }
        ensures value { result ≡ violation_at (levels_of C.items self.now.level self.now.curves.now) work.now.flows arc.0 }
        ensures no_fewer { steps.old ≤ steps.new }
        ensures count { steps.new ≤ steps.old + look_cost }
    {
        let (low, high) = self.ends(arc, steps);
        let flow = work.flow(arc);
        missing(low, flow) + surplus(high, flow)
    }
}

/// Whether what leaves each node is what enters it.
fn is_conserved(net: &Net, flows: &[i64]) -> bool
    requires one_each { length flows.now ≡ length net.now.arcs }
    requires few { net.now.nodes ≤ count_most }
    ensures { IsTrue result ↔ IsConserved (bare net.now) («at» flows.now) }
{
    for i in 0..net.nodes() {
        if net.divergence(flows, NodeId(i as u32)) != 0 {
            return false;
        }
    }
    true
}

/// Whether no flow is further from 0 than this.
fn are_within(flows: &[i64], most: u64) -> bool
    requires { most < 2 ^ 63 }
    ensures { IsTrue result ↔ ((j : ℕ) → IsWithin most («at» flows.now j)) }
{
    let most = most as i64;
    for flow in flows {
        if *flow < -most || most < *flow {
            return false;
        }
    }
    true
}
