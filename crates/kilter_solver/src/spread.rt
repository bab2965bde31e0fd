// The search for a cheapest route (Dijkstra): from a node with a surplus to the nearest one that lacks something.
ghost use Rattle.std.specs.Prelude.{◌≡◌, ◌+◌, ◌*◌, ◌<◌, ◌≤◌, false, pos, ◌+ℤ◌, ◌≤ℤ◌, length};
ghost use Rattle.theory.specs.Ends.{whole};
ghost use Rattle.theory.specs.Limits.{IsWithin, number_most};
ghost use Rattle.theory.specs.Network.{«at»};
ghost use Rattle.theory.specs.Circuit.{begin_of, end_of};
ghost use Rattle.theory.specs.Cut.{holds};
ghost use Rattle.net_incidence.specs.Graph.{bare};
ghost use Rattle.net_incidence.specs.Incidence.{incident_steps};
ghost use Rattle.kilter_solver.specs.Ranges.{key_most};
ghost use Rattle.kilter_solver.specs.Along.{IsPrice, price_up, price_down};
ghost use Rattle.theory.specs.Network.{list_at};
ghost use Rattle.kilter_solver.specs.Excess.{excess};
ghost use Rattle.kilter_solver.specs.Ready.{Ready};
ghost use Rattle.kilter_solver.specs.Spread.{key, level, Spread, IsTried, IsLater, IsSameState, IsImproved, IsOutcome};
ghost use Rattle.kilter_solver.specs.Heap.{IsWaiting};

use crate::bundle::Bundle;
use crate::heap::{clear, decrease, insert, nearest, take_least};
use crate::words::{excess, is_met, key, set_key};
use mono_curve::Steps;
use net_incidence::Net;
use painted_search::Work;
use std::sync::ledger::Ledger;
use theory::{Ext, NodeId, Step};

/// A net with its curves, in which routes are sought.
#[derive(Drop)]
pub(crate) struct Routing<'a, B> {
    pub(crate) net: &'a Net,
    pub(crate) bundle: &'a B,
}

impl<B: Bundle> Routing<'_, B> {
    /// What the step asks for one more unit of flow in its direction.
    fn price<L: Ledger>(&self, work: &Work, step: Step, steps: &mut Steps<L>) -> Option<i64>
        requires ready { Ready self.now.net.now (B.lists self.now.bundle.now) work.now }
        requires there { step.arc.0 < length self.now.net.now.arcs }
        ensures price { IsPrice (list_at (B.lists self.now.bundle.now) step.arc.0) step.forward («at» work.now.flows step.arc.0) result }
        ensures no_fewer { steps.old ≤ steps.new }
        ensures count { steps.new ≤ steps.old + B.weight self.now.bundle.now }
    {
        let (low, high) = self.bundle.slopes(step.arc, work.flow(step.arc), steps);
        if step.forward {
            forward_price(high)
        } else {
            backward_price(low)
        }
    }

    /// The key that the step offers to its end at a price.
    fn offer(&self, work: &Work, step: Step, price: i64) -> i64
        requires ready { Ready self.now.net.now (B.lists self.now.bundle.now) work.now }
        requires there { step.arc.0 < length self.now.net.now.arcs }
        requires small { IsWithin number_most price }
        requires near { IsWithin key_most (key work.now (begin_of (bare self.now.net.now) step)) }
        ensures { result +ℤ «at» work.now.potentials (end_of (bare self.now.net.now) step)
            ≡ level work.now (begin_of (bare self.now.net.now) step) +ℤ price }
    {
        let (from, to) = (self.net.begin(step), self.net.end(step));
        let rise = work.potential(to) - work.potential(from);
        key(work, from) + (price - rise)
    }

    fn try_step<L: Ledger>(&self, step: Step, source: NodeId, work: &mut Work, steps: &mut Steps<L>)
        requires ready { Ready self.now.net.now (B.lists self.now.bundle.now) work.old }
        requires there { step.arc.0 < length self.now.net.now.arcs }
        requires spread { Spread self.now.net.now (B.lists self.now.bundle.now) source.0 (begin_of (bare self.now.net.now) step) work.old }
        requires queue { IsWaiting work.old }
        ensures spread { Spread self.now.net.now (B.lists self.now.bundle.now) source.0 (begin_of (bare self.now.net.now) step) work.new }
        ensures later { IsLater work.old work.new }
        ensures queue { IsWaiting work.new }
        ensures tried { IsTried self.now.net.now (B.lists self.now.bundle.now) work.new step }
        ensures no_fewer { steps.old ≤ steps.new }
        ensures count { steps.new ≤ steps.old + B.weight self.now.bundle.now }
    {
        let end = self.net.end(step);
        if work.reached(end) {
            return;
        }
        match self.price(work, step, steps) {
            Some(price) => {
                let offer = self.offer(work, step, price);
                improve(work, end, step, offer);
            }
            None => {}
        }
    }

    /// Tries each step at the node that was settled last.
    fn visit<L: Ledger>(&self, node: NodeId, source: NodeId, work: &mut Work, steps: &mut Steps<L>)
        requires ready { Ready self.now.net.now (B.lists self.now.bundle.now) work.old }
        requires there { node.0 < self.now.net.now.nodes }
        requires spread { Spread self.now.net.now (B.lists self.now.bundle.now) source.0 node.0 work.old }
        requires queue { IsWaiting work.old }
        ensures spread { Spread self.now.net.now (B.lists self.now.bundle.now) source.0 self.now.net.now.nodes work.new }
        ensures queue { IsWaiting work.new }
        ensures later { IsLater work.old work.new }
        ensures no_fewer { steps.old ≤ steps.new }
        ensures count { steps.new ≤ steps.old + length (incident_steps self.now.net.now.arcs node.0) * B.weight self.now.bundle.now }
    {
        for step in self.net.steps(node) {
            self.try_step(*step, source, work, steps);
        }
    }

    /// Settles nodes, the nearest first, until the nearest one lacks something; gives that one.
    pub(crate) fn spread<L: Ledger>(
        &self,
        source: NodeId,
        work: &mut Work,
        steps: &mut Steps<L>,
    ) -> Option<NodeId>
        requires ready { Ready self.now.net.now (B.lists self.now.bundle.now) work.old }
        requires there { source.0 < self.now.net.now.nodes }
        requires surplus { pos 0 ≤ℤ excess work.old source.0 }
        ensures outcome { IsOutcome self.now.net.now (B.lists self.now.bundle.now) source.0 work.new result }
        ensures state { IsSameState work.old work.new }
        ensures no_fewer { steps.old ≤ steps.new }
        ensures count { steps.new ≤ steps.old + 2 * length self.now.net.now.arcs * B.weight self.now.bundle.now }
    {
        work.begin_at(source);
        set_key(work, source, 0);
        clear(work);
        self.visit(source, source, work, steps);
        while let Some(node) = nearest(work) {
            if excess(work, node) < 0 {
                return Some(node);
            }
            work.mark(node);
            take_least(work);
            self.visit(node, source, work, steps);
        }
        None
    }
}

fn forward_price(high: Ext) -> Option<i64>
    ensures { result ≡ price_up high }
{
    match high {
        Ext::At(h) => Some(h),
        _ => None,
    }
}

fn backward_price(low: Ext) -> Option<i64>
    requires { IsWithin number_most (whole low) }
    ensures { result ≡ price_down low }
{
    match low {
        Ext::At(l) => Some(-l),
        _ => None,
    }
}

/// Keeps the offer, with the step, where it is less than the node's key.
fn improve(work: &mut Work, node: NodeId, step: Step, offer: i64)
    requires there { node.0 < work.old.nodes }
    requires waits { holds work.old.reached node.0 ≡ false }
    requires queue { IsWaiting work.old }
    ensures improved { IsImproved work.old work.new node.0 step offer }
    ensures queue { IsWaiting work.new }
{
    let met = is_met(work, node);
    if met && key(work, node) <= offer {
        return;
    }
    work.set_label(node, step);
    if met {
        decrease(work, node, offer);
    } else {
        insert(work, node, offer);
    }
}
