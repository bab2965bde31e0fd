// Clamping: every flow moves to the nearest one that is on its curve with the tension, and the excesses with it.
ghost use Rattle.std.specs.Prelude.{◌≡◌, ℕ, ◌+◌, ◌*◌, ◌<◌, ◌≤◌, ◌+ℤ◌, ◌-ℤ◌, length};
ghost use Rattle.theory.specs.Limits.{IsWithin, arg_most};
ghost use Rattle.theory.specs.Network.{«at»};
ghost use Rattle.theory.specs.Conserved.{tension};
ghost use Rattle.net_incidence.specs.Graph.{bare};
ghost use Rattle.theory.specs.Network.{list_at};
ghost use Rattle.painted_search.specs.Writes.{with_scratch};
ghost use Rattle.kilter_solver.specs.Ranges.{shift_most, word_most, ungrounded_most};
ghost use Rattle.kilter_solver.specs.Excess.{excess};
ghost use Rattle.kilter_solver.specs.Clamping.{HasNear, IsClosest, IsLoose, IsClampedBelow, IsClampable, IsClampedOne, IsClosestFlow, IsShifted};

use crate::bundle::Bundle;
use crate::spread::Routing;
use crate::words::{excess, set_excess};
use mono_curve::Steps;
use painted_search::Work;
use std::sync::ledger::Ledger;
use theory::{ArcId, Ext, NodeId};

impl<B: Bundle> Routing<'_, B> {
    pub(crate) fn clamp<L: Ledger>(&self, work: &mut Work, steps: &mut Steps<L>)
        requires loose { IsLoose self.now.net.now (B.lists self.now.bundle.now) work.old }
        ensures clamped { IsClampedBelow (length self.now.net.now.arcs) self.now.net.now (B.lists self.now.bundle.now) work.old work.new }
        ensures no_fewer { steps.old ≤ steps.new }
        ensures count { steps.new ≤ steps.old + length self.now.net.now.arcs * B.weight self.now.bundle.now }
    {
        for j in 0..self.net.arcs() {
            self.clamp_one(ArcId(j as u32), work, steps);
        }
    }

    fn clamp_one<L: Ledger>(&self, arc: ArcId, work: &mut Work, steps: &mut Steps<L>)
        requires there { arc.0 < length self.now.net.now.arcs }
        requires ready { IsClampable self.now.net.now (B.lists self.now.bundle.now) work.old arc.0 }
        ensures clamped { IsClampedOne self.now.net.now (B.lists self.now.bundle.now) arc.0 work.old work.new }
        ensures no_fewer { steps.old ≤ steps.new }
        ensures count { steps.new ≤ steps.old + B.weight self.now.bundle.now }
    {
        let near = self.closest_flow(arc, work, steps);
        self.shift_to(arc, near, work);
    }

    pub(crate) fn tension(&self, arc: ArcId, work: &Work) -> i64
        requires there { arc.0 < length self.now.net.now.arcs }
        requires nodes { work.now.nodes ≡ self.now.net.now.nodes }
        requires potentials { (i : ℕ) → IsWithin ungrounded_most («at» work.now.potentials i) }
        ensures value { result ≡ tension (bare self.now.net.now) («at» work.now.potentials) arc.0 }
        ensures within { IsWithin arg_most result }
    {
        work.potential(self.net.to(arc)) - work.potential(self.net.from(arc))
    }

    /// The flow nearest to the arc's that is on the curve with the tension.
    fn closest_flow<L: Ledger>(&self, arc: ArcId, work: &Work, steps: &mut Steps<L>) -> i64
        requires there { arc.0 < length self.now.net.now.arcs }
        requires ready { IsClampable self.now.net.now (B.lists self.now.bundle.now) work.now arc.0 }
        ensures closest { IsClosestFlow (list_at (B.lists self.now.bundle.now) arc.0) («at» work.now.flows arc.0)
            (tension (bare self.now.net.now) («at» work.now.potentials) arc.0) result }
        ensures no_fewer { steps.old ≤ steps.new }
        ensures count { steps.new ≤ steps.old + B.weight self.now.bundle.now }
    {
        let tension = self.tension(arc, work);
        let (low, high) = self.bundle.range(arc, tension, steps);
        closest(low, high, work.flow(arc))
    }

    /// Gives the arc this flow.
    fn shift_to(&self, arc: ArcId, near: i64, work: &mut Work)
        requires there { arc.0 < length self.now.net.now.arcs }
        requires ready { IsClampable self.now.net.now (B.lists self.now.bundle.now) work.old arc.0 }
        requires small { IsWithin shift_most (near -ℤ «at» work.old.flows arc.0) }
        ensures { IsShifted self.now.net.now arc.0 (near -ℤ «at» work.old.flows arc.0) work.old work.new }
    {
        let flow = work.flow(arc);
        work.set_flow(arc, near);
        add_excess(work, self.net.from(arc), flow - near);
        add_excess(work, self.net.to(arc), near - flow);
    }
}

/// The number between the two ends that is nearest to this one.
fn closest(low: Ext, high: Ext, x: i64) -> i64
    requires { HasNear shift_most low high x }
    ensures { IsClosest low high x result }
{
    match low {
        Ext::At(a) if x < a => a,
        _ => match high {
            Ext::At(b) if b < x => b,
            _ => x,
        },
    }
}

fn add_excess(work: &mut Work, node: NodeId, amount: i64)
    requires there { node.0 < work.old.nodes }
    requires excess { IsWithin word_most (excess work.old node.0) }
    requires amount { IsWithin shift_most amount }
    ensures { work.new ≡ with_scratch work.old node.0 (excess work.old node.0 +ℤ amount) }
{
    let sum = excess(work, node) + amount;
    set_excess(work, node, sum);
}
