// Routes from every surplus to what other nodes lack, until no surplus is left or a negative cut shows that none can go.
ghost use Rattle.std.specs.Prelude.{◌≡◌, ℕ, ◌+◌, ◌*◌, ◌<◌, ◌≤◌, pos, ◌+ℤ◌, ◌-ℤ◌, neg_ℤ, ◌≤ℤ◌, ◌<ℤ◌, IsTrue, length};
ghost use Rattle.theory.specs.Limits.{IsWithin, arg_most};
ghost use Rattle.theory.specs.Network.{«at», list_at};
ghost use Rattle.theory.specs.Readings.{IsUnder, IsOver};
ghost use Rattle.theory.specs.Conserved.{IsConserved};
ghost use Rattle.theory.specs.Cut.{IsNegativeCut, holds};
ghost use Rattle.painted_search.specs.Writes.{with_flow, with_potential, with_scratch};
ghost use Rattle.net_incidence.specs.Graph.{bare};
ghost use Rattle.net_incidence.specs.WithoutBases.{without_bases};
ghost use Rattle.kilter_solver.specs.Ranges.{reach_most, far_most, key_most};
ghost use Rattle.kilter_solver.specs.Along.{rise, IsPairAlong, moved_by, moved};
ghost use Rattle.kilter_solver.specs.Excess.{excess, surpluses};
ghost use Rattle.kilter_solver.specs.Ready.{Ready};
ghost use Rattle.kilter_solver.specs.Spread.{key, is_near, IsFound, IsSameState};
ghost use Rattle.kilter_solver.specs.Routing.{fallen, fallen_at, IsFallenBelow, IsMovable, IsRoute, HasRoomBack, IsRoomOf, IsPushed, IsBalancing, IsSent, Routes, IsSafe, flow_reach};

use crate::bundle::Bundle;
use crate::spread::Routing;
use crate::words::{excess, key, set_excess};
use mono_curve::Steps;
use net_incidence::Net;
use painted_search::Work;
use std::sync::ledger::Ledger;
use theory::{Ext, NodeId, Step};

/// Whether all surpluses found their way.
#[derive(Clone, Copy, PartialEq, Eq, Debug)]
pub enum Routed {
    Done,
    /// The marked nodes are a negative cut.
    Cut,
}

/// Sends every surplus over cheapest routes, as much at a time as each has room for. It takes no memory.
pub fn route<B: Bundle, L: Ledger>(
    net: &Net,
    bundle: &B,
    work: &mut Work,
    steps: &mut Steps<L>,
) -> Routed
    requires balancing { IsBalancing net.now (B.lists bundle.now) work.old }
    requires safe { IsSafe net.now work.old }
    ensures balancing { IsBalancing net.now (B.lists bundle.now) work.new }
    ensures conserved { result ≡ Routed.Done → IsConserved (without_bases net.now (B.lists bundle.now)) («at» work.new.flows) }
    ensures cut { result ≡ Routed.Cut → IsNegativeCut (without_bases net.now (B.lists bundle.now)) work.new.reached }
    ensures routes { Routes net.now work.old work.new }
    ensures no_fewer { steps.old ≤ steps.new }
    ensures count { steps.new ≤ steps.old
        + length net.now.arcs * B.weight bundle.now * (3 * surpluses net.now.nodes (excess work.old) + 2) }
{
    let mut i = 0;
    while i < net.nodes() {
        let node = NodeId(i as u32);
        if excess(work, node) <= 0 {
            i += 1;
            continue;
        }
        let routing = Routing { net, bundle };
        match routing.send(node, work, steps) {
            Routed::Cut => return Routed::Cut,
            Routed::Done => {}
        }
    }
    Routed::Done
}

impl<B: Bundle> Routing<'_, B> {
    /// Sends what it can of the node's surplus over one route.
    fn send<L: Ledger>(&self, source: NodeId, work: &mut Work, steps: &mut Steps<L>) -> Routed
        requires balancing { IsBalancing self.now.net.now (B.lists self.now.bundle.now) work.old }
        requires ready { Ready self.now.net.now (B.lists self.now.bundle.now) work.old }
        requires few { excess work.old source.0 ≤ℤ pos far_most }
        requires there { source.0 < self.now.net.now.nodes }
        requires surplus { pos 0 <ℤ excess work.old source.0 }
        ensures balancing { IsBalancing self.now.net.now (B.lists self.now.bundle.now) work.new }
        ensures sent { result ≡ Routed.Done → IsSent self.now.net.now work.old work.new }
        ensures cut { result ≡ Routed.Cut → IsNegativeCut (without_bases self.now.net.now (B.lists self.now.bundle.now)) work.new.reached }
        ensures same { result ≡ Routed.Cut → IsSameState work.old work.new }
        ensures no_fewer { steps.old ≤ steps.new }
        ensures search_count { result ≡ Routed.Cut → steps.new ≤ steps.old + 2 * length self.now.net.now.arcs * B.weight self.now.bundle.now }
        ensures count { steps.new ≤ steps.old + 3 * length self.now.net.now.arcs * B.weight self.now.bundle.now }
    {
        match self.spread(source, work, steps) {
            None => Routed::Cut,
            Some(target) => {
                self.serve(source, target, work, steps);
                Routed::Done
            }
        }
    }

    /// Sends over the route that was found what the source has, the target lacks and all arcs have room for.
    fn serve<L: Ledger>(
        &self,
        source: NodeId,
        target: NodeId,
        work: &mut Work,
        steps: &mut Steps<L>,
    )
        requires balancing { IsBalancing self.now.net.now (B.lists self.now.bundle.now) work.old }
        requires ready { Ready self.now.net.now (B.lists self.now.bundle.now) work.old }
        requires few { excess work.old source.0 ≤ℤ pos far_most }
        requires found { IsFound self.now.net.now (B.lists self.now.bundle.now) source.0 work.old target.0 }
        requires there { source.0 < self.now.net.now.nodes }
        requires surplus { pos 0 <ℤ excess work.old source.0 }
        ensures balancing { IsBalancing self.now.net.now (B.lists self.now.bundle.now) work.new }
        ensures sent { IsSent self.now.net.now work.old work.new }
        ensures no_fewer { steps.old ≤ steps.new }
        ensures count { steps.new ≤ steps.old + length self.now.net.now.arcs * B.weight self.now.bundle.now }
    {
        lower(work, target);
        let most = wanted(work, source, target);
        let amount = self.room_along(source, target, most, work, steps);
        self.push(source, target, amount, work);
        give(work, source, amount);
        take(work, target, amount);
    }

    /// The most of the amount that every arc of the route has room for.
    fn room_along<L: Ledger>(
        &self,
        source: NodeId,
        target: NodeId,
        most: i64,
        work: &Work,
        steps: &mut Steps<L>,
    ) -> i64
        requires ready { IsMovable self.now.net.now (B.lists self.now.bundle.now) work.now }
        requires route { IsRoute self.now.net.now (B.lists self.now.bundle.now) source.0 target.0 work.now }
        requires there { target.0 < self.now.net.now.nodes }
        requires some { pos 1 ≤ℤ most }
        requires small { most ≤ℤ pos far_most }
        ensures some { pos 1 ≤ℤ result }
        ensures most { result ≤ℤ most }
        ensures room { HasRoomBack self.now.net.now (B.lists self.now.bundle.now) source.0 target.0 work.now result }
        ensures no_fewer { steps.old ≤ steps.new }
        ensures count { steps.new ≤ steps.old + length self.now.net.now.arcs * B.weight self.now.bundle.now }
    {
        let mut room = most;
        let mut node = target;
        for _ in 0..self.net.nodes() {
            if node.0 == source.0 {
                return room;
            }
            match work.label(node) {
                Some(step) => {
                    room = self.room_of(step, room, work, steps);
                    node = self.net.begin(step);
                }
                None => unreachable!(),
            }
        }
        room
    }

    /// The most of the amount that the step's arc has room for at its tension.
    fn room_of<L: Ledger>(&self, step: Step, most: i64, work: &Work, steps: &mut Steps<L>) -> i64
        requires ready { IsMovable self.now.net.now (B.lists self.now.bundle.now) work.now }
        requires there { step.arc.0 < length self.now.net.now.arcs }
        requires next { IsPairAlong (list_at (B.lists self.now.bundle.now) step.arc.0) step.forward (moved step.forward («at» work.now.flows step.arc.0))
            (rise (bare self.now.net.now) («at» work.now.potentials) step) }
        requires some { pos 1 ≤ℤ most }
        requires small { most ≤ℤ pos far_most }
        ensures some { pos 1 ≤ℤ result }
        ensures most { result ≤ℤ most }
        ensures room { IsRoomOf self.now.net.now (B.lists self.now.bundle.now) work.now result step }
        ensures no_fewer { steps.old ≤ steps.new }
        ensures count { steps.new ≤ steps.old + B.weight self.now.bundle.now }
    {
        let tension = self.tension(step.arc, work);
        let (low, high) = self.bundle.range(step.arc, tension, steps);
        let flow = work.flow(step.arc);
        if step.forward {
            room_up(high, flow, most)
        } else {
            room_down(low, flow, most)
        }
    }

    /// Moves the amount along the labels, from the target back to the source.
    fn push(&self, source: NodeId, target: NodeId, amount: i64, work: &mut Work)
        requires ready { IsMovable self.now.net.now (B.lists self.now.bundle.now) work.old }
        requires route { IsRoute self.now.net.now (B.lists self.now.bundle.now) source.0 target.0 work.old }
        requires there { target.0 < self.now.net.now.nodes }
        requires some { pos 0 ≤ℤ amount }
        requires small { amount ≤ℤ pos far_most }
        requires room { HasRoomBack self.now.net.now (B.lists self.now.bundle.now) source.0 target.0 work.old amount }
        ensures { IsPushed self.now.net.now (B.lists self.now.bundle.now) amount source.0 target.0 work.old work.new }
    {
        let mut node = target;
        for _ in 0..self.net.nodes() {
            if node.0 == source.0 {
                return;
            }
            match work.label(node) {
                Some(step) => {
                    move_by(work, step, amount);
                    node = self.net.begin(step);
                }
                None => unreachable!(),
            }
        }
    }
}

/// What the source has to give or what the target lacks, whichever is less.
fn wanted(work: &Work, source: NodeId, target: NodeId) -> i64
    requires source { source.0 < work.now.nodes }
    requires target { target.0 < work.now.nodes }
    requires surplus { pos 0 <ℤ excess work.now source.0 }
    requires lacks { excess work.now target.0 <ℤ pos 0 }
    ensures some { pos 1 ≤ℤ result }
    ensures surplus { result ≤ℤ excess work.now source.0 }
    ensures lack { excess work.now target.0 ≤ℤ neg_ℤ result }
{
    let (surplus, lacking) = (excess(work, source), excess(work, target));
    if surplus + lacking <= 0 {
        surplus
    } else {
        -lacking
    }
}

fn room_up(high: Ext, flow: i64, most: i64) -> i64
    requires flow { IsWithin arg_most flow }
    requires some { pos 1 ≤ℤ most }
    requires small { most ≤ℤ pos far_most }
    requires next { IsOver high (flow +ℤ pos 1) }
    ensures some { pos 1 ≤ℤ result }
    ensures most { result ≤ℤ most }
    ensures room { IsOver high (flow +ℤ result) }
{
    match high {
        Ext::At(end) if end < flow + most => end - flow,
        _ => most,
    }
}

fn room_down(low: Ext, flow: i64, most: i64) -> i64
    requires flow { IsWithin arg_most flow }
    requires some { pos 1 ≤ℤ most }
    requires small { most ≤ℤ pos far_most }
    requires next { IsUnder low (flow -ℤ pos 1) }
    ensures some { pos 1 ≤ℤ result }
    ensures most { result ≤ℤ most }
    ensures room { IsUnder low (flow -ℤ result) }
{
    match low {
        Ext::At(end) if flow - most < end => flow - end,
        _ => most,
    }
}

/// Lets settled nodes fall to their levels less the target's key.
fn lower(work: &mut Work, target: NodeId)
    requires there { target.0 < work.old.nodes }
    requires potentials { (i : ℕ) → IsWithin reach_most («at» work.old.potentials i) }
    requires keys { (i : ℕ) → IsTrue (is_near work.old i) → IsWithin key_most (key work.old i) }
    requires near { IsTrue (is_near work.old target.0) }
    ensures { IsFallenBelow work.old.nodes (key work.old target.0) work.old work.new }
{
    let bound = key(work, target);
    for i in 0..work.nodes() {
        lower_one(work, NodeId(i as u32), bound);
    }
}

fn lower_one(work: &mut Work, node: NodeId, bound: i64)
    requires there { node.0 < work.old.nodes }
    requires potential { IsWithin reach_most («at» work.old.potentials node.0) }
    requires key { IsTrue (holds work.old.reached node.0) → IsWithin key_most (key work.old node.0) }
    requires bound { IsWithin key_most bound }
    ensures { work.new ≡ with_potential work.old node.0 (fallen_at work.old bound node.0) }
{
    let potential = work.potential(node);
    work.set_potential(
        node,
        fallen(work.reached(node), potential, key(work, node), bound),
    );
}

fn fallen(settled: bool, potential: i64, key: i64, bound: i64) -> i64
    requires potential { IsWithin reach_most potential }
    requires key { IsTrue settled → IsWithin key_most key }
    requires bound { IsWithin key_most bound }
    ensures { result ≡ fallen settled potential key bound }
{
    if settled {
        potential + key - bound
    } else {
        potential
    }
}

/// Moves the amount in the step's direction.
fn move_by(work: &mut Work, step: Step, amount: i64)
    requires there { step.arc.0 < work.old.arcs }
    requires flow { IsWithin flow_reach («at» work.old.flows step.arc.0) }
    requires amount { IsWithin far_most amount }
    ensures { work.new ≡ with_flow work.old step.arc.0 (moved_by amount step.forward («at» work.old.flows step.arc.0)) }
{
    let flow = work.flow(step.arc);
    work.set_flow(step.arc, moved_by(step.forward, flow, amount));
}

fn moved_by(forward: bool, flow: i64, amount: i64) -> i64
    requires flow { IsWithin flow_reach flow }
    requires amount { IsWithin far_most amount }
    ensures { result ≡ moved_by amount forward flow }
{
    if forward {
        flow + amount
    } else {
        flow - amount
    }
}

fn give(work: &mut Work, node: NodeId, amount: i64)
    requires there { node.0 < work.old.nodes }
    requires some { pos 0 ≤ℤ amount }
    requires surplus { amount ≤ℤ excess work.old node.0 }
    ensures { work.new ≡ with_scratch work.old node.0 (excess work.old node.0 -ℤ amount) }
{
    let left = excess(work, node) - amount;
    set_excess(work, node, left);
}

fn take(work: &mut Work, node: NodeId, amount: i64)
    requires there { node.0 < work.old.nodes }
    requires some { pos 0 ≤ℤ amount }
    requires lacks { excess work.old node.0 ≤ℤ neg_ℤ amount }
    ensures { work.new ≡ with_scratch work.old node.0 (excess work.old node.0 +ℤ amount) }
{
    let had = excess(work, node) + amount;
    set_excess(work, node, had);
}
