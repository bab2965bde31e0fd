// The room that the flows of a net have in their domains: how it paints the net, and how much of it a path has.
ghost use Rattle.std.specs.Prelude.{◌≡◌, ℕ, ◌+◌, ◌<◌, ◌≤◌, length, map};
ghost use Rattle.std.specs.List.{All};
ghost use Rattle.theory.specs.Ends.{is_below};
ghost use Rattle.theory.specs.CurveList.{first, last};
ghost use Rattle.theory.specs.Network.{«at», list_at};
ghost use Rattle.theory.specs.Feasible.{IsFeasibleFlow};
ghost use Rattle.theory.specs.Circuit.{step as step_of};
ghost use Rattle.net_incidence.specs.WithoutBases.{IsPassable, without_bases};
ghost use Rattle.painted_search.specs.Fits.{Fits};
ghost use Rattle.painted_search.specs.Path.{IsFreeStep, AllFree};
ghost use Rattle.feasible_flow.specs.Painting.{painting};
ghost use Rattle.feasible_flow.specs.Violations.{movable_most, HasRoom, AreNear};
ghost use Rattle.feasible_flow.specs.UnderWay.{AllHaveRoom};
ghost use Rattle.path_cut.specs.GreatestFlow.{HasReturn};
ghost use Rattle.path_cut.specs.Paintings.{but};
ghost use Rattle.path_cut.specs.Augmenting.{IsFound};

use feasible_flow::{distance, shade};
use mono_curve::{Ext, Monotone, Steps};
use net_incidence::{ArcId, Net, Step};
use painted_search::{Colour, Found, Painter, Work, search};
use std::sync::ledger::Ledger;
use theory::pricing::precedes;

/// The most that is sent along a path at once. No path has more room where none is open.
const ROOM_MOST: u64 = 1 << 61;

/// The curves of a net's arcs, read for their domains. As a painter it lets a flow move within its domain, over other arcs than
/// the last.
#[derive(Drop)]
pub(crate) struct Capacities<'a, C> {
    pub(crate) curves: &'a [C],
    pub(crate) last: ArcId,
}

impl<'a, C: Monotone> Painter for Capacities<'a, C> {
    ghost ready = { λ s flows potentials. (length flows ≡ length s.curves.now) × All (λ c. C.weight c ≡ 1) s.curves.now };

    ghost paint = { λ s flows potentials. but s.last.0 (painting (map C.items s.curves.now) flows) };

    ghost weight = { λ s. 1 };

    fn colour<L: Ledger>(&self, work: &Work, arc: ArcId, steps: &mut Steps<L>) -> Colour {
        if arc == self.last {
            return Colour::Red;
        }
        let (low, high) = self.ends(arc, steps);
        let flow = Ext::At(work.flow(arc));
        shade(precedes(flow, high), precedes(low, flow))
    }
}

impl<'a, C: Monotone> Capacities<'a, C> {
    /// The ends of the arc's domain.
    fn ends<L: Ledger>(&self, arc: ArcId, steps: &mut Steps<L>) -> (Ext, Ext)
        requires there { arc.0 < length self.now.curves.now }
        requires light { All (λ c. C.weight c ≡ 1) self.now.curves.now }
        ensures low { result.0 ≡ first (list_at (map C.items self.now.curves.now) arc.0) }
        ensures high { result.1 ≡ last (list_at (map C.items self.now.curves.now) arc.0) }
        ensures no_fewer { steps.old ≤ steps.new }
        ensures count { steps.new ≤ steps.old + 1 }
    {
        self.curves[arc.0 as usize].domain(steps)
    }

    /// Makes the walk a shortest path from the start to the goal that has room, and says how much. None where a cut is full: it is
    /// the reached set then.
    pub(crate) fn find_room<L: Ledger>(
        &self,
        net: &Net,
        work: &mut Work,
        steps: &mut Steps<L>,
    ) -> Option<u64>
        requires passable { IsPassable net.now (length self.now.curves.now) }
        requires light { All (λ c. C.weight c ≡ 1) self.now.curves.now }
        requires fits { Fits net.now work.old }
        requires last { self.now.last.0 + 1 ≡ length net.now.arcs }
        requires returns { HasReturn (without_bases net.now (map C.items self.now.curves.now)) }
        requires feasible { IsFeasibleFlow 1 (without_bases net.now (map C.items self.now.curves.now)) work.old.flows }
        requires near { AreNear movable_most work.old.flows }
        ensures found { let lists = map C.items self.now.curves.now in IsFound (without_bases net.now lists) lists work.new result }
        ensures flows { work.new.flows ≡ work.old.flows }
        ensures potentials { work.new.potentials ≡ work.old.potentials }
        ensures fits { Fits net.now work.new }
        ensures no_fewer { steps.old ≤ steps.new }
    {
        let (start, goal) = (net.to(self.last), net.from(self.last));
        match search(net, self, start, goal, work, steps) {
            Found::Path => Some(self.room_along(work, steps)),
            Found::Cut => None,
        }
    }

    /// The least room of the steps of the walk.
    fn room_along<L: Ledger>(&self, work: &Work, steps: &mut Steps<L>) -> u64
        requires one_each { length work.now.flows ≡ length self.now.curves.now }
        requires light { All (λ c. C.weight c ≡ 1) self.now.curves.now }
        requires near { AreNear movable_most work.now.flows }
        requires there { (k : ℕ) → k < length work.now.walk → (step_of work.now.walk k).arc.0 < length self.now.curves.now }
        requires free { AllFree (painting (map C.items self.now.curves.now) work.now.flows) work.now.walk }
        ensures some { 1 ≤ result }
        ensures most { result ≤ movable_most }
        ensures room { AllHaveRoom (map C.items self.now.curves.now) work.now.flows work.now.walk result }
        ensures no_fewer { steps.old ≤ steps.new }
    {
        let mut room = ROOM_MOST;
        for k in 0..work.walk_len() {
            room = room.min(self.room_of(work.walk_step(k), work, steps));
        }
        room
    }

    /// How far the flow of a free step's arc may move in its direction.
    fn room_of<L: Ledger>(&self, step: Step, work: &Work, steps: &mut Steps<L>) -> u64
        requires there { step.arc.0 < length self.now.curves.now }
        requires one_each { length work.now.flows ≡ length self.now.curves.now }
        requires light { All (λ c. C.weight c ≡ 1) self.now.curves.now }
        requires near { AreNear movable_most work.now.flows }
        requires free { IsFreeStep (painting (map C.items self.now.curves.now) work.now.flows) step }
        ensures some { 1 ≤ result }
        ensures room { (amount : ℕ) → amount ≤ result
            → HasRoom (list_at (map C.items self.now.curves.now) step.arc.0) («at» work.now.flows step.arc.0) step.forward amount }
        ensures no_fewer { steps.old ≤ steps.new }
    {
        let (low, high) = self.ends(step.arc, steps);
        let flow = work.flow(step.arc);
        if step.forward {
            distance(high, flow)
        } else {
            distance(low, flow)
        }
    }
}
