// A start from flows and potentials that are given, as those of a net before one of its curves was changed.
//
// Where they were optimal, the tension of each arc but the changed one is between the slopes at its flow. A lane whose tension
// is one of these slopes is tight: its flow can move along the piece of that slope, and no potential has to. So the trees of
// tight lanes keep the potentials as they are, and one pivot for each of the few lanes that are out of order goes on from
// there. A flow that its curve no longer allows moves to the nearest end of the domain. What that brings one node too much, and
// lets another lack, goes over artificial arcs, and comes to an end on the cheapest way between the two.
ghost use Rattle.std.specs.Prelude.{◌≡◌, ◌+◌, ◌≤◌, [], None, length, replicate};
ghost use Rattle.std.specs.List.{All};
ghost use Rattle.painted_search.specs.Fits.{Fits};
ghost use Rattle.net_incidence.specs.WithoutBases.{IsPassable};
ghost use Rattle.quick_start.specs.Drawn.{AreDrawn};
ghost use Rattle.quick_start.specs.Spent.{IsSpent};

use crate::feed::{Ends, Feed};
use crate::pricing::{Slopes, dearest_way};
use crate::setting::ends_of;
use crate::sketch::{Proposal, Sketch};
use crate::tables::{FAR, minus};
use mono_curve::{Monotone, Steps};
use net_incidence::{ArcId, Net, NodeId};
use painted_search::Work;
use std::sync::ledger::Ledger;

impl Sketch {
    /// Draws as `draw` does, but begins with the flows and potentials of the room. Where these were optimal before a few curves
    /// changed, few pivots are left.
    pub fn redraw<C: Monotone, L: Ledger>(
        &mut self,
        net: &Net,
        curves: &[C],
        fuel: u64,
        work: &mut Work,
        steps: &mut Steps<L>,
    ) -> Proposal
        requires passable { IsPassable net.now (length curves.now) }
        requires light { All (λ c. C.weight c ≡ 1) curves.now }
        requires fits { Fits net.now work.old }
        ensures fits { Fits net.now work.new }
        ensures flows { AreDrawn work.new.flows }
        ensures potentials { AreDrawn work.new.potentials }
        ensures labels { work.new.labels ≡ replicate work.new.nodes None }
        ensures walk { work.new.walk ≡ [] }
        ensures scratch { work.new.scratch ≡ work.old.scratch }
        ensures no_fewer { steps.old ≤ steps.new }
        ensures count { steps.new ≤ steps.old + fuel }
    {
        let mut feed = Feed::new(curves, fuel);
        self.resume(net, work, &mut feed, steps);
        let proposal = self.improve(&mut feed, steps);
        self.hand_over(proposal, work);
        proposal
    }

    /// Sets the lanes, the penalty and the tree by the room's flows and potentials.
    fn resume<C: Monotone, L: Ledger>(
        &mut self,
        net: &Net,
        work: &Work,
        feed: &mut Feed<C>,
        steps: &mut Steps<L>,
    )
        ensures { IsSpent feed.old.fuel steps.old feed.new.fuel steps.new }
    {
        self.clear(net);
        self.take_potentials(work);
        self.reopen(net, work, feed, steps);
        self.hang_tight(net, feed, steps);
        if !self.tree.has_artificial_flow() {
            self.prices.threshold = 0;
        }
    }

    /// Lowers the nodes above the border as far as all lanes over it stay in order. In front of a cut a penalty lies between the
    /// potentials of its two sides, and a draw that began so would find its own penalty too low.
    pub(crate) fn close_gap(&mut self, border: i64) {
        let gap = self.gap_at(border);
        for node in 0..self.nodes {
            let potential = self.tree.potentials.at(node);
            if potential >= border {
                self.tree.potentials.set(node, potential.wrapping_sub(gap));
            }
        }
    }

    fn gap_at(&self, border: i64) -> i64 {
        let mut gap = self.prices.penalty;
        for lane in self.lanes.part(0, self.lanes.count) {
            let from = self.tree.potentials.at(lane.from);
            let to = self.tree.potentials.at(lane.to);
            let tension = to.wrapping_sub(from);
            if from < border && to >= border {
                gap = gap.min(tension.wrapping_sub(lane.left));
            } else if from >= border && to < border {
                gap = gap.min(lane.right.wrapping_sub(tension));
            }
        }
        gap.max(0)
    }

    /// Takes the room's potentials, as far as those of an optimal pair can be from one another.
    fn take_potentials(&mut self, work: &Work) {
        let most = dearest_way(self.nodes);
        for i in 0..work.nodes() {
            let potential = work.potential(NodeId(i as u32));
            let taken = potential.max(minus(most)).min(most);
            self.tree.potentials.set(i as u32, taken);
        }
    }

    /// Takes for each arc the flow of its domain that is nearest to the room's, and opens a lane where it can move. The lanes
    /// stand in the order of the arcs: for few pivots no better one pays.
    fn reopen<C: Monotone, L: Ledger>(
        &mut self,
        net: &Net,
        work: &Work,
        feed: &mut Feed<C>,
        steps: &mut Steps<L>,
    )
        ensures { IsSpent feed.old.fuel steps.old feed.new.fuel steps.new }
    {
        let mut count = 0u32;
        let mut met = Slopes::none();
        for j in 0..work.arcs() {
            let arc = j as u32;
            let slopes = self.begin_near(net, arc, work.flow(ArcId(arc)), feed, steps);
            let (from, to) = ends_of(net, arc);
            let tension = self.tree.rise(from, to);
            let is_tight = slopes.low == tension || slopes.high == tension;
            self.tight.set(arc, is_tight);
            if slopes.low > -FAR || slopes.high < FAR {
                self.lanes.open(count, arc, (from, to), slopes);
                count = count.wrapping_add(1);
            }
            met = met.and(slopes);
        }
        self.lanes.count = count;
        self.prices.begin(self.nodes, count, met);
    }

    /// Gives the arc the flow of its domain that is nearest to this one. The result is the slopes there.
    fn begin_near<C: Monotone, L: Ledger>(
        &mut self,
        net: &Net,
        arc: u32,
        flow: i64,
        feed: &mut Feed<C>,
        steps: &mut Steps<L>,
    ) -> Ends
        ensures { IsSpent feed.old.fuel steps.old feed.new.fuel steps.new }
    {
        let slopes = feed.slopes(arc, flow, steps);
        // Beyond the domain both slopes are infinite on the same side.
        if slopes.low < FAR && slopes.high > -FAR {
            self.begin_with(net, arc, flow);
            return slopes;
        }
        let domain = feed.domain(arc, steps);
        let end = if slopes.low < FAR {
            domain.low
        } else {
            domain.high
        };
        self.begin_with(net, arc, end);
        feed.slopes(arc, end, steps)
    }
}
