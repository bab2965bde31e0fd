// The start: the flow of each arc at the cheapest point of its curve, and a star of artificial arcs that take what a node
// has too much and bring what it lacks.
ghost use Rattle.quick_start.specs.Spent.{IsSpent};

use crate::feed::{Ends, Feed};
use crate::pricing::{Slopes, root_of};
use crate::sketch::Sketch;
use crate::tables::{FAR, NONE, minus};
use crate::tree::{Bond, Twig};
use mono_curve::{Monotone, Steps};
use net_incidence::{ArcId, Net};
use std::sync::ledger::Ledger;

impl Sketch {
    /// Sets the flows, the lanes, the penalty and the tree.
    pub(crate) fn set_out<C: Monotone, L: Ledger>(
        &mut self,
        net: &Net,
        feed: &mut Feed<C>,
        steps: &mut Steps<L>,
    )
        ensures { IsSpent feed.old.fuel steps.old feed.new.fuel steps.new }
    {
        self.clear(net);
        let count = self.gather(net, feed, steps);
        self.open_lanes(net, count, feed, steps);
        self.hang(net, feed, steps);
    }

    /// Nothing is known of what the tables held before.
    pub(crate) fn clear(&mut self, net: &Net) {
        let nodes = net.nodes() as u32;
        self.nodes = nodes;
        self.tree.clear(nodes);
        for node in 0..nodes {
            self.excess.set(node, 0);
            self.tree.potentials.set(node, 0);
        }
    }

    /// Takes the cheapest flow of each arc, and lists the arcs whose flow can move. The result is how many these are.
    fn gather<C: Monotone, L: Ledger>(
        &mut self,
        net: &Net,
        feed: &mut Feed<C>,
        steps: &mut Steps<L>,
    ) -> u32
        ensures { IsSpent feed.old.fuel steps.old feed.new.fuel steps.new }
    {
        let mut count = 0u32;
        for j in 0..net.arcs() {
            let arc = j as u32;
            let domain = feed.domain(arc, steps);
            let mut flow = nearest_zero(domain);
            if domain.low < domain.high {
                let cheapest = nearest_zero(feed.range(arc, 0, steps));
                if -FAR < cheapest && cheapest < FAR {
                    flow = cheapest;
                }
                self.movable.set(count, arc);
                count = count.wrapping_add(1);
            }
            self.begin_with(net, arc, flow);
        }
        count
    }

    /// Gives the arc its first flow, and no lane.
    pub(crate) fn begin_with(&mut self, net: &Net, arc: u32, flow: i64) {
        self.lanes.leave_out(arc);
        self.lanes.flows.set(arc, flow);
        let (from, to) = ends_of(net, arc);
        self.add_excess(to, flow);
        self.add_excess(from, minus(flow));
    }

    fn add_excess(&mut self, node: u32, flow: i64) {
        let excess = self.excess.at(node).wrapping_add(flow);
        self.excess.set(node, excess);
    }

    /// Opens a lane for each listed arc, with neighbours about as far apart in the list as the root of its length. The
    /// first penalty is the mean of the slopes.
    fn open_lanes<C: Monotone, L: Ledger>(
        &mut self,
        net: &Net,
        count: u32,
        feed: &mut Feed<C>,
        steps: &mut Steps<L>,
    )
        ensures { IsSpent feed.old.fuel steps.old feed.new.fuel steps.new }
    {
        let stride = root_of(count).wrapping_add(1);
        let (mut place, mut begin) = (0u32, 0u32);
        let mut met = Slopes::none();
        self.lanes.count = count;
        for lane in 0..count {
            let arc = self.movable.at(place);
            let slopes = feed.slopes(arc, self.lanes.flows.at(arc), steps);
            self.lanes.open(lane, arc, ends_of(net, arc), slopes);
            met = met.and(slopes);
            place = place.wrapping_add(stride);
            if place >= count {
                begin = begin.wrapping_add(1);
                place = begin;
            }
        }
        self.prices.begin(self.nodes, count, met);
    }

    /// Hangs the node on the root, by an artificial arc that takes its excess there or brings what it lacks. It costs what the
    /// potential says, and the penalty in the second case.
    pub(crate) fn hang_on_root(&mut self, node: u32) {
        let excess = self.excess.at(node);
        let up = excess >= 0;
        let (low, high) = if up { (0, FAR) } else { (-FAR, 0) };
        let twig = Twig {
            parent: self.nodes,
            size: 1,
            flow: excess,
            low,
            high,
        };
        let given = self.tree.potentials.at(node);
        let lift = if up { 0 } else { self.prices.penalty };
        let potential = given.wrapping_add(lift);
        self.tree
            .plant(node, twig, Bond { lane: NONE, up }, potential);
    }
}

fn nearest_zero(ends: Ends) -> i64 {
    if ends.low > 0 {
        ends.low
    } else if ends.high < 0 {
        ends.high
    } else {
        0
    }
}

/// The numbers of the nodes that an arc leaves and enters.
pub(crate) fn ends_of(net: &Net, arc: u32) -> (u32, u32) {
    if (arc as usize) < net.arcs() {
        (net.from(ArcId(arc)).0, net.to(ArcId(arc)).0)
    } else {
        (0, 0)
    }
}
