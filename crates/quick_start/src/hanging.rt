// Where the nodes hang at the start. One without excess hangs on the cheapest way to a node that lacks flow, where there
// is such a way below the penalty: that saves a long pivot for each of them on paths, rings and grids. A way costs what its
// slopes add up to beyond the potentials that the nodes have already; a draw from nothing begins with none.
ghost use Rattle.quick_start.specs.Spent.{IsSpent};

use crate::feed::Feed;
use crate::sketch::Sketch;
use crate::tables::{FAR, NONE, minus};
use crate::tree::{Bond, seen_from};
use mono_curve::{Monotone, Steps};
use net_incidence::{Net, NodeId};
use std::sync::ledger::Ledger;

/// The step from a node towards the root of its tree.
#[derive(Clone, Copy)]
pub(crate) struct Way {
    pub(crate) parent: u32,
    pub(crate) lane: u32,
}

const NOWHERE: Way = Way {
    parent: NONE,
    lane: NONE,
};

/// A lane over which flow can come from a neighbour, and what it costs beyond the potentials: `FAR` where none can come.
struct Approach {
    from: u32,
    lane: u32,
    length: i64,
}

impl Sketch {
    /// Hangs all nodes on the root or on one another.
    pub(crate) fn hang<C: Monotone, L: Ledger>(
        &mut self,
        net: &Net,
        feed: &mut Feed<C>,
        steps: &mut Steps<L>,
    )
        ensures { IsSpent feed.old.fuel steps.old feed.new.fuel steps.new }
    {
        self.scatter();
        let reached = self.spread(net, self.prices.penalty);
        let count = self.keep_cheap(reached);
        self.plant_all(count, feed, steps);
    }

    /// Hangs the nodes as `hang` does, and each further one on a node that it comes to by tight lanes.
    pub(crate) fn hang_tight<C: Monotone, L: Ledger>(
        &mut self,
        net: &Net,
        feed: &mut Feed<C>,
        steps: &mut Steps<L>,
    )
        ensures { IsSpent feed.old.fuel steps.old feed.new.fuel steps.new }
    {
        self.scatter();
        let reached = self.spread(net, 1);
        let kept = self.keep_cheap(reached);
        let count = self.join_rest(net, kept);
        self.plant_all(count, feed, steps);
    }

    /// Plants the nodes without a way, and then the ordered ones, each on its way.
    fn plant_all<C: Monotone, L: Ledger>(
        &mut self,
        count: u32,
        feed: &mut Feed<C>,
        steps: &mut Steps<L>,
    )
        ensures { IsSpent feed.old.fuel steps.old feed.new.fuel steps.new }
    {
        for node in (0..self.nodes).rev() {
            if self.ways.at(node).parent == NONE {
                self.hang_on_root(node);
            }
        }
        for k in 0..count {
            let node = self.order.at(k);
            self.hang_on_way(node, feed, steps);
        }
        self.tree.measure();
    }

    /// Begins with the nodes that lack flow, and no way.
    fn scatter(&mut self) {
        self.waiting.clear(self.nodes, FAR);
        for node in 0..self.nodes {
            self.ways.set(node, NOWHERE);
            self.settled.set(node, false);
            if self.excess.at(node) < 0 {
                self.waiting.bring(node, 0);
            }
        }
    }

    /// Goes out from all nodes that lack flow, backwards over lanes to nodes without excess, the nearest first. The nodes
    /// that are reached stand in the order, and the result is how many they are. Where an excess is met, the penalty
    /// begins at twice that distance: below it no flow would come over, and node after node would be hung anew. Then it is
    /// no less than the given one.
    fn spread(&mut self, net: &Net, least: i64) -> u32 {
        let mut count = 0u32;
        let mut limit = FAR;
        for _ in 0..self.nodes {
            let Some(node) = self.waiting.pop() else {
                break;
            };
            if self.waiting.distance(node) >= limit {
                break;
            }
            if self.ways.at(node).parent != NONE {
                self.order.set(count, node);
                count = count.wrapping_add(1);
            }
            self.settled.set(node, true);
            let met = self.reach_from(net, node).wrapping_mul(2);
            limit = limit.min(met.max(least));
        }
        if limit < FAR {
            self.prices.begin_at(limit);
        }
        count
    }

    /// Offers the node's neighbours the way over it. The result is the least distance of one that has an excess.
    fn reach_from(&mut self, net: &Net, node: u32) -> i64 {
        let mut met = FAR;
        if node as usize >= net.nodes() {
            return met;
        }
        let distance = self.waiting.distance(node);
        for step in net.steps(NodeId(node)) {
            let Approach { from, lane, length } = self.approach(step.arc.0, node);
            if length >= FAR {
                continue;
            }
            let further = distance.wrapping_add(length);
            let excess = self.excess.at(from);
            if excess > 0 {
                met = met.min(further);
            }
            // Negative lengths would let a settled node be reached again.
            let is_open = excess == 0 && !self.settled.at(from);
            if is_open && further < self.waiting.distance(from) {
                self.ways.set(from, Way { parent: node, lane });
                self.waiting.bring(from, further);
            }
        }
        met
    }

    /// The lane of the arc as a way to the node.
    fn approach(&self, arc: u32, node: u32) -> Approach {
        let lane = self.lanes.number(arc);
        let ends = self.lanes.lane(lane);
        let rise = self.tree.rise(ends.from, ends.to);
        let (from, slope, rise) = if ends.to == node {
            (ends.from, ends.right, rise)
        } else {
            (ends.to, minus(ends.left), minus(rise))
        };
        let length = if lane == NONE || slope >= FAR {
            FAR
        } else {
            slope.wrapping_sub(rise)
        };
        Approach { from, lane, length }
    }

    /// Keeps the ways that cost less than the penalty, and leaves the nodes settled that have one or lack flow. The result is how
    /// many nodes stay in the order.
    fn keep_cheap(&mut self, reached: u32) -> u32 {
        self.forget_offers();
        let mut kept = 0u32;
        for k in 0..reached {
            let node = self.order.at(k);
            // Over a lane of negative length a node may be nearer than its parent, whose own way is too dear.
            let parent = self.ways.at(node).parent;
            if self.waiting.distance(node) < self.prices.penalty && self.settled.at(parent) {
                self.settled.set(node, true);
                self.order.set(kept, node);
                kept = kept.wrapping_add(1);
            } else {
                self.ways.set(node, NOWHERE);
            }
        }
        kept
    }

    /// Forgets the ways of nodes that were not settled, and leaves those alone settled that lack flow.
    fn forget_offers(&mut self) {
        for node in 0..self.nodes {
            if !self.settled.at(node) {
                self.ways.set(node, NOWHERE);
            }
            self.settled.set(node, self.excess.at(node) < 0);
        }
    }

    // ---- tight lanes

    /// Gives each node without excess that has no way one over tight lanes, as long as it comes so to another node. The result is
    /// how many nodes stand in the order then.
    fn join_rest(&mut self, net: &Net, kept: u32) -> u32 {
        let mut count = kept;
        for node in 0..self.nodes {
            if !self.settled.at(node) {
                self.settled.set(node, true);
                count = self.join_all(net, node, count);
            }
        }
        count
    }

    /// Joins to the node all that come to it by tight lanes.
    fn join_all(&mut self, net: &Net, node: u32, count: u32) -> u32 {
        let mut end = self.join_to(net, node, count);
        for k in count..self.nodes {
            if k >= end {
                break;
            }
            let next = self.order.at(k);
            end = self.join_to(net, next, end);
        }
        end
    }

    /// Joins to the node its neighbours over tight lanes.
    fn join_to(&mut self, net: &Net, node: u32, count: u32) -> u32 {
        let mut count = count;
        if node as usize >= net.nodes() {
            return count;
        }
        for step in net.steps(NodeId(node)) {
            if !self.tight.at(step.arc.0) {
                continue;
            }
            let Approach { from, lane, length } = self.approach(step.arc.0, node);
            if length == 0 && self.excess.at(from) == 0 && !self.settled.at(from) {
                self.ways.set(from, Way { parent: node, lane });
                self.settled.set(from, true);
                self.order.set(count, from);
                count = count.wrapping_add(1);
            }
        }
        count
    }

    /// Hangs the node on the one that its way leads to, on the piece whose slope is the length of that way.
    fn hang_on_way<C: Monotone, L: Ledger>(
        &mut self,
        node: u32,
        feed: &mut Feed<C>,
        steps: &mut Steps<L>,
    )
        ensures { IsSpent feed.old.fuel steps.old feed.new.fuel steps.new }
    {
        let Way { parent, lane } = self.ways.at(node);
        let ends = self.lanes.lane(lane);
        let arc = self.lanes.arc(lane);
        let flow = self.lanes.flows.at(arc);
        let up = ends.from == node;
        let slope = if up { ends.right } else { ends.left };
        let piece = feed.range(arc, slope, steps);
        let rise = if up { minus(slope) } else { slope };
        let potential = self.tree.potentials.at(parent).wrapping_add(rise);
        let twig = seen_from(parent, flow, piece, up);
        self.tree.plant(node, twig, Bond { lane, up }, potential);
        self.lanes.hold(lane);
    }
}
