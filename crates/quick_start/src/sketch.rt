// The quick start: a primal network simplex directly over the curves, which nothing has to believe.
//
// A convex piecewise-linear cost on an arc is the same as one linear arc for each of its pieces. So an optimal pair is
// what the network simplex finds (Dantzig; Ahuja, Magnanti and Orlin, Network Flows, chapter 11), and here it runs
// without those parallel arcs: an arc of the spanning tree stands on one piece of its curve, whose slope is its tension,
// and any other arc stands at a flow with a slope on its left and one on its right. It is in order as long as its tension
// is between them. Otherwise it enters: its flow moves along the curve as far as its tension allows, however many pieces
// that passes, round the cycle that it closes with the tree, until a tree arc comes to the end of its piece and leaves.
//
// Each node keeps room for flow to the root (Cunningham's strongly feasible trees): so a pivot without a move, of which
// there are many, never leads to a tree that was there before. Among the arcs that stop a cycle the last one leaves, seen
// from where its two sides meet, and at a breakpoint the entering arc takes the piece that has room to the root.
//
// At the start artificial arcs to a root of its own take what the nodes have too much, and bring what they lack. They
// cost a penalty, which begins low and doubles only while they have flow. If they keep flow at the greatest penalty, the
// potentials fall into two heaps, and the nodes of the lower one have more flow than can leave them: a negative cut. On a
// cycle whose flow has no end the entering arc is banned, and the rest goes on until the flow is feasible.
//
// No clause speaks of any of this. What holds of every run, also of one with a fault in it, is that it ends, that each
// reading is paid by fuel, and that the numbers written are not too large.
ghost use Rattle.std.specs.Prelude.{◌≡◌, ◌+◌, ◌≤◌, [], None, length, replicate};
ghost use Rattle.std.specs.List.{All};
ghost use Rattle.painted_search.specs.Fits.{Fits};
ghost use Rattle.net_incidence.specs.WithoutBases.{IsPassable};
ghost use Rattle.quick_start.specs.Drawn.{AreDrawn, IsSameRoom};
ghost use Rattle.quick_start.specs.Spent.{IsSpent};

use crate::feed::Feed;
use crate::hanging::Way;
use crate::lanes::Lanes;
use crate::pricing::Prices;
use crate::tables::{NONE, Table};
use crate::tree::Tree;
use crate::waiting::Waiting;
use crate::writing::{mark_low, write_flows, write_potentials};
use mono_curve::{Monotone, Steps};
use net_incidence::Net;
use painted_search::Work;
use std::alloc::{AllocError, Global};
use std::sync::ledger::Ledger;

/// What was drawn. Nothing of it is proved.
#[derive(Clone, Copy, PartialEq, Eq, Debug)]
pub enum Proposal {
    /// The flows and the potentials of the room may be an optimal pair.
    Pair,
    /// The marked nodes of the room may be a negative cut.
    Cut,
    /// Neither, but the flows may be feasible: the model has no bound, or the fuel ended.
    Flow,
}

/// The room of the simplex.
#[derive(Drop)]
pub struct Sketch {
    // How many nodes the net has; the tree's root has this number.
    pub(crate) nodes: u32,
    pub(crate) lanes: Lanes,
    pub(crate) tree: Tree,
    pub(crate) prices: Prices,
    // What the start needs: arcs whose flow can move, what each node has too much, and how it is reached.
    pub(crate) movable: Table<u32>,
    pub(crate) excess: Table<i64>,
    pub(crate) waiting: Waiting,
    pub(crate) settled: Table<bool>,
    pub(crate) ways: Table<Way>,
    pub(crate) order: Table<u32>,
    // Whether the flow of an arc can move without a change of potentials.
    pub(crate) tight: Table<bool>,
}

/// The least fuel that a pivot begins with.
const PIVOT_FUEL: u64 = 8;

impl Sketch {
    /// Room for nets with at most this many nodes and arcs. The draw itself takes no memory.
    pub fn take(alloc: Global, nodes: usize, arcs: usize) -> Result<Sketch, AllocError> {
        let nowhere = Way {
            parent: NONE,
            lane: NONE,
        };
        Ok(Sketch {
            nodes: 0,
            lanes: Lanes::take(alloc, arcs)?,
            tree: Tree::take(alloc, nodes)?,
            prices: Prices::new(),
            movable: Table::take(alloc, arcs, 0)?,
            excess: Table::take(alloc, nodes, 0)?,
            waiting: Waiting::take(alloc, nodes)?,
            settled: Table::take(alloc, nodes, false)?,
            ways: Table::take(alloc, nodes, nowhere)?,
            order: Table::take(alloc, nodes, 0)?,
            tight: Table::take(alloc, arcs, false)?,
        })
    }

    /// Draws flows and potentials, and marks the nodes of low potential. All else of the room is cleared, but for its
    /// scratch. What the proposal says is to be tested: no clause promises it.
    pub fn draw<C: Monotone, L: Ledger>(
        &mut self,
        net: &Net,
        curves: &[C],
        fuel: u64,
        work: &mut Work,
        steps: &mut Steps<L>,
    ) -> Proposal
        requires passable { IsPassable net.now (length curves.now) }
        requires light { All (λ c. C.weight c ≡ 1) curves.now }
        requires fits { Fits net.now work.old }
        ensures fits { Fits net.now work.new }
        ensures flows { AreDrawn work.new.flows }
        ensures potentials { AreDrawn work.new.potentials }
        ensures labels { work.new.labels ≡ replicate work.new.nodes None }
        ensures walk { work.new.walk ≡ [] }
        ensures scratch { work.new.scratch ≡ work.old.scratch }
        ensures no_fewer { steps.old ≤ steps.new }
        ensures count { steps.new ≤ steps.old + fuel }
    {
        let mut feed = Feed::new(curves, fuel);
        self.set_out(net, &mut feed, steps);
        let proposal = self.improve(&mut feed, steps);
        self.hand_over(proposal, work);
        proposal
    }

    /// Pivots until no lane gains and no artificial flow can be driven out, whatever tree it begins with.
    pub(crate) fn improve<C: Monotone, L: Ledger>(
        &mut self,
        feed: &mut Feed<C>,
        steps: &mut Steps<L>,
    ) -> Proposal
        ensures { IsSpent feed.old.fuel steps.old feed.new.fuel steps.new }
    {
        let mut endless = false;
        for pivots in 0..u64::MAX {
            if feed.fuel < PIVOT_FUEL || endless && self.is_free_of_penalty(pivots) {
                break;
            }
            let choice = self
                .prices
                .choose(&self.lanes, self.tree.potentials.items());
            feed.spend(choice.looks, steps);
            if choice.lane != NONE {
                if let Some(join) = self.pivot(choice.lane, feed, steps) {
                    endless = self.go_round(choice.lane, join) || endless;
                }
            } else if let Some(proposal) = self.settle(feed, steps) {
                return if endless && proposal == Proposal::Pair {
                    Proposal::Flow
                } else {
                    proposal
                };
            }
        }
        Proposal::Flow
    }

    /// What to do when no lane gains: look for smaller gains, make artificial flow dearer, or end.
    fn settle<C: Monotone, L: Ledger>(
        &mut self,
        feed: &mut Feed<C>,
        steps: &mut Steps<L>,
    ) -> Option<Proposal>
        ensures { IsSpent feed.old.fuel steps.old feed.new.fuel steps.new }
    {
        feed.spend(u64::from(self.nodes), steps);
        let left = self.tree.has_artificial_flow();
        let greatest = self.prices.is_greatest();
        if self.prices.threshold > 0 && (greatest || !left) {
            self.prices.lower_threshold();
            return None;
        }
        if !left {
            return Some(Proposal::Pair);
        }
        if greatest {
            return Some(Proposal::Cut);
        }
        self.raise(false);
        None
    }

    /// What to do when nothing stops a cycle: artificial arcs may have been too cheap, or the lane is banned. The result
    /// is whether it was banned.
    fn go_round(&mut self, lane: u32, join: u32) -> bool {
        if join == self.tree.root && !self.prices.is_greatest() {
            self.raise(false);
            return false;
        }
        self.lanes.hold(lane);
        self.raise(true);
        true
    }

    fn raise(&mut self, to_greatest: bool) {
        let by = self.prices.raise(to_greatest);
        self.tree.lift_below_root(by);
    }

    /// Looks now and then whether all artificial flow is driven out.
    fn is_free_of_penalty(&self, pivots: u64) -> bool {
        let often = u64::from(self.nodes / 8).wrapping_add(1);
        pivots % often == 0 && !self.tree.has_artificial_flow()
    }

    /// Marks the nodes, and then writes flows and potentials. Those of a cut are made fit for a further draw.
    pub(crate) fn hand_over(&mut self, proposal: Proposal, work: &mut Work)
        ensures flows { AreDrawn work.new.flows }
        ensures potentials { AreDrawn work.new.potentials }
        ensures labels { work.new.labels ≡ replicate work.new.nodes None }
        ensures walk { work.new.walk ≡ [] }
        ensures same { IsSameRoom work.old work.new }
    {
        let border = mark_low(&self.tree.potentials, self.prices.penalty / 2, work);
        if proposal == Proposal::Cut {
            self.close_gap(border);
        }
        self.collect_flows();
        write_flows(&self.lanes.flows, work);
        write_potentials(&self.tree.potentials, work);
    }

    /// Takes the flows of the tree's lanes over.
    fn collect_flows(&mut self) {
        for node in 0..self.nodes {
            let lane = self.tree.bond(node).lane;
            if lane != NONE {
                let arc = self.lanes.arc(lane);
                let flow = self.tree.flow_of(node);
                self.lanes.flows.set(arc, flow);
            }
        }
    }
}
