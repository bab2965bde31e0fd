// How a search grows its tree: breadth first. The walk is the queue too: it holds the steps that reached the nodes, in the
// order in which these are left again.
ghost use Rattle.std.specs.Prelude.{◌≡◌, ◌≢◌, ◌+◌, ◌*◌, ◌<◌, ◌≤◌, false, IsTrue, length};
ghost use Rattle.theory.specs.declared.network.Step.{Step as Pace};
ghost use Rattle.theory.specs.Painting.{is_free};
ghost use Rattle.theory.specs.Cut.{holds};
ghost use Rattle.theory.specs.Circuit.{begin_of, end_of};
ghost use Rattle.net_incidence.specs.Graph.{bare};
ghost use Rattle.net_incidence.specs.Incidence.{incident_steps};
ghost use Rattle.painted_search.specs.Path.{IsFreeStep};
ghost use Rattle.painted_search.specs.Tree.{node_at, IsSearching, GoesOn, AreLeft};

use crate::painter::Painter;
use crate::work::Work;
use mono_curve::Steps;
use net_incidence::Net;
use std::sync::ledger::Ledger;
use theory::{Colour, NodeId, Step};

/// What is searched for: free steps from one node to another.
#[derive(Drop)]
pub(crate) struct Quest<'a, P> {
    pub(crate) net: &'a Net,
    pub(crate) painter: &'a P,
    pub(crate) from: NodeId,
    pub(crate) to: NodeId,
}

impl<P: Painter> Quest<'_, P> {
    /// Reaches nodes until one of them is the goal, or no free step leaves them.
    pub(crate) fn grow<L: Ledger>(&self, work: &mut Work, steps: &mut Steps<L>) -> bool
        requires searching { IsSearching self.now.net.now (P.ready self.now.painter.now) (P.paint self.now.painter.now) self.now.from.0 work.old }
        requires unmet { holds work.old.reached self.now.to.0 ≡ false }
        ensures searching { IsSearching self.now.net.now (P.ready self.now.painter.now) (P.paint self.now.painter.now) self.now.from.0 work.new }
        ensures goes_on { GoesOn work.old work.new }
        ensures met { result ≡ holds work.new.reached self.now.to.0 }
        ensures left { result ≡ false
            → AreLeft (bare self.now.net.now) (P.paint self.now.painter.now work.new.flows work.new.potentials) self.now.from.0 work.new
            (length work.new.walk + 1) }
        ensures no_fewer { steps.old ≤ steps.new }
        ensures count { steps.new ≤ steps.old + 2 * length self.now.net.now.arcs * P.weight self.now.painter.now }
    {
        let mut done = 0;
        while done <= work.walk_len() {
            let node = self.reached_node(work, done);
            if self.leave(node, work, steps) {
                return true;
            }
            done += 1;
        }
        false
    }

    /// Node `k` in the order in which nodes were reached.
    fn reached_node(&self, work: &Work, k: usize) -> NodeId
        requires searching { IsSearching self.now.net.now (P.ready self.now.painter.now) (P.paint self.now.painter.now) self.now.from.0 work.now }
        requires there { k ≤ length work.now.walk }
        ensures { result.0 ≡ node_at (bare self.now.net.now) self.now.from.0 work.now.walk k }
    {
        if k == 0 {
            self.from
        } else {
            self.net.end(work.walk_step(k - 1))
        }
    }

    /// Leaves the node by each free step.
    fn leave<L: Ledger>(&self, node: NodeId, work: &mut Work, steps: &mut Steps<L>) -> bool
        requires searching { IsSearching self.now.net.now (P.ready self.now.painter.now) (P.paint self.now.painter.now) self.now.from.0 work.old }
        requires unmet { holds work.old.reached self.now.to.0 ≡ false }
        requires there { node.0 < self.now.net.now.nodes }
        requires reached { IsTrue (holds work.old.reached node.0) }
        ensures searching { IsSearching self.now.net.now (P.ready self.now.painter.now) (P.paint self.now.painter.now) self.now.from.0 work.new }
        ensures goes_on { GoesOn work.old work.new }
        ensures met { result ≡ holds work.new.reached self.now.to.0 }
        ensures left { result ≡ false → (s : Pace) → s.arc.0 < length self.now.net.now.arcs → begin_of (bare self.now.net.now) s ≡ node.0
            → IsFreeStep (P.paint self.now.painter.now work.new.flows work.new.potentials) s
            → IsTrue (holds work.new.reached (end_of (bare self.now.net.now) s)) }
        ensures no_fewer { steps.old ≤ steps.new }
        ensures count { steps.new ≤ steps.old + length (incident_steps self.now.net.now.arcs node.0) * P.weight self.now.painter.now }
    {
        for step in self.net.steps(node) {
            if self.pass(*step, work, steps) {
                return true;
            }
        }
        false
    }

    /// Reaches the step's end, if it is free; says whether that is the goal.
    fn pass<L: Ledger>(&self, step: Step, work: &mut Work, steps: &mut Steps<L>) -> bool
        requires searching { IsSearching self.now.net.now (P.ready self.now.painter.now) (P.paint self.now.painter.now) self.now.from.0 work.old }
        requires unmet { holds work.old.reached self.now.to.0 ≡ false }
        requires there { step.arc.0 < length self.now.net.now.arcs }
        requires reached { IsTrue (holds work.old.reached (begin_of (bare self.now.net.now) step)) }
        ensures searching { IsSearching self.now.net.now (P.ready self.now.painter.now) (P.paint self.now.painter.now) self.now.from.0 work.new }
        ensures goes_on { GoesOn work.old work.new }
        ensures met { result ≡ holds work.new.reached self.now.to.0 }
        ensures left { IsFreeStep (P.paint self.now.painter.now work.new.flows work.new.potentials) step
            → IsTrue (holds work.new.reached (end_of (bare self.now.net.now) step)) }
        ensures no_fewer { steps.old ≤ steps.new }
        ensures count { steps.new ≤ steps.old + P.weight self.now.painter.now }
    {
        let end = self.net.end(step);
        if work.reached(end) || !is_free(self.painter.colour(work, step.arc, steps), step.forward) {
            return false;
        }
        work.reach(end, step);
        end == self.to
    }
}

fn is_free(colour: Colour, forward: bool) -> bool
    ensures { result ≡ is_free colour forward }
{
    match colour {
        Colour::Green => true,
        Colour::White => forward,
        Colour::Black => !forward,
        Colour::Red => false,
    }
}
