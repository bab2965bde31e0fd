// How a negative circuit is found and written: back along the labels.
ghost use Rattle.std.specs.Prelude.{◌≡◌, ◌↔◌, ℕ, ◌<◌, None, IsTrue, length, map};
ghost use Rattle.theory.specs.Circuit.{IsNegativeCircuit, WalkIsThere};
ghost use Rattle.painted_search.specs.Fits.{Fits};
ghost use Rattle.net_incidence.specs.WithoutBases.{without_bases, IsPassable};
ghost use Rattle.feasible_tension.specs.Back.{parent, IsDeep, IsOnCircuit};
ghost use Rattle.feasible_tension.specs.Kept.{IsKept};
ghost use Rattle.feasible_tension.specs.Relaxing.{IsRelaxing};
ghost use Rattle.feasible_tension.specs.Lap.{IsLap};

use crate::relaxing::Spans;
use mono_curve::Monotone;
use painted_search::Work;
use theory::NodeId;

impl<C: Monotone> Spans<'_, C> {
    /// Whether the node has as many labels behind it as there are nodes.
    pub(crate) fn is_deep(&self, from: NodeId, work: &Work) -> bool
        requires passable { IsPassable self.now.net.now (length self.now.curves.now) }
        requires fits { Fits self.now.net.now work.now }
        requires relaxed { (rounds : ℕ) × IsRelaxing (without_bases self.now.net.now (map C.items self.now.curves.now)) rounds 0 None work.now }
        requires there { from.0 < self.now.net.now.nodes }
        ensures { IsTrue result
            ↔ IsDeep (without_bases self.now.net.now (map C.items self.now.curves.now)) work.now.labels self.now.net.now.nodes from.0 }
    {
        let mut node = from;
        for _ in 0..work.nodes() {
            match work.label(node) {
                Some(step) => node = self.net.begin(step),
                None => return false,
            }
        }
        true
    }

    /// Writes the circuit to which the labels lead back from the node.
    pub(crate) fn write_circuit(&self, from: NodeId, work: &mut Work)
        requires passable { IsPassable self.now.net.now (length self.now.curves.now) }
        requires fits { Fits self.now.net.now work.old }
        requires relaxed { (rounds : ℕ) × IsRelaxing (without_bases self.now.net.now (map C.items self.now.curves.now)) rounds 0 None work.old }
        requires deep { IsDeep (without_bases self.now.net.now (map C.items self.now.curves.now)) work.old.labels self.now.net.now.nodes from.0 }
        ensures circuit { IsNegativeCircuit (without_bases self.now.net.now (map C.items self.now.curves.now)) work.new.walk }
        ensures there { WalkIsThere (without_bases self.now.net.now (map C.items self.now.curves.now)) work.new.walk }
        ensures kept { IsKept work.old work.new }
    {
        let root = self.far_back(from, work);
        self.walk_lap(root, work);
        work.turn_walk();
    }

    /// As many labels back as there are nodes: on a circuit.
    fn far_back(&self, from: NodeId, work: &Work) -> NodeId
        requires passable { IsPassable self.now.net.now (length self.now.curves.now) }
        requires fits { Fits self.now.net.now work.now }
        requires relaxed { (rounds : ℕ) × IsRelaxing (without_bases self.now.net.now (map C.items self.now.curves.now)) rounds 0 None work.now }
        requires deep { IsDeep (without_bases self.now.net.now (map C.items self.now.curves.now)) work.now.labels self.now.net.now.nodes from.0 }
        ensures { IsOnCircuit (without_bases self.now.net.now (map C.items self.now.curves.now)) work.now.labels result.0 }
    {
        let mut node = from;
        for _ in 0..self.net.nodes() {
            node = self.parent(node, work);
        }
        node
    }

    /// Where the node's label begins.
    fn parent(&self, node: NodeId, work: &Work) -> NodeId
        requires passable { IsPassable self.now.net.now (length self.now.curves.now) }
        requires fits { Fits self.now.net.now work.now }
        requires relaxed { (rounds : ℕ) × IsRelaxing (without_bases self.now.net.now (map C.items self.now.curves.now)) rounds 0 None work.now }
        requires there { node.0 < self.now.net.now.nodes }
        ensures { result.0 ≡ parent (without_bases self.now.net.now (map C.items self.now.curves.now)) work.now.labels node.0 }
    {
        match work.label(node) {
            Some(step) => self.net.begin(step),
            None => node,
        }
    }

    /// Makes the walk one lap of the circuit: the labels from the node back to it.
    fn walk_lap(&self, root: NodeId, work: &mut Work)
        requires passable { IsPassable self.now.net.now (length self.now.curves.now) }
        requires fits { Fits self.now.net.now work.old }
        requires relaxed { (rounds : ℕ) × IsRelaxing (without_bases self.now.net.now (map C.items self.now.curves.now)) rounds 0 None work.old }
        requires on_circuit { IsOnCircuit (without_bases self.now.net.now (map C.items self.now.curves.now)) work.old.labels root.0 }
        ensures lap { IsLap (without_bases self.now.net.now (map C.items self.now.curves.now)) work.old.labels root.0 work.new.walk }
        ensures kept { IsKept work.old work.new }
    {
        work.clear_walk();
        let mut node = root;
        while let Some(step) = work.label(node) {
            work.push_step(step);
            node = self.net.begin(step);
            if node == root {
                return;
            }
        }
    }
}
