// The grounded network type and its readers.
ghost use Rattle.net_incidence.specs.Graph.{network};
ghost use Rattle.ground_net.specs.Ground.{IsGrounded, listings};

use mono_curve::Curve;
use net_incidence::{ArcId, Net};
use std::marker::Model;
use std::mem;

/// The network of a model with the ground as node 0. Arc `i` runs from the ground to model node `i`, which is node
/// `i + 1`; the arcs of the model follow.
#[derive(Drop)]
pub struct Grounded {
    net: Net,
    curves: Vec<Curve>,
    ghost good: { IsGrounded (network net (listings curves.items)) },
}

impl Model for Grounded {
    ghost use Rattle.net_incidence.specs.Graph.{network};
    ghost use Rattle.ground_net.specs.Ground.{GroundedNet, listings};

    ghost Value = { GroundedNet };

    ghost view = { λ g. record { network = network g.net (listings g.curves.items); good = g.good } };
}

impl Grounded {
    ghost use Rattle.std.specs.Prelude.{◌≡◌, ◌+◌, ◌<◌, ◌≤◌, length};
    ghost use Rattle.theory.specs.Limits.{IsWithin, number_most, list_most};
    ghost use Rattle.theory.specs.Network.{curve, tail, head};
    ghost use Rattle.ground_net.specs.Ground.{replaced};

    pub fn net(&self) -> &Net
        ensures { network result.now self.now.network.curves ≡ self.now.network }
    {
        &self.net
    }

    /// A curve for each arc.
    pub fn curves(&self) -> &[Curve]
        ensures { listings result.now ≡ self.now.network.curves }
    {
        self.curves.as_slice()
    }

    pub fn curve(&self, arc: ArcId) -> &Curve
        requires { arc.0 < length self.now.network.arcs }
        ensures { result.now.listing ≡ curve self.now.network arc.0 }
    {
        &self.curves[arc.0 as usize]
    }

    /// The arc whose flow is the supply of a model node, by the node's number in the model.
    pub fn arc_of_node(&self, node: u32) -> ArcId
        requires { node + 1 < self.now.network.nodes }
        ensures number { result.0 ≡ node }
        ensures there { result.0 < length self.now.network.arcs }
        ensures tail { tail self.now.network result.0 ≡ 0 }
        ensures head { head self.now.network result.0 ≡ node + 1 }
    {
        let _net = &self.net;
        ArcId(node)
    }

    /// Puts another curve in the place of the arc's, and gives back the arc's.
    pub fn replace_curve(&mut self, arc: ArcId, other: Curve) -> Curve
        requires there { arc.0 < length self.old.network.arcs }
        requires short { length other.listing.items ≤ list_most }
        requires base { IsWithin number_most other.listing.base }
        ensures network { self.new.network ≡ replaced self.old.network arc.0 other.listing }
        ensures before { result.listing ≡ curve self.old.network arc.0 }
    {
        mem::replace(&mut self.curves[arc.0 as usize], other)
    }

    /// A grounded network of its parts.
    pub(crate) fn of_parts(net: Net, curves: Vec<Curve>) -> Grounded
        requires { IsGrounded (network net (listings curves.items)) }
        ensures { result.network ≡ network net (listings curves.items) }
    {
        Grounded { net, curves }
    }
}
