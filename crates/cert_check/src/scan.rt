// The tests that go through the nodes or the arcs in the order of their numbers, and the first one that fails.
ghost use Rattle.std.specs.Prelude.{◌≡◌, ℕ, ◌<◌, length, IfSome, IfNone};
ghost use Rattle.theory.specs.First.{IsFirstFailing};
ghost use Rattle.theory.specs.Certificate.{AreNumbers, IsPotentialOf};
ghost use Rattle.cert_check.specs.Verdict.{IsBalanced, IsPairOfCurve, IsInCapacity};

use crate::tensions::tension_on;
use ground_net::Grounded;
use mono_curve::{domain_of, on_curve};
use net_incidence::{ArcId, NodeId};
use theory::pricing::is_between;

/// The first node at which the flow isn't conserved.
pub(crate) fn first_unbalanced(g: &Grounded, x: &[i64]) -> Option<NodeId>
    requires { AreNumbers (length g.now.network.arcs) x.now }
    ensures some { IfSome result (λ node. IsFirstFailing g.now.network.nodes (IsBalanced g.now.network x.now) node.0) }
    ensures none { IfNone result ((i : ℕ) → i < g.now.network.nodes → IsBalanced g.now.network x.now i) }
{
    for i in 0..g.net().nodes() as u32 {
        if g.net().divergence(x, NodeId(i)) != 0 {
            return Some(NodeId(i));
        }
    }
    None
}

/// The first arc whose flow and tension are no pair of its curve.
pub(crate) fn first_off_curve(g: &Grounded, x: &[i64], u: &[i64]) -> Option<ArcId>
    requires flows { AreNumbers (length g.now.network.arcs) x.now }
    requires potentials { IsPotentialOf g.now.network u.now }
    ensures some { IfSome result (λ arc. IsFirstFailing (length g.now.network.arcs) (IsPairOfCurve g.now.network x.now u.now) arc.0) }
    ensures none { IfNone result ((j : ℕ) → j < length g.now.network.arcs → IsPairOfCurve g.now.network x.now u.now j) }
{
    for j in 0..g.net().arcs() as u32 {
        let arc = ArcId(j);
        if !on_curve(g.curve(arc), x[j as usize], tension_on(g, u, arc)) {
            return Some(arc);
        }
    }
    None
}

/// The first arc whose flow isn't in its domain.
pub(crate) fn first_out_of_capacity(g: &Grounded, x: &[i64]) -> Option<ArcId>
    requires { AreNumbers (length g.now.network.arcs) x.now }
    ensures some { IfSome result (λ arc. IsFirstFailing (length g.now.network.arcs) (IsInCapacity g.now.network x.now) arc.0) }
    ensures none { IfNone result ((j : ℕ) → j < length g.now.network.arcs → IsInCapacity g.now.network x.now j) }
{
    for j in 0..x.len() as u32 {
        let (low, high) = domain_of(g.curve(ArcId(j)));
        if !is_between(low, high, x[j as usize]) {
            return Some(ArcId(j));
        }
    }
    None
}
