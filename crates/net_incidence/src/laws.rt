// The laws of networks, of a net with a curve for each arc. Each function does nothing: its contract is the law.
ghost use Rattle.std.specs.Prelude.{◌≡◌, ℕ, ◌≤◌, ℤ, pos, ◌*ℤ◌, ◌≤ℤ◌, List, length, map};
ghost use Rattle.theory.specs.Network.{IsNetwork, «at», over_arcs};
ghost use Rattle.theory.specs.Conserved.{IsConserved, tension};
ghost use Rattle.theory.specs.Feasible.{IsFeasibleFlow, IsFeasiblePotential};
ghost use Rattle.theory.specs.Totals.{total_cost, total_value};
ghost use Rattle.net_incidence.specs.Graph.{bare, network};

use crate::net::Net;
use mono_curve::Listed;

impl Net {
    /// The net with these curves is a network, so all that the theory says of networks holds of it.
    pub fn is_network<C: Listed>(&self, curves: &[C])
        requires { length curves.now ≡ length self.now.arcs }
        ensures { IsNetwork (network self.now (map C.listing curves.now)) }
    {}

    /// A conserved flow is orthogonal to every tension.
    pub fn sum_law<C: Listed>(&self, curves: &[C])
        requires { length curves.now ≡ length self.now.arcs }
        ensures { (x u : ℕ → ℤ) → IsConserved (bare self.now) x
            → over_arcs (bare self.now) (λ j. x j *ℤ tension (bare self.now) u j) ≡ pos 0 }
    {}

    /// No value is above any cost, over every denominator.
    pub fn weak_duality<C: Listed>(&self, curves: &[C])
        requires { length curves.now ≡ length self.now.arcs }
        ensures { let net = network self.now (map C.listing curves.now) in
            (q : ℕ) (x u : List ℤ) → 1 ≤ q → IsFeasibleFlow q net x → IsFeasiblePotential q net u
            → total_value q net («at» u) ≤ℤ total_cost q net («at» x) }
    {}
}
