// The cost of a flow of the grounded network.
ghost use Rattle.std.specs.Prelude.{◌≡◌, ℕ, ◌<◌, length};
ghost use Rattle.theory.specs.Domain.{InDomain};
ghost use Rattle.theory.specs.Limits.{IsWithin, sum_most};
ghost use Rattle.theory.specs.Network.{«at», curve};
ghost use Rattle.theory.specs.Totals.{total_cost};
ghost use Rattle.theory.specs.Certificate.{AreNumbers};

use crate::grounded::Grounded;
use mono_curve::cost_at;
use net_incidence::ArcId;

/// The sum of the costs of the arcs.
pub fn total_cost(g: &Grounded, flows: &[i64]) -> i128
    requires numbers { AreNumbers (length g.now.network.arcs) flows.now }
    requires inside { (j : ℕ) → j < length g.now.network.arcs → InDomain 1 (curve g.now.network j).items («at» flows.now j) }
    ensures value { result ≡ total_cost 1 g.now.network («at» flows.now) }
    ensures within { IsWithin sum_most result }
{
    let mut total = 0i128;
    for j in 0..g.net().arcs() as u32 {
        total += cost_at(g.curve(ArcId(j)), flows[j as usize]);
    }
    total
}
