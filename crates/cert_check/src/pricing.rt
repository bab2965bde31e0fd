// The value of a potential.
ghost use Rattle.std.specs.Prelude.{◌≡◌, ℕ, ◌<◌, length};
ghost use Rattle.theory.specs.Span.{InSpan};
ghost use Rattle.theory.specs.Network.{«at», curve};
ghost use Rattle.theory.specs.Conserved.{tension};
ghost use Rattle.theory.specs.Totals.{total_value};
ghost use Rattle.theory.specs.Certificate.{IsPotentialOf};

use crate::tensions::tension_on;
use curve_views::dual_at;
use ground_net::Grounded;
use net_incidence::ArcId;

/// Minus the sum of the conjugate costs of the tensions.
pub(crate) fn total_value(g: &Grounded, u: &[i64]) -> i128
    requires potentials { IsPotentialOf g.now.network u.now }
    requires inside { (j : ℕ) → j < length g.now.network.arcs → InSpan 1 (curve g.now.network j).items (tension g.now.network («at» u.now) j) }
    ensures { result ≡ total_value 1 g.now.network («at» u.now) }
{
    let mut total = 0i128;
    for j in 0..g.net().arcs() as u32 {
        let arc = ArcId(j);
        total -= dual_at(g.curve(arc), tension_on(g, u, arc));
    }
    total
}
