// The tension of a potential on an arc of a grounded network.
ghost use Rattle.std.specs.Prelude.{◌≡◌, ◌*◌, ◌<◌, length};
ghost use Rattle.theory.specs.Limits.{IsWithin, flow_most};
ghost use Rattle.theory.specs.Network.{«at»};
ghost use Rattle.theory.specs.Conserved.{tension};
ghost use Rattle.theory.specs.Certificate.{IsPotentialOf};

use ground_net::Grounded;
use net_incidence::ArcId;

pub(crate) fn tension_on(g: &Grounded, u: &[i64], arc: ArcId) -> i64
    requires potentials { IsPotentialOf g.now.network u.now }
    requires there { arc.0 < length g.now.network.arcs }
    ensures value { result ≡ tension g.now.network («at» u.now) arc.0 }
    ensures within { IsWithin (2 * flow_most) result }
{
    g.net().tension(u, arc)
}
