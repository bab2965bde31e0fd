// The search: a path of free steps from one node to another, or a set of nodes that no free step leaves.
ghost use Rattle.std.specs.Prelude.{◌≡◌, ◌≢◌, ◌+◌, ◌*◌, ◌<◌, ◌≤◌, length};
ghost use Rattle.net_incidence.specs.Graph.{bare};
ghost use Rattle.painted_search.specs.Fits.{Fits};
ghost use Rattle.painted_search.specs.Path.{IsFreePath, IsFreeCut, IsGrowth, AreLabelsOf, LeadAlong};

use crate::grow::Quest;
use crate::painter::Painter;
use crate::work::Work;
use mono_curve::Steps;
use net_incidence::Net;
use std::sync::ledger::Ledger;
use theory::NodeId;

/// What a search found.
#[derive(Clone, Copy, PartialEq, Eq, Debug)]
pub enum Found {
    /// The walk of the room is a path.
    Path,
    /// The marked nodes are a cut, and the walk is the tree that reached them.
    Cut,
}

/// Searches breadth first, and takes no memory.
pub fn search<P: Painter, L: Ledger>(
    net: &Net,
    painter: &P,
    from: NodeId,
    to: NodeId,
    work: &mut Work,
    steps: &mut Steps<L>,
) -> Found
    requires from_there { from.0 < net.now.nodes }
    requires to_there { to.0 < net.now.nodes }
    requires apart { from.0 ≢ to.0 }
    requires fits { Fits net.now work.old }
    requires ready { P.ready painter.now work.old.flows work.old.potentials }
    ensures path { result ≡ Found.Path
        → IsFreePath (bare net.now) (P.paint painter.now work.old.flows work.old.potentials) work.new.walk from.0 to.0 }
    ensures lead { result ≡ Found.Path → LeadAlong (bare net.now) work.new.labels work.new.walk }
    ensures cut { result ≡ Found.Cut
        → IsFreeCut (bare net.now) (P.paint painter.now work.old.flows work.old.potentials) work.new.reached from.0 to.0 }
    ensures grown { result ≡ Found.Cut
        → IsGrowth (bare net.now) (P.paint painter.now work.old.flows work.old.potentials) work.new.reached work.new.walk from.0 }
    ensures short { result ≡ Found.Cut → length work.new.walk + 2 ≤ net.now.nodes }
    ensures labels { AreLabelsOf work.new.labels work.new.reached from.0 }
    ensures flows { work.new.flows ≡ work.old.flows }
    ensures potentials { work.new.potentials ≡ work.old.potentials }
    ensures fits { Fits net.now work.new }
    ensures no_fewer { steps.old ≤ steps.new }
    ensures count { steps.new ≤ steps.old + 2 * length net.now.arcs * P.weight painter.now }
{
    let quest = Quest {
        net,
        painter,
        from,
        to,
    };
    work.begin_at(from);
    if quest.grow(work, steps) {
        quest.trace(work);
        Found::Path
    } else {
        Found::Cut
    }
}
