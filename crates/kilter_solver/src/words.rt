// The scratch words of a room, as the search for routes uses them: an excess and a key for each node.
ghost use Rattle.std.specs.Prelude.{◌≡◌, ◌+◌, ◌<◌};
ghost use Rattle.painted_search.specs.Writes.{with_scratch};
ghost use Rattle.kilter_solver.specs.Excess.{excess};
ghost use Rattle.kilter_solver.specs.Spread.{key, is_near};

use painted_search::Work;
use theory::NodeId;

pub(crate) fn excess(work: &Work, node: NodeId) -> i64
    requires { node.0 < work.now.nodes }
    ensures { result ≡ excess work.now node.0 }
{
    work.scratch(node.0 as usize)
}

pub(crate) fn set_excess(work: &mut Work, node: NodeId, amount: i64)
    requires { node.0 < work.old.nodes }
    ensures { work.new ≡ with_scratch work.old node.0 amount }
{
    work.set_scratch(node.0 as usize, amount);
}

pub(crate) fn key(work: &Work, node: NodeId) -> i64
    requires { node.0 < work.now.nodes }
    ensures { result ≡ key work.now node.0 }
{
    work.scratch(work.nodes() + node.0 as usize)
}

pub(crate) fn set_key(work: &mut Work, node: NodeId, key: i64)
    requires { node.0 < work.old.nodes }
    ensures { work.new ≡ with_scratch work.old (work.old.nodes + node.0) key }
{
    work.set_scratch(work.nodes() + node.0 as usize, key);
}

/// Whether the search met the node.
pub(crate) fn is_met(work: &Work, node: NodeId) -> bool
    requires { node.0 < work.now.nodes }
    ensures { result ≡ is_near work.now node.0 }
{
    work.reached(node) || work.label(node).is_some()
}
