// The commands `maxflow MODEL FROM TO` and `maxtension MODEL FROM TO`.
ghost use Rattle.std.specs.Prelude.{◌≡◌, ◌≢◌, ◌+◌, ◌<◌, ◌≤◌, length};
ghost use Rattle.theory.specs.Grounded.{grounded};
ghost use Rattle.mono_top.specs.Between.{Between, FindsFlow, FindsTension, status_of_flow, status_of_tension};
ghost use Rattle.mono_top.specs.CountsReadings.{ReadsCurves};
ghost use Rattle.mono_top.specs.Fetch.{text_of};
ghost use Rattle.mono_top.specs.Lines.{unknown_node_line};
ghost use Rattle.mono_top.specs.NetBound.{net_bound};
ghost use Rattle.mono_top.specs.Replies.{RepliesWith};
ghost use Rattle.mono_top.specs.Request.{greatest_flow, greatest_tension};

use crate::between_text::{print_flow, print_tension};
use crate::lines;
use crate::reply::{Reply, Text};
use crate::status::Status;
use ground_net::ground;
use model_text::Model;
use mono_curve::Steps;
use net_incidence::NodeId;
use path_cut::{FlowFound, TensionFound, flow_between, tension_between};
use std::alloc::{AllocError, Global};
use std::sync::ledger::Ledger;

/// Looks the nodes up by the bytes of their names.
pub(crate) fn max_flow<L: Ledger>(
    alloc: Global,
    model: &Model,
    from: &str,
    to: &str,
    steps: &mut Steps<L>,
) -> Result<Reply, AllocError>
    requires apart { from.now ≢ to.now }
    ensures answers { RepliesWith (Between FindsFlow from.now to.now model.now.scale model.now.entries) result }
    ensures readings { ReadsCurves (greatest_flow from.now to.now) model.now.entries steps.old steps.new }
{
    let Some(i) = model.node_of(from.as_bytes()) else {
        return Ok(unknown_node());
    };
    let Some(k) = model.node_of(to.as_bytes()) else {
        return Ok(unknown_node());
    };
    flow_reply(alloc, model, (i, k), steps)
}

fn unknown_node() -> Reply
    ensures status { result.status ≡ Status.UnknownNode }
    ensures text { text_of result.text ≡ unknown_node_line }
{
    Reply::refusal(Status::UnknownNode, lines::unknown_node())
}

/// The greatest flow between two nodes, by their positions.
fn flow_reply<L: Ledger>(
    alloc: Global,
    model: &Model,
    ends: (u32, u32),
    steps: &mut Steps<L>,
) -> Result<Reply, AllocError>
    requires from_there { ends.0 < length model.now.entries.nodes }
    requires to_there { ends.1 < length model.now.entries.nodes }
    requires apart { ends.0 ≢ ends.1 }
    ensures answers { RepliesWith (FindsFlow model.now.scale model.now.entries (ends.0 + 1) (ends.1 + 1)) result }
    ensures no_fewer { steps.old ≤ steps.new }
{
    let (from, to) = (NodeId(ends.0 + 1), NodeId(ends.1 + 1));
    let network = ground(alloc, model)?;
    let found = flow_between(alloc, &network, from, to, steps)?;
    let text = print_flow(alloc, model, &found)?;
    Ok(Reply {
        status: status_of_flow(&found),
        text: Text::Made(text),
    })
}

fn status_of_flow(found: &FlowFound) -> Status
    ensures { result ≡ status_of_flow found.now }
{
    match found {
        FlowFound::Greatest { .. } => Status::Done,
        FlowFound::Unbounded { .. } => Status::Unbounded,
        FlowFound::Refused { .. } => Status::Cut,
    }
}

/// Looks the nodes up by the bytes of their names.
pub(crate) fn max_tension<L: Ledger>(
    alloc: Global,
    model: &Model,
    from: &str,
    to: &str,
    steps: &mut Steps<L>,
) -> Result<Reply, AllocError>
    requires apart { from.now ≢ to.now }
    ensures answers { RepliesWith (Between FindsTension from.now to.now model.now.scale model.now.entries) result }
    ensures readings { ReadsCurves (greatest_tension from.now to.now) model.now.entries steps.old steps.new }
{
    let Some(i) = model.node_of(from.as_bytes()) else {
        return Ok(unknown_node());
    };
    let Some(k) = model.node_of(to.as_bytes()) else {
        return Ok(unknown_node());
    };
    tension_reply(alloc, model, (i, k), steps)
}

/// The greatest tension between two nodes, by their positions.
fn tension_reply<L: Ledger>(
    alloc: Global,
    model: &Model,
    ends: (u32, u32),
    steps: &mut Steps<L>,
) -> Result<Reply, AllocError>
    requires from_there { ends.0 < length model.now.entries.nodes }
    requires to_there { ends.1 < length model.now.entries.nodes }
    requires apart { ends.0 ≢ ends.1 }
    ensures answers { RepliesWith (FindsTension model.now.scale model.now.entries (ends.0 + 1) (ends.1 + 1)) result }
    ensures no_fewer { steps.old ≤ steps.new }
    ensures count { steps.new ≤ steps.old + net_bound (grounded model.now.entries) }
{
    let (from, to) = (NodeId(ends.0 + 1), NodeId(ends.1 + 1));
    let network = ground(alloc, model)?;
    let found = tension_between(alloc, &network, from, to, steps)?;
    let text = print_tension(alloc, model, &found)?;
    Ok(Reply {
        status: status_of_tension(&found),
        text: Text::Made(text),
    })
}

fn status_of_tension(found: &TensionFound) -> Status
    ensures { result ≡ status_of_tension found.now }
{
    match found {
        TensionFound::Greatest { .. } => Status::Done,
        TensionFound::Unbounded { .. } => Status::Unbounded,
        TensionFound::Refused { .. } => Status::Circuit,
    }
}
