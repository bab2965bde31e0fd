// The command `feasible MODEL`: a feasible flow or a cut, and a feasible potential or a circuit.
ghost use Rattle.std.specs.Prelude.{◌≡◌, IfOk};
ghost use Rattle.mono_top.specs.Replies.{RepliesWith};
ghost use Rattle.mono_top.specs.CountsReadings.{ReadsCurves};
ghost use Rattle.mono_top.specs.FindsFeasible.{FindsFeasible, status_of_parts};
ghost use Rattle.mono_top.specs.Request.{feasible as feasible_question};

use crate::reply::{Reply, Text};
use crate::status::Status;
use cert_text::{FlowPart, TensionPart, print_feasible};
use ground_net::ground;
use kilter_solver::feasibility;
use model_text::Model;
use mono_curve::Steps;
use std::alloc::{AllocError, Global};
use std::sync::ledger::Ledger;

/// The text of the two parts of the model's grounded network.
pub(crate) fn feasible<L: Ledger>(
    alloc: Global,
    model: &Model,
    steps: &mut Steps<L>,
) -> Result<Reply, AllocError>
    ensures answers { RepliesWith (FindsFeasible model.now.scale model.now.entries) result }
    ensures readings { ReadsCurves feasible_question model.now.entries steps.old steps.new }
{
    let network = ground(alloc, model)?;
    let found = feasibility(alloc, &network, steps)?;
    let text = print_feasible(alloc, model, &found.flow, &found.tension)?;
    Ok(Reply {
        status: status_of_parts(&found.flow, &found.tension),
        text: Text::Made(text),
    })
}

fn status_of_parts(flow: &FlowPart, tension: &TensionPart) -> Status
    ensures { result ≡ status_of_parts flow.now tension.now }
{
    match (flow, tension) {
        (FlowPart::No { .. }, _) => Status::Cut,
        (FlowPart::Yes(_), TensionPart::No { .. }) => Status::Circuit,
        (FlowPart::Yes(_), TensionPart::Yes(_)) => Status::Done,
    }
}
