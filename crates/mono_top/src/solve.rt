// The command `solve MODEL`.
ghost use Rattle.std.specs.Prelude.{◌≡◌, IfOk};
ghost use Rattle.theory.specs.Certificate.{IsValid};
ghost use Rattle.theory.specs.Grounded.{grounded};
ghost use Rattle.cert_text.specs.Shown.{shown};
ghost use Rattle.mono_top.specs.Replies.{RepliesWith};
ghost use Rattle.mono_top.specs.CountsReadings.{ReadsCurves};
ghost use Rattle.mono_top.specs.Request.{solve as solve_question};
ghost use Rattle.mono_top.specs.Solves.{IsCertified, status_of};

use crate::reply::{Reply, Text};
use crate::status::Status;
use cert_text::{Certificate, print_cert};
use ground_net::ground;
use model_text::Model;
use mono_curve::Steps;
use std::alloc::{AllocError, Global};
use std::sync::ledger::Ledger;

/// The text of the certificate of the model's grounded network.
pub(crate) fn solve<L: Ledger>(
    alloc: Global,
    model: &Model,
    steps: &mut Steps<L>,
) -> Result<Reply, AllocError>
    ensures answers { RepliesWith (IsCertified model.now.scale model.now.entries) result }
    ensures readings { ReadsCurves solve_question model.now.entries steps.old steps.new }
{
    let certificate = certify(alloc, model, steps)?;
    let text = print_cert(alloc, model, &certificate)?;
    Ok(Reply {
        status: status_of(&certificate),
        text: Text::Made(text),
    })
}

/// A certificate that is valid for the model.
pub(crate) fn certify<L: Ledger>(
    alloc: Global,
    model: &Model,
    steps: &mut Steps<L>,
) -> Result<Certificate, AllocError>
    ensures valid { IfOk result (λ c. IsValid (grounded model.now.entries) (shown c)) }
    ensures readings { ReadsCurves solve_question model.now.entries steps.old steps.new }
{
    let network = ground(alloc, model)?;
    kilter_solver::solve(alloc, &network, steps)
}

/// The status for the kind of the certificate.
pub(crate) fn status_of(certificate: &Certificate) -> Status
    ensures { result ≡ status_of (shown certificate.now) }
{
    match certificate {
        Certificate::Optimal { .. } => Status::Done,
        Certificate::Cut { .. } => Status::Cut,
        Certificate::Circuit { .. } => Status::Circuit,
    }
}
