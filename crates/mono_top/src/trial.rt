// The command `trial NUMBER`: the drawn model of the number, solved as `solve` solves the model of a file.
ghost use Rattle.std.specs.Prelude.{◌≡◌, ◌++◌, ◌∷◌, [], codes, IfOk, OnOk};
ghost use Rattle.cert_text.specs.Shown.{shown};
ghost use Rattle.model_text.specs.Printed.{printed_line, printed_number};
ghost use Rattle.mono_top.specs.CountsReadings.{ReadsCurves};
ghost use Rattle.mono_top.specs.Replies.{RepliesWith};
ghost use Rattle.mono_top.specs.Reports.{IsReported, count_line, number_of, report_text};
ghost use Rattle.mono_top.specs.Request.{solve as solve_question};
ghost use Rattle.trial_model.specs.Trial.{trial_entries};

use crate::reply::{Reply, Text};
use crate::solve::certify;
use crate::status::Status;
use crate::verdict_line::kind_word;
use cert_text::Certificate;
use model_text::{Model, append_number, append_word};
use mono_curve::Steps;
use outside_io::ByteText;
use std::alloc::{AllocError, Global};
use std::sync::ledger::Ledger;

/// How large the number's model is, and what it comes to.
pub(crate) fn trial<L: Ledger>(
    alloc: Global,
    number: u64,
    steps: &mut Steps<L>,
) -> Result<Reply, AllocError>
    ensures answers { RepliesWith (IsReported (trial_entries number)) result }
    ensures readings { ReadsCurves solve_question (trial_entries number) steps.old steps.new }
{
    let model = trial_model::trial(alloc, number)?;
    let certificate = certify(alloc, &model, steps)?;
    Ok(Reply {
        status: Status::Done,
        text: Text::Made(print_report(alloc, &model, &certificate)?),
    })
}

fn print_report(
    alloc: Global,
    model: &Model,
    certificate: &Certificate,
) -> Result<ByteText, AllocError>
    ensures { IfOk result (λ text. text ≡ report_text model.now.entries (shown certificate.now)) }
{
    let mut out = Vec::new(alloc);
    append_count(&mut out, b"nodes", model.nodes())?;
    append_count(&mut out, b"arcs", model.arcs())?;
    append_kind(&mut out, kind_word(certificate))?;
    append_value(&mut out, number_of(certificate))?;
    Ok(ByteText::of_vec(out))
}

// Each of these appends one line.

fn append_count(out: &mut Vec<u8>, keyword: &[u8], count: u32) -> Result<(), AllocError>
    ensures { OnOk result (out.new.items ≡ out.old.items ++ count_line keyword.now count) }
{
    out.extend_from_slice(keyword)?;
    append_number(out, count)?;
    out.push(b'\n')?;
    Ok(())
}

fn append_kind(out: &mut Vec<u8>, kind: &[u8]) -> Result<(), AllocError>
    ensures { OnOk result (out.new.items
        ≡ out.old.items ++ printed_line (codes "kind") (kind.now ∷ [])) }
{
    out.extend_from_slice(b"kind")?;
    append_word(out, kind)?;
    out.push(b'\n')?;
    Ok(())
}

fn append_value(out: &mut Vec<u8>, value: i128) -> Result<(), AllocError>
    ensures { OnOk result (out.new.items
        ≡ out.old.items ++ printed_line (codes "value") (printed_number value ∷ [])) }
{
    out.extend_from_slice(b"value")?;
    append_number(out, value)?;
    out.push(b'\n')?;
    Ok(())
}

/// The value, the capacity or the span.
pub(crate) fn number_of(certificate: &Certificate) -> i128
    ensures { result ≡ number_of (shown certificate.now) }
{
    match certificate {
        Certificate::Optimal { value, .. } => *value,
        Certificate::Cut { capacity, .. } => *capacity,
        Certificate::Circuit { span, .. } => *span,
    }
}
