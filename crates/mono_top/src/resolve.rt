// The command `resolve MODEL CHANGES`: the model is solved, and again after each change of a curve, from the solution before it.
ghost use Rattle.std.specs.Prelude.{◌≡◌, ◌+◌, ◌*◌, ◌≤◌, ◌∷◌, ◌++◌, [], length, All, IfOk, OnOk};
ghost use Rattle.std.specs.Option.{ForSome};
ghost use Rattle.outside_io.specs.Seen.{Moves, logged, since};
ghost use Rattle.theory.specs.Certificate.{Fits};
ghost use Rattle.theory.specs.Grounded.{grounded};
ghost use Rattle.theory.specs.Limits.{file_most};
ghost use Rattle.cert_text.specs.CertificateText.{certificate_text};
ghost use Rattle.cert_text.specs.Shown.{shown};
ghost use Rattle.warm_solve.specs.ChangesText.{changes_most};
ghost use Rattle.warm_solve.specs.ChangesTextLaws.{IsChangeOf};
ghost use Rattle.mono_top.specs.Answer.{ReadsThen};
ghost use Rattle.mono_top.specs.CountsReadings.{ReadsCurves, ReadsChangesText, ReadsChangesFile, resolve_bound};
ghost use Rattle.mono_top.specs.Fetch.{text_of};
ghost use Rattle.mono_top.specs.NetBound.{net_bound};
ghost use Rattle.mono_top.specs.Replies.{RepliesWith};
ghost use Rattle.mono_top.specs.Request.{resolve as resolve_question};
ghost use Rattle.mono_top.specs.Resolves.{ResolvesText, Resolves, state_line};
ghost use Rattle.mono_top.specs.Solves.{status_of};
ghost use Rattle.mono_top.specs.declared.lines.Place.{Place as Files};

use crate::fetch::{Fetched, fetch};
use crate::lines::Place;
use crate::reply::{Reply, Text};
use crate::solve::status_of;
use crate::trial::number_of;
use crate::verdict_line::{kind_word, number_decimals};
use cert_text::{Certificate, print_cert};
use ground_net::ground;
use model_text::{Model, append_fixed, append_number, append_word};
use mono_curve::Steps;
use outside_io::{ByteText, Shelf};
use std::alloc::{AllocError, Global};
use std::sync::ledger::Ledger;
use warm_solve::{Changes, ChangesError, Warm, read_changes};

/// Reads the second file before anything is solved.
pub(crate) fn resolve<S: Shelf, L: Ledger>(
    alloc: Global,
    shelf: &mut S,
    model: &Model,
    changes: &str,
    steps: &mut Steps<L>,
) -> Result<Reply, AllocError>
    ensures answers { RepliesWith
        (ReadsThen Files.Second changes.now (ResolvesText model.now.scale model.now.entries)
        (since (S.seen shelf.old) (S.seen shelf.new))) result }
    ensures readings { ReadsCurves (resolve_question changes.now) model.now.entries steps.old steps.new }
    ensures changes { ForSome (S.seen shelf.old).holds
        (λ files. ReadsChangesFile files changes.now model.now.scale model.now.entries steps.old steps.new) }
    ensures log { (S.seen shelf.new).log
        ≡ logged (S.seen shelf.old).log (changes.now ∷ []) }
    ensures moves { Moves (S.seen shelf.old) (S.seen shelf.new) }
{
    match fetch(alloc, shelf, Place::Second, changes)? {
        Fetched::Bytes(text) => Ok(resolve_text(alloc, model, text.as_slice(), steps)?),
        Fetched::Refused(reply) => Ok(reply),
    }
}

/// Answers the text of the second file.
fn resolve_text<L: Ledger>(
    alloc: Global,
    model: &Model,
    text: &[u8],
    steps: &mut Steps<L>,
) -> Result<Reply, AllocError>
    requires { length text.now ≤ file_most }
    ensures answers { RepliesWith (ResolvesText model.now.scale model.now.entries text.now) result }
    ensures readings { ReadsChangesText model.now.scale model.now.entries text.now steps.old steps.new }
{
    match read_changes(alloc, model, text) {
        Ok(changes) => Ok(follow(alloc, model, changes, steps)?),
        Err(ChangesError::Fault { line, word }) => Ok(Reply::bad_change(alloc, line, word)?),
        Err(ChangesError::NoMemory) => Err(AllocError),
    }
}

/// Solves the model, and makes the changes from there.
fn follow<L: Ledger>(
    alloc: Global,
    model: &Model,
    changes: Changes,
    steps: &mut Steps<L>,
) -> Result<Reply, AllocError>
    requires fit { All (IsChangeOf model.now.entries) changes }
    requires few { length changes ≤ changes_most }
    ensures answers { RepliesWith (Resolves model.now.scale model.now.entries changes) result }
    ensures no_fewer { steps.old ≤ steps.new }
    ensures bounded { steps.new ≤ steps.old + resolve_bound (length changes) model.now.entries }
{
    let mut warm = Warm::start(alloc, ground(alloc, model)?, steps)?;
    make_changes(alloc, model, &mut warm, changes, steps)
}

/// Makes the changes one after the other in the model's network.
fn make_changes<L: Ledger>(
    alloc: Global,
    model: &Model,
    warm: &mut Warm,
    mut changes: Changes,
    steps: &mut Steps<L>,
) -> Result<Reply, AllocError>
    requires network { warm.old.network ≡ grounded model.now.entries }
    requires fit { All (IsChangeOf model.now.entries) changes }
    requires few { length changes ≤ changes_most }
    ensures answers { RepliesWith (Resolves model.now.scale model.now.entries changes) result }
    ensures no_fewer { steps.old ≤ steps.new }
    ensures bounded { steps.new ≤ steps.old + 2 * length changes * net_bound (grounded model.now.entries) }
{
    let mut text = Vec::new(alloc);
    let mut count: u32 = 0;
    append_state(&mut text, model, count, warm.kept())?;
    while let Some(change) = changes.take() {
        count += 1;
        warm.change(change.arc, change.curve, steps)?;
        append_state(&mut text, model, count, warm.kept())?;
    }
    conclude(alloc, model, text, warm.kept())
}

/// The text of the last certificate, behind the lines of the states.
fn conclude(
    alloc: Global,
    model: &Model,
    mut text: Vec<u8>,
    certificate: &Certificate,
) -> Result<Reply, AllocError>
    requires { Fits (grounded model.now.entries) (shown certificate.now) }
    ensures status { IfOk result (λ reply. reply.status ≡ status_of (shown certificate.now)) }
    ensures text { IfOk result (λ reply. text_of reply.text
        ≡ text.items ++ certificate_text model.now.scale model.now.entries (shown certificate.now)) }
{
    let last = print_cert(alloc, model, certificate)?;
    text.extend_from_slice(last.as_slice())?;
    Ok(Reply {
        status: status_of(certificate),
        text: Text::Made(ByteText::of_vec(text)),
    })
}

fn append_state(
    out: &mut Vec<u8>,
    model: &Model,
    count: u32,
    certificate: &Certificate,
) -> Result<(), AllocError>
    ensures { OnOk result (out.new.items ≡ out.old.items ++ state_line model.now.scale count (shown certificate.now)) }
{
    out.extend_from_slice(b"state")?;
    append_number(out, count)?;
    append_word(out, kind_word(certificate))?;
    append_fixed(
        out,
        number_of(certificate),
        number_decimals(model.scale(), certificate),
    )?;
    out.push(b'\n')?;
    Ok(())
}
