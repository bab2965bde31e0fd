// The command `check MODEL CERT`: whether the second file, from anywhere, is the text of a valid certificate of the model.
ghost use Rattle.std.specs.Prelude.{◌≡◌, ◌≤◌, ◌∷◌, [], length};
ghost use Rattle.outside_io.specs.Seen.{Moves, logged, since};
ghost use Rattle.theory.specs.Certificate.{Fits};
ghost use Rattle.theory.specs.Grounded.{grounded};
ghost use Rattle.cert_text.specs.Shown.{shown};
ghost use Rattle.mono_top.specs.Replies.{RepliesWith};
ghost use Rattle.mono_top.specs.Answer.{ReadsThen};
ghost use Rattle.mono_top.specs.Checks.{ChecksText, ChecksCertificate, status_by};
ghost use Rattle.mono_top.specs.declared.lines.Place.{Place as Files};
ghost use Rattle.theory.specs.Limits.{file_most};

use crate::fetch::{Fetched, fetch};
use crate::lines::Place;
use crate::reply::{Reply, Text};
use crate::status::Status;
use crate::verdict_line::{bad_text_line, verdict_line};
use cert_check::{Judged, verdict};
use cert_text::{CertFault, Certificate, read_cert};
use ground_net::ground;
use model_text::Model;
use outside_io::Shelf;
use std::alloc::{AllocError, Global};

/// Reads the second file: the model's text has been tested before it is started.
pub(crate) fn check<S: Shelf>(
    alloc: Global,
    shelf: &mut S,
    model: &Model,
    certificate: &str,
) -> Result<Reply, AllocError>
    ensures answers { RepliesWith
        (ReadsThen Files.Second certificate.now (ChecksText model.now.scale model.now.entries)
        (since (S.seen shelf.old) (S.seen shelf.new))) result }
    ensures log { (S.seen shelf.new).log
        ≡ logged (S.seen shelf.old).log (certificate.now ∷ []) }
    ensures moves { Moves (S.seen shelf.old) (S.seen shelf.new) }
{
    match fetch(alloc, shelf, Place::Second, certificate)? {
        Fetched::Bytes(text) => Ok(answer_text(alloc, model, text.as_slice())?),
        Fetched::Refused(reply) => Ok(reply),
    }
}

/// Answers the text of the second file.
fn answer_text(alloc: Global, model: &Model, text: &[u8]) -> Result<Reply, AllocError>
    requires { length text.now ≤ file_most }
    ensures { RepliesWith (ChecksText model.now.scale model.now.entries text.now) result }
{
    match read_cert(alloc, model, text) {
        Ok(certificate) => Ok(answer_certificate(alloc, model, &certificate)?),
        Err(CertFault::BadText { line }) => Ok(Reply {
            status: Status::Rejected,
            text: Text::Made(bad_text_line(alloc, line)?),
        }),
        Err(CertFault::NoMemory) => Err(AllocError),
    }
}

/// The line for the verdict.
fn answer_certificate(
    alloc: Global,
    model: &Model,
    certificate: &Certificate,
) -> Result<Reply, AllocError>
    requires { Fits (grounded model.now.entries) (shown certificate.now) }
    ensures { RepliesWith (ChecksCertificate model.now.scale model.now.entries (shown certificate.now)) result }
{
    let network = ground(alloc, model)?;
    let judged = verdict(&network, certificate);
    let text = verdict_line(alloc, model, certificate, judged)?;
    Ok(Reply {
        status: status_by(judged),
        text: Text::Made(text),
    })
}

fn status_by(judged: Judged) -> Status
    ensures { result ≡ status_by judged }
{
    match judged {
        Judged::Accepted => Status::Done,
        _ => Status::Rejected,
    }
}
