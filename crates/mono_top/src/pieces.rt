// The command `pieces MODEL CERT`: the flow of a valid certificate, from anywhere, as a sum of circuits.
ghost use Rattle.std.specs.Prelude.{◌≡◌, ◌↔◌, ◌+◌, ◌<◌, ◌≤◌, ◌∷◌, ◌++◌, [], length, codes, IsTrue, IfOk, OnOk};
ghost use Rattle.std.specs.Option.{option_map};
ghost use Rattle.outside_io.specs.Seen.{Moves, logged, since};
ghost use Rattle.theory.specs.Certificate.{AreNumbers, Fits, IsValid};
ghost use Rattle.theory.specs.Conserved.{IsConserved};
ghost use Rattle.theory.specs.Network.{«at»};
ghost use Rattle.theory.specs.Grounded.{grounded};
ghost use Rattle.theory.specs.Limits.{file_most};
ghost use Rattle.cert_text.specs.CertificateText.{step_line, texts_below};
ghost use Rattle.cert_text.specs.Shown.{shown};
ghost use Rattle.flow_pieces.specs.Pieces.{piece_at};
ghost use Rattle.mono_top.specs.Answer.{AnswersModel, ReadsThen};
ghost use Rattle.mono_top.specs.Replies.{RepliesWith};
ghost use Rattle.mono_top.specs.Reports.{count_line};
ghost use Rattle.mono_top.specs.Request.{pieces as pieces_question};
ghost use Rattle.mono_top.specs.ShowsPieces.{SplitsText, SplitsCertificate, ShowsFlow, IsSplit, AreThere, flow_of, weight_line, piece_text, pieces_text, steps_text};
ghost use Rattle.mono_top.specs.Starts.{StartsLater};
ghost use Rattle.mono_top.specs.TooBig.{IsTooBigForPieces};
ghost use Rattle.mono_top.specs.declared.lines.Place.{Place as Files};

use crate::fetch::{Fetched, fetch};
use crate::lines::{self, Place};
use crate::reply::{Reply, Text};
use crate::status::Status;
use crate::verdict_line::{bad_text_line, verdict_line};
use cert_check::{Judged, verdict};
use cert_text::{CertFault, Certificate, append_arc_name, read_cert};
use flow_pieces::{PieceFault, PieceList};
use ground_net::{Grounded, ground};
use model_text::{Model, append_fixed, append_number, append_word};
use net_incidence::Step;
use outside_io::{ByteText, Shelf};
use std::alloc::{AllocError, Global};

/// The most nodes of a grounded network whose flow is split.
const NODES_MOST: u32 = 1_001;

/// The most arcs.
const ARCS_MOST: u32 = 6_000;

/// The size is tested before the second file is started.
pub(crate) fn pieces<S: Shelf>(
    alloc: Global,
    shelf: &mut S,
    model: &Model,
    certificate: &str,
) -> Result<Reply, AllocError>
    ensures answers { RepliesWith
        (AnswersModel (pieces_question certificate.now) (since (S.seen shelf.old) (S.seen shelf.new))
        model.now.scale model.now.entries) result }
    ensures later { StartsLater (pieces_question certificate.now) model.now.entries
        (S.seen shelf.old) (S.seen shelf.new) }
    ensures moves { Moves (S.seen shelf.old) (S.seen shelf.new) }
{
    if is_too_big(model) {
        return Ok(Reply::refusal(Status::TooBig, lines::too_big()));
    }
    Ok(read_and_split(alloc, shelf, model, certificate)?)
}

fn is_too_big(model: &Model) -> bool
    ensures { IsTrue result ↔ IsTooBigForPieces model.now.entries }
{
    model.nodes() + 1 > NODES_MOST || model.nodes() + model.arcs() > ARCS_MOST
}

/// Reads the second file.
fn read_and_split<S: Shelf>(
    alloc: Global,
    shelf: &mut S,
    model: &Model,
    certificate: &str,
) -> Result<Reply, AllocError>
    ensures answers { RepliesWith
        (ReadsThen Files.Second certificate.now (SplitsText model.now.scale model.now.entries)
        (since (S.seen shelf.old) (S.seen shelf.new))) result }
    ensures log { (S.seen shelf.new).log
        ≡ logged (S.seen shelf.old).log (certificate.now ∷ []) }
    ensures moves { Moves (S.seen shelf.old) (S.seen shelf.new) }
{
    match fetch(alloc, shelf, Place::Second, certificate)? {
        Fetched::Bytes(text) => Ok(split_text(alloc, model, text.as_slice())?),
        Fetched::Refused(reply) => Ok(reply),
    }
}

/// Answers the text of the second file.
fn split_text(alloc: Global, model: &Model, text: &[u8]) -> Result<Reply, AllocError>
    requires { length text.now ≤ file_most }
    ensures { RepliesWith (SplitsText model.now.scale model.now.entries text.now) result }
{
    match read_cert(alloc, model, text) {
        Ok(certificate) => Ok(split_certificate(alloc, model, &certificate)?),
        Err(CertFault::BadText { line }) => Ok(Reply {
            status: Status::Rejected,
            text: Text::Made(bad_text_line(alloc, line)?),
        }),
        Err(CertFault::NoMemory) => Err(AllocError),
    }
}

/// Splits the flow of a certificate that is valid.
fn split_certificate(
    alloc: Global,
    model: &Model,
    certificate: &Certificate,
) -> Result<Reply, AllocError>
    requires { Fits (grounded model.now.entries) (shown certificate.now) }
    ensures { RepliesWith (SplitsCertificate model.now.scale model.now.entries (shown certificate.now)) result }
{
    let network = ground(alloc, model)?;
    match verdict(&network, certificate) {
        Judged::Accepted => Ok(split_valid(alloc, model, &network, certificate)?),
        judged => Ok(Reply {
            status: Status::Rejected,
            text: Text::Made(verdict_line(alloc, model, certificate, judged)?),
        }),
    }
}

fn split_valid(
    alloc: Global,
    model: &Model,
    network: &Grounded,
    certificate: &Certificate,
) -> Result<Reply, AllocError>
    requires network { network.now.network ≡ grounded model.now.entries }
    requires valid { IsValid (grounded model.now.entries) (shown certificate.now) }
    ensures { RepliesWith (ShowsFlow model.now.scale model.now.entries (flow_of (shown certificate.now))) result }
{
    match flow_of(certificate) {
        Some(flow) => Ok(Reply {
            status: Status::Done,
            text: Text::Made(split_flow(alloc, model, network, flow)?),
        }),
        None => Ok(Reply::refusal(Status::NoFlow, lines::no_flow())),
    }
}

fn flow_of(certificate: &Certificate) -> Option<&[i64]>
    ensures { option_map (λ x. x.now) result ≡ flow_of (shown certificate.now) }
{
    match certificate {
        Certificate::Optimal { x, .. } => Some(x.as_slice()),
        Certificate::Cut { .. } => None,
        Certificate::Circuit { x, .. } => Some(x.as_slice()),
    }
}

/// The text of the flow's pieces.
fn split_flow(
    alloc: Global,
    model: &Model,
    network: &Grounded,
    flow: &[i64],
) -> Result<ByteText, AllocError>
    requires network { network.now.network ≡ grounded model.now.entries }
    requires numbers { AreNumbers (length (grounded model.now.entries).arcs) flow.now }
    requires conserved { IsConserved (grounded model.now.entries) («at» flow.now) }
    ensures { IfOk result (IsSplit model.now.scale model.now.entries flow.now) }
{
    match flow_pieces::pieces(alloc, network.net(), flow) {
        Ok(list) => Ok(print_pieces(alloc, model, &list)?),
        Err(PieceFault::NotConserved(_)) => unreachable!(),
        Err(PieceFault::NoMemory) => Err(AllocError),
    }
}

fn print_pieces(alloc: Global, model: &Model, list: &PieceList) -> Result<ByteText, AllocError>
    requires { AreThere model.now.entries list.now }
    ensures { IfOk result (λ text. text ≡ pieces_text model.now.scale model.now.entries list.now) }
{
    let mut out = Vec::new(alloc);
    append_count(&mut out, list)?;
    append_pieces(&mut out, model, list)?;
    Ok(ByteText::of_vec(out))
}

fn append_count(out: &mut Vec<u8>, list: &PieceList) -> Result<(), AllocError>
    ensures { OnOk result (out.new.items ≡ out.old.items ++ count_line (codes "pieces") (length list.now)) }
{
    out.extend_from_slice(b"pieces")?;
    append_number(out, list.count())?;
    out.push(b'\n')?;
    Ok(())
}

fn append_pieces(out: &mut Vec<u8>, model: &Model, list: &PieceList) -> Result<(), AllocError>
    requires { AreThere model.now.entries list.now }
    ensures { OnOk result (out.new.items
        ≡ out.old.items ++ texts_below (length list.now) (λ k. piece_text model.now.scale model.now.entries (piece_at list.now k))) }
{
    for k in 0..list.count() {
        append_piece(out, model, list, k)?;
    }
    Ok(())
}

/// Piece `k`: its weight, and then its steps.
fn append_piece(
    out: &mut Vec<u8>,
    model: &Model,
    list: &PieceList,
    k: usize,
) -> Result<(), AllocError>
    requires are_there { AreThere model.now.entries list.now }
    requires there { k < length list.now }
    ensures { OnOk result (out.new.items ≡ out.old.items ++ piece_text model.now.scale model.now.entries (piece_at list.now k)) }
{
    append_weight(out, model, list.weight(k))?;
    append_steps(out, model, list, k)
}

fn append_steps(
    out: &mut Vec<u8>,
    model: &Model,
    list: &PieceList,
    k: usize,
) -> Result<(), AllocError>
    requires are_there { AreThere model.now.entries list.now }
    requires there { k < length list.now }
    ensures { OnOk result (out.new.items ≡ out.old.items
        ++ steps_text model.now.entries (piece_at list.now k) (length (piece_at list.now k).walk)) }
{
    for i in 0..list.len(k) {
        append_step(out, model, list.step(k, i))?;
    }
    Ok(())
}

fn append_weight(out: &mut Vec<u8>, model: &Model, weight: i64) -> Result<(), AllocError>
    ensures { OnOk result (out.new.items ≡ out.old.items ++ weight_line model.now.scale weight) }
{
    out.extend_from_slice(b"piece")?;
    append_fixed(out, i128::from(weight), model.scale().flow)?;
    out.push(b'\n')?;
    Ok(())
}

pub(crate) fn append_step(out: &mut Vec<u8>, model: &Model, step: Step) -> Result<(), AllocError>
    requires { step.arc.0 < length model.now.entries.nodes + length model.now.entries.arcs }
    ensures { OnOk result (out.new.items ≡ out.old.items ++ step_line model.now.entries step) }
{
    out.extend_from_slice(b"step")?;
    append_word(out, if step.forward { b"+" } else { b"-" })?;
    out.push(b' ')?;
    append_arc_name(out, model, step.arc.0)?;
    out.push(b'\n')?;
    Ok(())
}
