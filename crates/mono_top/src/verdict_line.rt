// The lines of `check`.
ghost use Rattle.std.specs.Prelude.{◌≡◌, ◌++◌, ◌+◌, ◌<◌, ◌≤◌, ◌∷◌, [], length, codes, pos, IfOk, OnOk};
ghost use Rattle.theory.specs.Grounded.{node_name, arc_name};
ghost use Rattle.cert_text.specs.Shown.{shown};
ghost use Rattle.model_text.specs.Printed.{spaced, printed_fixed, printed_number};
ghost use Rattle.model_text.specs.Scale.{IsScale};
ghost use Rattle.mono_top.specs.VerdictLines.{kind_word, number_decimals, bad_text_line, verdict_line, NamesThere};

use cert_check::Judged;
use cert_text::{Certificate, append_arc_name, append_node_name};
use model_text::{Model, Scale, append_fixed, append_number, append_word};
use net_incidence::{ArcId, NodeId};
use outside_io::ByteText;
use std::alloc::{AllocError, Global};

/// The line for the first line that no certificate's text has.
pub(crate) fn bad_text_line(alloc: Global, line: u32) -> Result<ByteText, AllocError>
    ensures { IfOk result (λ text. text ≡ bad_text_line line) }
{
    let mut out = Vec::new(alloc);
    append_count(&mut out, b"rejected bad-text line", line)?;
    out.push(b'\n')?;
    Ok(ByteText::of_vec(out))
}

pub(crate) fn verdict_line(
    alloc: Global,
    model: &Model,
    certificate: &Certificate,
    judged: Judged,
) -> Result<ByteText, AllocError>
    requires { NamesThere model.now.entries judged }
    ensures { IfOk result (λ text.
        text ≡ verdict_line model.now.scale model.now.entries (shown certificate.now) judged) }
{
    let mut out = Vec::new(alloc);
    match judged {
        Judged::Accepted => append_words(&mut out, b"accepted", kind_word(certificate))?,
        Judged::NotConserved(node) => {
            append_node(&mut out, b"rejected not-conserved node", model, node)?
        }
        Judged::OffCurve(arc) => append_arc(&mut out, b"rejected off-curve", model, arc)?,
        Judged::OutOfCapacity(arc) => append_arc(
            &mut out,
            b"rejected out-of-capacity",
            model,
            arc,
        )?,
        Judged::NotCircuit(number) => append_count(&mut out, b"rejected not-circuit step", number)?,
        Judged::Endless(arc) => append_arc(&mut out, b"rejected endless", model, arc)?,
        Judged::WrongNumber { stated, right } => {
            let decimals = number_decimals(model.scale(), certificate);
            append_numbers(
                &mut out,
                b"rejected wrong-number stated",
                stated,
                right,
                decimals,
            )?
        }
        Judged::NotNegative => out.extend_from_slice(b"rejected not-negative")?,
    }
    out.push(b'\n')?;
    Ok(ByteText::of_vec(out))
}

// Each of these appends what a line has before its end: the keyword, and what it is about.

fn append_words(out: &mut Vec<u8>, keyword: &[u8], word: &[u8]) -> Result<(), AllocError>
    ensures { OnOk result (out.new.items ≡ out.old.items ++ keyword.now ++ spaced (word.now ∷ [])) }
{
    out.extend_from_slice(keyword)?;
    append_word(out, word)
}

pub(crate) fn kind_word(certificate: &Certificate) -> &'static [u8]
    ensures { result.now ≡ kind_word (shown certificate.now) }
{
    match certificate {
        Certificate::Optimal { .. } => b"optimal",
        Certificate::Cut { .. } => b"cut",
        Certificate::Circuit { .. } => b"circuit",
    }
}

/// The decimals of the certificate's number: of a cost and a value, of a capacity, or of a span.
pub(crate) fn number_decimals(scale: Scale, certificate: &Certificate) -> u8
    requires { IsScale scale }
    ensures is { result ≡ number_decimals scale (shown certificate.now) }
    ensures most { result ≤ 12 }
{
    match certificate {
        Certificate::Optimal { .. } => scale.cost(),
        Certificate::Cut { .. } => scale.flow,
        Certificate::Circuit { .. } => scale.tension,
    }
}

fn append_node(
    out: &mut Vec<u8>,
    keyword: &[u8],
    model: &Model,
    node: NodeId,
) -> Result<(), AllocError>
    requires { node.0 ≤ length model.now.entries.nodes }
    ensures { OnOk result (out.new.items
        ≡ out.old.items ++ keyword.now ++ spaced (node_name model.now.entries node.0 ∷ [])) }
{
    out.extend_from_slice(keyword)?;
    append_node_name(out, model, node.0)
}

fn append_arc(
    out: &mut Vec<u8>,
    keyword: &[u8],
    model: &Model,
    arc: ArcId,
) -> Result<(), AllocError>
    requires { arc.0 < length model.now.entries.nodes + length model.now.entries.arcs }
    ensures { OnOk result (out.new.items
        ≡ out.old.items ++ keyword.now ++ spaced (arc_name model.now.entries arc.0 ∷ [])) }
{
    out.extend_from_slice(keyword)?;
    out.push(b' ')?;
    append_arc_name(out, model, arc.0)
}

fn append_count(out: &mut Vec<u8>, keyword: &[u8], count: u32) -> Result<(), AllocError>
    ensures { OnOk result (out.new.items
        ≡ out.old.items ++ keyword.now ++ spaced (printed_number (pos count) ∷ [])) }
{
    out.extend_from_slice(keyword)?;
    append_number(out, count)
}

fn append_numbers(
    out: &mut Vec<u8>,
    keyword: &[u8],
    stated: i128,
    right: i128,
    decimals: u8,
) -> Result<(), AllocError>
    requires { decimals ≤ 12 }
    ensures { OnOk result (out.new.items
        ≡ out.old.items ++ keyword.now
        ++ spaced (printed_fixed decimals stated ∷ codes "right" ∷ printed_fixed decimals right ∷ [])) }
{
    out.extend_from_slice(keyword)?;
    append_fixed(out, stated, decimals)?;
    append_word(out, b"right")?;
    append_fixed(out, right, decimals)
}
