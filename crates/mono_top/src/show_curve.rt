// The command `curve MODEL ARC`.
ghost use Rattle.std.specs.Prelude.{◌≡◌, ◌++◌, IfOk, OnOk};
ghost use Rattle.model_text.specs.Scale.{IsScale};
ghost use Rattle.mono_top.specs.Replies.{RepliesWith};
ghost use Rattle.mono_top.specs.ShowsCurve.{ShowsCurve, conjugate_scale, curve_text, listing_line};

use crate::lines;
use crate::reply::{Reply, Text};
use crate::status::Status;
use curve_views::Conjugate;
use model_text::{Model, Scale, append_fixed, append_list, append_word};
use mono_curve::{Curve, Listed};
use outside_io::ByteText;
use std::alloc::{AllocError, Global};

/// Looks the arc up by the bytes of its name.
pub(crate) fn show_curve(alloc: Global, model: &Model, arc: &str) -> Result<Reply, AllocError>
    ensures { RepliesWith (ShowsCurve arc.now model.now.scale model.now.entries) result }
{
    match model.arc_of(arc.as_bytes()) {
        Some(position) => Ok(Reply {
            status: Status::Done,
            text: Text::Made(print_curve(alloc, model.scale(), model.arc_curve(position))?),
        }),
        None => Ok(Reply::refusal(Status::UnknownArc, lines::unknown_arc())),
    }
}

/// The list and base of the curve, and of its conjugate.
fn print_curve(alloc: Global, scale: Scale, curve: &Curve) -> Result<ByteText, AllocError>
    requires { IsScale scale }
    ensures { IfOk result (λ text. text ≡ curve_text scale curve.now.listing) }
{
    let mut out = Vec::new(alloc);
    append_listing(&mut out, scale, b"curve", curve)?;
    append_listing(
        &mut out,
        conjugate_scale(scale),
        b"conjugate",
        &Conjugate::of(curve),
    )?;
    Ok(ByteText::of_vec(out))
}

/// The scale at which the conjugate is a curve: its points are slopes, and its slopes points.
fn conjugate_scale(scale: Scale) -> Scale
    requires { IsScale scale }
    ensures is { result ≡ conjugate_scale scale }
    ensures valid { IsScale result }
{
    Scale {
        version: scale.version,
        flow: scale.tension,
        tension: scale.flow,
    }
}

fn append_listing<C: Listed>(
    out: &mut Vec<u8>,
    scale: Scale,
    keyword: &[u8],
    curve: &C,
) -> Result<(), AllocError>
    requires { IsScale scale }
    ensures { OnOk result (out.new.items
        ≡ out.old.items ++ listing_line scale keyword.now (C.listing curve.now)) }
{
    out.extend_from_slice(keyword)?;
    append_list(out, curve, scale.flow, scale.tension)?;
    append_word(out, b"base")?;
    append_fixed(out, curve.base(), scale.cost())?;
    out.push(b'\n')?;
    Ok(())
}
