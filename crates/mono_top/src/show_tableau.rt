// The command `tableau MODEL`.
ghost use Rattle.std.specs.Prelude.{◌≡◌, ◌+◌, ◌<◌, ◌∷◌, ◌++◌, length, IfOk, OnOk};
ghost use Rattle.theory.specs.Grounded.{grounded};
ghost use Rattle.cert_text.specs.CertificateText.{texts_below};
ghost use Rattle.tucker_tableau.specs.Tableau.{number, IsSplit};
ghost use Rattle.tucker_tableau.specs.Table.{IsTableauOf};
ghost use Rattle.tucker_tableau.specs.Lead.{IsGroundTree};
ghost use Rattle.mono_top.specs.Answer.{UnlessTooBig};
ghost use Rattle.mono_top.specs.Ascending.{AreAscending};
ghost use Rattle.mono_top.specs.Replies.{RepliesWith};
ghost use Rattle.mono_top.specs.ShowsTableau.{ShowsTableau, IsPrinted, size_line, column_line, row_line, sign_text, sign_of};
ghost use Rattle.mono_top.specs.TooBig.{IsTooBigForTableau};

use crate::ascending::{ascending_columns, ascending_rows};
use crate::lines;
use crate::reply::{Reply, Text};
use crate::status::Status;
use cert_text::append_arc_name;
use ground_net::ground;
use model_text::{Model, append_number};
use outside_io::ByteText;
use std::alloc::{AllocError, Global};
use tucker_tableau::{TabFault, Tableau};

/// The size is tested after the model text.
pub(crate) fn show_tableau(alloc: Global, model: &Model) -> Result<Reply, AllocError>
    ensures { RepliesWith
        (UnlessTooBig (IsTooBigForTableau model.now.entries) (ShowsTableau model.now.entries)) result }
{
    let network = ground(alloc, model)?;
    match Tableau::of(alloc, &network) {
        Ok(tableau) => Ok(Reply {
            status: Status::Done,
            text: Text::Made(print_led(alloc, model, tableau)?),
        }),
        Err(TabFault::TooBig) => Ok(Reply::refusal(Status::TooBig, lines::too_big())),
        Err(TabFault::NoMemory) => Err(AllocError),
    }
}

/// The text of the tableau that the arcs of the model lead to.
fn print_led(alloc: Global, model: &Model, tableau: Tableau) -> Result<ByteText, AllocError>
    requires tableau { IsTableauOf (grounded model.now.entries) tableau }
    requires ground { IsGroundTree tableau }
    ensures { IfOk result (ShowsTableau model.now.entries Status.Done) }
{
    let mut tableau = tableau;
    tableau.lead();
    Ok(print_tableau(alloc, model, &tableau)?)
}

fn print_tableau(alloc: Global, model: &Model, tableau: &Tableau) -> Result<ByteText, AllocError>
    requires { IsSplit (grounded model.now.entries) tableau.now.rows tableau.now.columns }
    ensures { IfOk result (IsPrinted model.now.entries tableau.now) }
{
    let rows = ascending_rows(alloc, tableau)?;
    let columns = ascending_columns(alloc, tableau)?;
    let mut out = Vec::new(alloc);
    append_size(&mut out, tableau)?;
    append_columns(&mut out, model, tableau, columns.as_slice())?;
    append_rows(
        &mut out,
        model,
        tableau,
        rows.as_slice(),
        columns.as_slice(),
    )?;
    Ok(ByteText::of_vec(out))
}

fn append_size(out: &mut Vec<u8>, tableau: &Tableau) -> Result<(), AllocError>
    ensures { OnOk result (out.new.items ≡ out.old.items ++ size_line tableau.now) }
{
    out.extend_from_slice(b"tableau")?;
    append_number(out, tableau.rows())?;
    append_number(out, tableau.columns())?;
    out.push(b'\n')?;
    Ok(())
}

/// A line for each column, by their places.
fn append_columns(
    out: &mut Vec<u8>,
    model: &Model,
    tableau: &Tableau,
    columns: &[usize],
) -> Result<(), AllocError>
    requires split { IsSplit (grounded model.now.entries) tableau.now.rows tableau.now.columns }
    requires columns { AreAscending tableau.now.columns columns.now }
    ensures { OnOk result (out.new.items ≡ out.old.items
        ++ texts_below (length columns.now) (λ k. column_line model.now.entries tableau.now (number columns.now k))) }
{
    for k in 0..columns.len() {
        append_column(out, model, tableau, columns[k])?;
    }
    Ok(())
}

fn append_column(
    out: &mut Vec<u8>,
    model: &Model,
    tableau: &Tableau,
    j: usize,
) -> Result<(), AllocError>
    requires split { IsSplit (grounded model.now.entries) tableau.now.rows tableau.now.columns }
    requires there { j < length tableau.now.columns }
    ensures { OnOk result (out.new.items ≡ out.old.items ++ column_line model.now.entries tableau.now j) }
{
    out.extend_from_slice(b"column ")?;
    append_arc_name(out, model, tableau.column_arc(j).0)?;
    out.push(b'\n')?;
    Ok(())
}

/// A line for each row, by their places.
fn append_rows(
    out: &mut Vec<u8>,
    model: &Model,
    tableau: &Tableau,
    rows: &[usize],
    columns: &[usize],
) -> Result<(), AllocError>
    requires split { IsSplit (grounded model.now.entries) tableau.now.rows tableau.now.columns }
    requires rows { AreAscending tableau.now.rows rows.now }
    requires columns { AreAscending tableau.now.columns columns.now }
    ensures { OnOk result (out.new.items ≡ out.old.items
        ++ texts_below (length rows.now) (λ k. row_line model.now.entries tableau.now columns.now (number rows.now k))) }
{
    for k in 0..rows.len() {
        append_row(out, model, tableau, columns, rows[k])?;
    }
    Ok(())
}

fn append_row(
    out: &mut Vec<u8>,
    model: &Model,
    tableau: &Tableau,
    columns: &[usize],
    i: usize,
) -> Result<(), AllocError>
    requires split { IsSplit (grounded model.now.entries) tableau.now.rows tableau.now.columns }
    requires there { i < length tableau.now.rows }
    requires columns { AreAscending tableau.now.columns columns.now }
    ensures { OnOk result (out.new.items
        ≡ out.old.items ++ row_line model.now.entries tableau.now columns.now i) }
{
    out.extend_from_slice(b"row ")?;
    append_arc_name(out, model, tableau.row_arc(i).0)?;
    append_signs(out, tableau, columns, i)?;
    out.push(b'\n')?;
    Ok(())
}

fn append_signs(
    out: &mut Vec<u8>,
    tableau: &Tableau,
    columns: &[usize],
    i: usize,
) -> Result<(), AllocError>
    requires there { i < length tableau.now.rows }
    requires columns { AreAscending tableau.now.columns columns.now }
    ensures { OnOk result (out.new.items ≡ out.old.items
        ++ texts_below (length columns.now) (λ k. sign_text tableau.now i (number columns.now k))) }
{
    for k in 0..columns.len() {
        append_sign(out, tableau, i, columns[k])?;
    }
    Ok(())
}

fn append_sign(out: &mut Vec<u8>, tableau: &Tableau, i: usize, j: usize) -> Result<(), AllocError>
    requires row { i < length tableau.now.rows }
    requires column { j < length tableau.now.columns }
    ensures { OnOk result (out.new.items ≡ out.old.items ++ sign_text tableau.now i j) }
{
    out.push(b' ')?;
    out.push(sign_of(tableau.entry(i, j)))?;
    Ok(())
}

fn sign_of(entry: i8) -> u8
    ensures { result ≡ sign_of entry }
{
    if entry > 0 {
        b'+'
    } else if entry < 0 {
        b'-'
    } else {
        b'0'
    }
}
