// The command `transport TABLE`: a plan of the table that no plan undercuts, or the plants and shops that fall short.
ghost use Rattle.std.specs.Prelude.{◌≡◌, ◌≤◌, ◌∷◌, [], Some, length};
ghost use Rattle.outside_io.specs.Seen.{Moves, logged, since};
ghost use Rattle.theory.specs.Certificate.{IsValid};
ghost use Rattle.theory.specs.Grounded.{grounded};
ghost use Rattle.theory.specs.Limits.{file_most};
ghost use Rattle.cert_text.specs.Shown.{shown};
ghost use Rattle.transport_front.specs.Table.{compiled};
ghost use Rattle.mono_top.specs.CountsReadings.{ReadsCurves};
ghost use Rattle.mono_top.specs.Replies.{Replies, RepliesWith};
ghost use Rattle.mono_top.specs.Request.{about_table, solve as solve_question};
ghost use Rattle.mono_top.specs.TableFiles.{ReadsTableFile, ReadsTableText};
ghost use Rattle.mono_top.specs.Transports.{AnswersTable, Plans};

use crate::fetch::{Fetched, fetch};
use crate::lines::Place;
use crate::reply::{Reply, Text};
use crate::solve::certify;
use crate::status::Status;
use crate::table_line::table_line;
use crate::transport_text::{print_plan, print_short};
use cert_text::Certificate;
use mono_curve::Steps;
use outside_io::Shelf;
use std::alloc::{AllocError, Global};
use std::sync::ledger::Ledger;
use transport_front::{Table, TableError, compile, read_table};

pub(crate) fn transport<S: Shelf, L: Ledger>(
    alloc: Global,
    shelf: &mut S,
    name: &str,
    steps: &mut Steps<L>,
) -> Result<Reply, AllocError>
    ensures replies { Replies (Some (about_table name.now))
        (since (S.seen shelf.old) (S.seen shelf.new)) result }
    ensures readings { ReadsTableFile name.now (S.seen shelf.old).holds steps.old steps.new }
    ensures log { (S.seen shelf.new).log ≡ logged (S.seen shelf.old).log (name.now ∷ []) }
    ensures moves { Moves (S.seen shelf.old) (S.seen shelf.new) }
{
    match fetch(alloc, shelf, Place::First, name)? {
        Fetched::Bytes(text) => Ok(plan_text(alloc, text.as_slice(), steps)?),
        Fetched::Refused(reply) => Ok(reply),
    }
}

/// Answers the text of a table.
fn plan_text<L: Ledger>(
    alloc: Global,
    text: &[u8],
    steps: &mut Steps<L>,
) -> Result<Reply, AllocError>
    requires { length text.now ≤ file_most }
    ensures answers { RepliesWith (AnswersTable text.now) result }
    ensures readings { ReadsTableText text.now steps.old steps.new }
{
    match read_table(alloc, text) {
        Ok(table) => Ok(plan(alloc, &table, steps)?),
        Err(TableError::Fault { line, word }) => Ok(Reply {
            status: Status::TableRefused { line, word },
            text: Text::Made(table_line(alloc, line, word)?),
        }),
        Err(TableError::NoMemory) => Err(AllocError),
    }
}

/// Solves the model that the table stands for, and says it of the table.
fn plan<L: Ledger>(alloc: Global, table: &Table, steps: &mut Steps<L>) -> Result<Reply, AllocError>
    ensures answers { RepliesWith (Plans table.now.table) result }
    ensures readings { ReadsCurves solve_question (compiled table.now.table) steps.old steps.new }
{
    let model = compile(alloc, table)?;
    let certificate = certify(alloc, &model, steps)?;
    say(alloc, table, &certificate)
}

fn say(alloc: Global, table: &Table, certificate: &Certificate) -> Result<Reply, AllocError>
    requires { IsValid (grounded (compiled table.now.table)) (shown certificate.now) }
    ensures { RepliesWith (Plans table.now.table) result }
{
    match certificate {
        Certificate::Optimal { x, cost, .. } => Ok(Reply {
            status: Status::Done,
            text: Text::Made(print_plan(alloc, table, x.as_slice(), *cost)?),
        }),
        Certificate::Cut { side, capacity } => Ok(Reply {
            status: Status::Cut,
            text: Text::Made(print_short(alloc, table, side.as_slice(), -*capacity)?),
        }),
        Certificate::Circuit { .. } => unreachable!(),
    }
}
