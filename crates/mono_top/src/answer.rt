// From the words to the reply: all of the work, and no write.
ghost use Rattle.std.specs.Prelude.{◌≡◌, [], Some, IfOk, IsErr};
ghost use Rattle.std.specs.Option.{ForSome};
ghost use Rattle.outside_io.specs.Seen.{Moves, since};
ghost use Rattle.mono_top.specs.Answer.{AnswersModel};
ghost use Rattle.mono_top.specs.CountsReadings.{CountsReadings, ReadsChanges, ReadsCurves, ReadsWithin};
ghost use Rattle.mono_top.specs.Due.{IsDue};
ghost use Rattle.mono_top.specs.Replies.{Replies, RepliesWith};
ghost use Rattle.mono_top.specs.Request.{IsProper, about_model, asked, files_of, question_by};
ghost use Rattle.mono_top.specs.Starts.{StartsFiles, StartsLater};

use crate::between::{max_flow, max_tension};
use crate::check::check;
use crate::command::{Command, Task, command_of};
use crate::convert::convert;
use crate::feasible::feasible;
use crate::fetch::{FetchedModel, fetch_model};
use crate::lines;
use crate::pieces::pieces;
use crate::reply::Reply;
use crate::resolve::resolve;
use crate::show_curve::show_curve;
use crate::show_tableau::show_tableau;
use crate::solve::solve;
use crate::status::Status;
use crate::transport::transport;
use crate::trial::trial;
use model_text::Model;
use mono_curve::Steps;
use outside_io::Shelf;
use std::alloc::{AllocError, Global};
use std::sync::ledger::Ledger;

/// The reply, and what its status says of the request and of the files.
pub(crate) fn reply_to<S: Shelf, L: Ledger>(
    alloc: Global,
    words: &[String],
    shelf: &mut S,
    steps: &mut Steps<L>,
) -> Result<Reply, AllocError>
    ensures replies { Replies (asked words.now)
        (since (S.seen shelf.old) (S.seen shelf.new)) result }
    ensures due { IfOk result (λ reply.
        IsDue (asked words.now) (since (S.seen shelf.old) (S.seen shelf.new)) reply.status) }
    ensures readings { CountsReadings (asked words.now)
        (S.seen shelf.old).holds steps.old steps.new }
    ensures untouched { files_of (asked words.now) ≡ [] → shelf.new ≡ shelf.old }
    ensures starts { StartsFiles (asked words.now)
        (since (S.seen shelf.old) (S.seen shelf.new)) (IsErr result) }
    ensures moves { Moves (S.seen shelf.old) (S.seen shelf.new) }
{
    Ok(do_command(alloc, words, shelf, steps)?)
}

fn do_command<S: Shelf, L: Ledger>(
    alloc: Global,
    words: &[String],
    shelf: &mut S,
    steps: &mut Steps<L>,
) -> Result<Reply, AllocError>
    ensures replies { Replies (asked words.now)
        (since (S.seen shelf.old) (S.seen shelf.new)) result }
    ensures readings { CountsReadings (asked words.now)
        (S.seen shelf.old).holds steps.old steps.new }
    ensures untouched { files_of (asked words.now) ≡ [] → shelf.new ≡ shelf.old }
    ensures starts { StartsFiles (asked words.now)
        (since (S.seen shelf.old) (S.seen shelf.new)) (IsErr result) }
    ensures moves { Moves (S.seen shelf.old) (S.seen shelf.new) }
{
    match command_of(words) {
        Some(Command::OnModel { model, task }) => Ok(of_model(alloc, shelf, model, task, steps)?),
        Some(Command::Trial { number }) => Ok(trial(alloc, number, steps)?),
        Some(Command::Transport { table }) => Ok(transport(alloc, shelf, table, steps)?),
        None => Ok(Reply::refusal(Status::Usage, lines::usage())),
    }
}

/// Fetches the model, and answers what is asked about it.
fn of_model<S: Shelf, L: Ledger>(
    alloc: Global,
    shelf: &mut S,
    name: &str,
    task: Task,
    steps: &mut Steps<L>,
) -> Result<Reply, AllocError>
    requires proper { IsProper (question_by task) }
    ensures replies { Replies (Some (about_model name.now (question_by task.entry)))
        (since (S.seen shelf.old) (S.seen shelf.new)) result }
    ensures readings { ReadsWithin name.now (question_by task.entry)
        (S.seen shelf.old).holds steps.old steps.new }
    ensures starts { StartsFiles (Some (about_model name.now (question_by task.entry)))
        (since (S.seen shelf.old) (S.seen shelf.new)) (IsErr result) }
    ensures moves { Moves (S.seen shelf.old) (S.seen shelf.new) }
{
    match fetch_model(alloc, shelf, name)? {
        FetchedModel::Model(model) => Ok(answer(alloc, shelf, &model, task, steps)?),
        FetchedModel::Refused(reply) => Ok(reply),
    }
}

/// A further command is one more arm.
fn answer<S: Shelf, L: Ledger>(
    alloc: Global,
    shelf: &mut S,
    model: &Model,
    task: Task,
    steps: &mut Steps<L>,
) -> Result<Reply, AllocError>
    requires proper { IsProper (question_by task) }
    ensures answers { RepliesWith
        (AnswersModel (question_by task.entry) (since (S.seen shelf.old) (S.seen shelf.new))
        model.now.scale model.now.entries) result }
    ensures readings { ReadsCurves (question_by task.entry) model.now.entries steps.old steps.new }
    ensures changes { ForSome (S.seen shelf.old).holds (λ files.
        ReadsChanges (question_by task.entry) files model.now.scale model.now.entries steps.old steps.new) }
    ensures later { StartsLater (question_by task.entry) model.now.entries (S.seen shelf.old) (S.seen shelf.new) }
    ensures moves { Moves (S.seen shelf.old) (S.seen shelf.new) }
{
    match task {
        Task::Solve => Ok(solve(alloc, model, steps)?),
        Task::Check { certificate } => Ok(check(alloc, shelf, model, certificate)?),
        Task::Pieces { certificate } => Ok(pieces(alloc, shelf, model, certificate)?),
        Task::Resolve { changes } => Ok(resolve(alloc, shelf, model, changes, steps)?),
        Task::Feasible => Ok(feasible(alloc, model, steps)?),
        Task::Curve { arc } => Ok(show_curve(alloc, model, arc)?),
        Task::Tableau => Ok(show_tableau(alloc, model)?),
        Task::MaxFlow { from, to } => Ok(max_flow(alloc, model, from, to, steps)?),
        Task::MaxTension { from, to } => Ok(max_tension(alloc, model, from, to, steps)?),
        Task::Convert { to } => Ok(convert(alloc, model, to)?),
    }
}
