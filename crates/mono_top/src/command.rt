// The words of a call, as a command.
ghost use Rattle.std.specs.Prelude.{◌≡◌, ◌≤◌, ◌∷◌, [], IfSome, option_map};
ghost use Rattle.model_text.specs.ModelText.{decimals_of, scale_by};
ghost use Rattle.model_text.specs.Scale.{IsScale, decimals_most};
ghost use Rattle.mono_top.specs.Request.{IsProperRequest, about_model, about_trial, asked, convert, request_of, request_by};
ghost use Rattle.mono_top.specs.TrialNumber.{trial_number};

use crate::trial_number::trial_number;
use model_text::Scale;

/// What is asked for: a task on the model of a file, the trial model of a number, which names no file, or the plan of a table.
#[derive(Clone, Copy)]
pub(crate) enum Command<'a> {
    OnModel { model: &'a str, task: Task<'a> },
    Trial { number: u64 },
    Transport { table: &'a str },
}

/// What is to be done once the model has been read.
#[derive(Clone, Copy)]
pub(crate) enum Task<'a> {
    Solve,
    Check { certificate: &'a str },
    Pieces { certificate: &'a str },
    Resolve { changes: &'a str },
    Feasible,
    Curve { arc: &'a str },
    Tableau,
    MaxFlow { from: &'a str, to: &'a str },
    MaxTension { from: &'a str, to: &'a str },
    Convert { to: Scale },
}

/// The words' own bytes serve as names, so this takes no memory.
pub(crate) fn command_of(words: &[String]) -> Option<Command<'_>>
    ensures asked { option_map request_by result ≡ asked words.now }
    ensures proper { IfSome result (λ command. IsProperRequest (request_by command)) }
{
    match words {
        [command, word] => with_one(command.as_str(), word.as_str()),
        [command, model, other] => with_two(command.as_str(), model.as_str(), other.as_str()),
        [command, model, one, other] => with_three(
            command.as_str(),
            model.as_str(),
            one.as_str(),
            other.as_str(),
        ),
        _ => None,
    }
}

/// The commands with one word.
fn with_one<'a>(command: &str, word: &'a str) -> Option<Command<'a>>
    ensures asked { option_map request_by result ≡ request_of (command.now ∷ word.now ∷ []) }
    ensures proper { IfSome result (λ command. IsProperRequest (request_by command)) }
{
    if command == "trial" {
        return trial_of(word);
    }
    if command == "transport" {
        return Some(Command::Transport { table: word });
    }
    let task = if command == "solve" {
        Task::Solve
    } else if command == "feasible" {
        Task::Feasible
    } else if command == "tableau" {
        Task::Tableau
    } else {
        return None;
    };
    Some(Command::OnModel { model: word, task })
}

fn trial_of(word: &str) -> Option<Command<'_>>
    ensures asked { option_map request_by result ≡ option_map about_trial (trial_number word.now) }
    ensures proper { IfSome result (λ command. IsProperRequest (request_by command)) }
{
    match trial_number(word) {
        Some(number) => Some(Command::Trial { number }),
        None => None,
    }
}

/// The commands with two words.
fn with_two<'a>(command: &str, model: &'a str, other: &'a str) -> Option<Command<'a>>
    ensures asked { option_map request_by result ≡ request_of (command.now ∷ model.now ∷ other.now ∷ []) }
    ensures proper { IfSome result (λ command. IsProperRequest (request_by command)) }
{
    let task = if command == "check" {
        Task::Check { certificate: other }
    } else if command == "pieces" {
        Task::Pieces { certificate: other }
    } else if command == "resolve" {
        Task::Resolve { changes: other }
    } else if command == "curve" {
        Task::Curve { arc: other }
    } else {
        return None;
    };
    Some(Command::OnModel { model, task })
}

/// The commands with three words.
fn with_three<'a>(
    command: &str,
    model: &'a str,
    one: &'a str,
    other: &'a str,
) -> Option<Command<'a>>
    ensures asked { option_map request_by result ≡ request_of (command.now ∷ model.now ∷ one.now ∷ other.now ∷ []) }
    ensures proper { IfSome result (λ command. IsProperRequest (request_by command)) }
{
    if command == "convert" {
        return convert_of(model, one, other);
    }
    if one == other {
        return None;
    }
    let (from, to) = (one, other);
    let task = if command == "maxflow" {
        Task::MaxFlow { from, to }
    } else if command == "maxtension" {
        Task::MaxTension { from, to }
    } else {
        return None;
    };
    Some(Command::OnModel { model, task })
}

fn convert_of<'a>(model: &'a str, flow: &str, tension: &str) -> Option<Command<'a>>
    ensures asked { option_map request_by result
        ≡ option_map (λ to. about_model model.now (convert to)) (scale_by (decimals_of flow.now) (decimals_of tension.now)) }
    ensures proper { IfSome result (λ command. IsProperRequest (request_by command)) }
{
    match scale_of(flow, tension) {
        Some(to) => Some(Command::OnModel {
            model,
            task: Task::Convert { to },
        }),
        None => None,
    }
}

/// The scale of so many decimals of flows and of tensions.
fn scale_of(flow: &str, tension: &str) -> Option<Scale>
    ensures is { result ≡ scale_by (decimals_of flow.now) (decimals_of tension.now) }
    ensures valid { IfSome result IsScale }
{
    match (
        decimals_of(flow.as_bytes()),
        decimals_of(tension.as_bytes()),
    ) {
        (Some(flow), Some(tension)) => Scale::of(flow, tension),
        _ => None,
    }
}

/// The count of decimals that a word asks for: one digit, which isn't too great.
fn decimals_of(word: &[u8]) -> Option<u8>
    ensures is { result ≡ decimals_of word.now }
    ensures most { IfSome result (λ decimals. decimals ≤ decimals_most) }
{
    match word {
        [digit @ b'0'..=b'6'] => Some(*digit - b'0'),
        _ => None,
    }
}
