// Steps, marks and nodes as words of a region.
ghost use Rattle.std.specs.Prelude.{◌≡◌};
ghost use Rattle.painted_search.specs.StepWords.{word_of, label_of, step_of, index_of, mark_of};

use theory::{ArcId, Step};

// Words keep the lowest 32 bits of a number.
const NUMBERS: u64 = 1 << 32;

/// The step as a word.
pub(crate) fn word_of(step: Step) -> i64
    ensures { result ≡ word_of step }
{
    let place = i64::from(step.arc.0) + 1;
    if step.forward { place } else { -place }
}

/// The step that the word stands for.
pub(crate) fn label_of(word: i64) -> Option<Step>
    ensures { result ≡ label_of word }
{
    let place = word.unsigned_abs();
    if place == 0 {
        return None;
    }
    Some(Step {
        arc: ArcId(((place - 1) % NUMBERS) as u32),
        forward: word > 0,
    })
}

/// The step that the word stands for, where it stands for one.
pub(crate) fn step_of(word: i64) -> Step
    ensures { result ≡ step_of word }
{
    match label_of(word) {
        Some(step) => step,
        None => Step {
            arc: ArcId(0),
            forward: true,
        },
    }
}

/// Whether the word stands for a mark.
pub(crate) fn mark_of(word: i64) -> bool
    ensures { result ≡ mark_of word }
{
    word != 0
}

/// The number that the word stands for.
pub(crate) fn index_of(word: i64) -> u32
    ensures { result ≡ index_of word }
{
    (word.unsigned_abs() % NUMBERS) as u32
}
