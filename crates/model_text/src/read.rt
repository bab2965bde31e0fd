// Reading a model text.
ghost use Rattle.std.specs.Prelude.{◌≡◌, ◌≤◌, ◌-◌, ◌^◌, length, map, IfOk, IfErr, IfSome, OnOk};
ghost use Rattle.std.specs.Str.{is_utf8};
ghost use Rattle.model_text.specs.Lines.{line_words};
ghost use Rattle.model_text.specs.ModelText.{Spells, is_header, scale_of, decimals_of, line_tests, words_tests, with_words};
ghost use Rattle.model_text.specs.Scale.{IsScale, decimals_most};
ghost use Rattle.model_text.specs.LineParts.{texts, Passes};
ghost use Rattle.model_text.specs.Reading.{IsRightError, error_at, progress_at, first_stage};

use crate::bytes::{are_same, cut};
use crate::entry::read_entry;
use crate::fault::{FaultWord, PartFault};
use crate::model::Model;
use crate::scale::Scale;
use crate::words::words_of;
use std::alloc::Global;
use std::str;
use thiserror::Error;

/// Why a text gave no model.
#[derive(Clone, Copy, PartialEq, Eq, Debug, Error)]
pub enum ModelError {
    /// The first bad line, counted from 1, and the word for the first test that it fails.
    #[error("line {line} is no line of a model text")]
    Fault { line: u32, word: FaultWord },
    #[error("out of memory")]
    NoMemory,
}

/// The model that the text spells. It is read once from the front, in time linear in its length: names are looked up
/// in the model's tables.
pub fn read_model(alloc: Global, text: &[u8]) -> Result<Model, ModelError>
    requires { length text.now ≤ 2 ^ 26 }
    ensures model { IfOk result (λ model. Spells text.now model.scale model.entries) }
    ensures error { IfErr result (IsRightError text.now) }
{
    let mut reader = Reader {
        stage: Stage::Nothing,
        model: Model::new(alloc),
    };
    let mut rest = text;
    let mut count: u32 = 0;
    while !rest.is_empty() {
        let (line, after) = cut(rest, b'\n');
        count += 1;
        match reader.read_line(alloc, line) {
            Ok(()) => rest = after,
            Err(fault) => return Err(fault.at(count)),
        }
    }
    match reader.stage {
        Stage::Made => Ok(reader.into_model()),
        Stage::Nothing | Stage::Front => Err(ModelError::Fault {
            line: count + 1,
            word: FaultWord::Header,
        }),
    }
}

impl PartFault {
    fn at(self, line: u32) -> ModelError
        ensures { result ≡ error_at line self }
    {
        match self {
            PartFault::Word(word) => ModelError::Fault { line, word },
            PartFault::NoMemory => ModelError::NoMemory,
        }
    }
}

/// How far the text has come.
#[derive(Clone, Copy, PartialEq, Eq)]
enum Stage {
    /// No line has words.
    Nothing,
    /// `network 2` was read, and its decimals are awaited.
    Front,
    /// The lines behind the front go into the model.
    Made,
}

/// What the lines so far have made.
#[derive(Drop)]
struct Reader {
    stage: Stage,
    model: Model,
}

impl Reader {
    fn read_line(&mut self, alloc: Global, line: &[u8]) -> Result<(), PartFault>
        ensures tests { Passes (line_tests (progress_at self.old.stage self.old.model.scale self.old.model.entries) line.now) result }
        ensures progress { OnOk result (progress_at self.new.stage self.new.model.scale self.new.model.entries
            ≡ with_words (progress_at self.old.stage self.old.model.scale self.old.model.entries) (line_words line.now)) }
    {
        if !is_text(line) {
            return Err(PartFault::Word(FaultWord::Utf8));
        }
        let Ok(words) = words_of(alloc, line) else {
            return Err(PartFault::NoMemory);
        };
        if words.is_empty() {
            return Ok(());
        }
        self.read_words(alloc, &words)
    }

    fn read_words(&mut self, alloc: Global, words: &[&[u8]]) -> Result<(), PartFault>
        ensures tests { Passes (words_tests (progress_at self.old.stage self.old.model.scale self.old.model.entries) (texts words.now)) result }
        ensures progress { OnOk result (progress_at self.new.stage self.new.model.scale self.new.model.entries
            ≡ with_words (progress_at self.old.stage self.old.model.scale self.old.model.entries) (texts words.now)) }
    {
        match self.stage {
            Stage::Nothing => {
                let Some(stage) = stage_of(words) else {
                    return Err(PartFault::Word(FaultWord::Header));
                };
                self.stage = stage;
                self.model = Model::new(alloc);
                Ok(())
            }
            Stage::Front => {
                let Some(scale) = scale_of(words) else {
                    return Err(PartFault::Word(FaultWord::Header));
                };
                self.stage = Stage::Made;
                self.model = Model::with_scale(alloc, scale);
                Ok(())
            }
            Stage::Made => read_entry(alloc, &mut self.model, words),
        }
    }

    fn into_model(self) -> Model
        ensures { result ≡ self.model }
    {
        let Reader { model, .. } = self;
        model
    }
}

/// What the first line with words leads to: the model of version 1, or the decimals of version 2.
fn stage_of(words: &[&[u8]]) -> Option<Stage>
    ensures { result ≡ first_stage (texts words.now) }
{
    if is_header(words, 1) {
        Some(Stage::Made)
    } else if is_header(words, 2) {
        Some(Stage::Front)
    } else {
        None
    }
}

fn is_header(words: &[&[u8]], version: u8) -> bool
    requires { version ≤ 9 }
    ensures { result ≡ is_header version (texts words.now) }
{
    match words {
        [keyword, digit] => are_same(keyword, b"network") && are_same(digit, &[b'0' + version]),
        _ => false,
    }
}

/// The scale of the line `decimals F T`.
fn scale_of(words: &[&[u8]]) -> Option<Scale>
    ensures is { result ≡ scale_of (texts words.now) }
    ensures valid { IfSome result IsScale }
{
    match words {
        [keyword, flow, tension] => {
            if !are_same(keyword, b"decimals") {
                return None;
            }
            Some(Scale {
                version: 2,
                flow: decimals_of(flow)?,
                tension: decimals_of(tension)?,
            })
        }
        _ => None,
    }
}

fn decimals_of(word: &[u8]) -> Option<u8>
    ensures is { result ≡ decimals_of word.now }
    ensures most { IfSome result (λ decimals. decimals ≤ decimals_most) }
{
    match word {
        [digit] => {
            if (b'0'..=b'6').contains(digit) {
                Some(*digit - b'0')
            } else {
                None
            }
        }
        _ => None,
    }
}

fn is_text(line: &[u8]) -> bool
    ensures { result ≡ is_utf8 line.now }
{
    str::from_utf8(line).is_ok()
}
