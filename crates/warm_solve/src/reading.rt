// Reading a changes text.
ghost use Rattle.std.specs.Prelude.{◌≡◌, ◌≤◌, ◌^◌, ◌||◌, ◌++◌, length, IfOk, IfErr, OnOk};
ghost use Rattle.std.specs.Str.{is_utf8};
ghost use Rattle.model_text.specs.Lines.{line_words};
ghost use Rattle.model_text.specs.LineParts.{texts, Passes};
ghost use Rattle.model_text.specs.ModelText.{has_words};
ghost use Rattle.warm_solve.specs.ChangesText.{Spells, is_header, line_tests, changes_in};
ghost use Rattle.warm_solve.specs.ChangesReading.{IsRightError, error_at};

use crate::change_line::read_change;
use crate::changes::Changes;
use model_text::{FaultWord, Model, PartFault, are_same, cut, words_of};
use std::alloc::Global;
use std::str;
use thiserror::Error;

/// Why a text gave no changes.
#[derive(Clone, Copy, PartialEq, Eq, Debug, Error)]
pub enum ChangesError {
    /// The first bad line, counted from 1, and the word for the first test that it fails.
    #[error("line {line} is no line of a changes text")]
    Fault { line: u32, word: FaultWord },
    #[error("out of memory")]
    NoMemory,
}

/// The changes of the model that the text spells, with numbers at the model's scale. It is read once from the front.
pub fn read_changes(alloc: Global, m: &Model, text: &[u8]) -> Result<Changes, ChangesError>
    requires { length text.now ≤ 2 ^ 26 }
    ensures changes { IfOk result (λ changes. Spells m.now.scale m.now.entries text.now changes) }
    ensures error { IfErr result (IsRightError m.now.scale m.now.entries text.now) }
{
    let mut reader = Reader {
        changes: Changes::new(alloc),
        begun: false,
    };
    let mut rest = text;
    let mut count: u32 = 0;
    while !rest.is_empty() {
        let (line, after) = cut(rest, b'\n');
        count += 1;
        match reader.read_line(alloc, m, line, count) {
            Ok(()) => rest = after,
            Err(fault) => return Err(error_at(count, fault)),
        }
    }
    let Reader { changes, begun } = reader;
    if begun {
        Ok(changes)
    } else {
        Err(ChangesError::Fault {
            line: count + 1,
            word: FaultWord::Header,
        })
    }
}

fn error_at(line: u32, fault: PartFault) -> ChangesError
    ensures { result ≡ error_at line fault }
{
    match fault {
        PartFault::Word(word) => ChangesError::Fault { line, word },
        PartFault::NoMemory => ChangesError::NoMemory,
    }
}

/// What the lines so far have made.
#[derive(Drop)]
struct Reader {
    changes: Changes,
    /// Whether there was a header.
    begun: bool,
}

impl Reader {
    fn read_line(
        &mut self,
        alloc: Global,
        m: &Model,
        line: &[u8],
        number: u32,
    ) -> Result<(), PartFault>
        ensures tests { Passes (line_tests m.now.scale m.now.entries self.old.begun (length self.old.changes) line.now) result }
        ensures begun { OnOk result (self.new.begun ≡ (self.old.begun || has_words line.now)) }
        ensures changes { OnOk result (self.new.changes
            ≡ self.old.changes ++ changes_in m.now.scale m.now.entries number (line_words line.now)) }
    {
        if !is_text(line) {
            return Err(PartFault::Word(FaultWord::Utf8));
        }
        let Ok(words) = words_of(alloc, line) else {
            return Err(PartFault::NoMemory);
        };
        if words.is_empty() {
            return Ok(());
        }
        if self.begun {
            return read_change(alloc, m, &mut self.changes, &words, number);
        }
        if !is_header(&words) {
            return Err(PartFault::Word(FaultWord::Header));
        }
        self.begun = true;
        Ok(())
    }
}

fn is_text(line: &[u8]) -> bool
    ensures { result ≡ is_utf8 line.now }
{
    str::from_utf8(line).is_ok()
}

fn is_header(words: &[&[u8]]) -> bool
    ensures { result ≡ is_header (texts words.now) }
{
    match words {
        [keyword, version] => are_same(keyword, b"changes") && are_same(version, b"1"),
        _ => false,
    }
}
