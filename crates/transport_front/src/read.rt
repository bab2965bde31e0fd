// Reading the text of a table.
ghost use Rattle.std.specs.Prelude.{◌≡◌, ◌≤◌, ◌^◌, ◌||◌, length, IfOk, IfErr, OnOk};
ghost use Rattle.std.specs.Str.{is_utf8};
ghost use Rattle.model_text.specs.Lines.{line_words};
ghost use Rattle.model_text.specs.LineParts.{texts};
ghost use Rattle.model_text.specs.ModelText.{has_words};
ghost use Rattle.transport_front.specs.TableText.{Spells, is_header, line_tests, with_line};
ghost use Rattle.transport_front.specs.Reading.{Passes, IsRightError, error_at};

use crate::entry::read_entry;
use crate::fault::{Refusal, TableWord};
use crate::table::Table;
use model_text::{are_same, cut, words_of};
use std::alloc::Global;
use std::str;
use thiserror::Error;

/// Why a text gave no table.
#[derive(Clone, Copy, PartialEq, Eq, Debug, Error)]
pub enum TableError {
    /// The first bad line, counted from 1, and the word for the first test that it fails.
    #[error("line {line} is no line of a table")]
    Fault { line: u32, word: TableWord },
    #[error("out of memory")]
    NoMemory,
}

/// The table that the text spells. It is read once from the front, in time linear in its length: names are looked up
/// in the table's own tables.
pub fn read_table(alloc: Global, text: &[u8]) -> Result<Table, TableError>
    requires { length text.now ≤ 2 ^ 26 }
    ensures table { IfOk result (λ t. Spells text.now t.table) }
    ensures error { IfErr result (IsRightError text.now) }
{
    let mut reader = Reader {
        table: Table::new(alloc),
        begun: false,
    };
    let mut rest = text;
    let mut count: u32 = 0;
    while !rest.is_empty() {
        let (line, after) = cut(rest, b'\n');
        count += 1;
        match reader.read_line(alloc, line) {
            Ok(()) => rest = after,
            Err(refusal) => return Err(refusal.at(count)),
        }
    }
    let Reader { table, begun } = reader;
    if begun {
        Ok(table)
    } else {
        Err(TableError::Fault {
            line: count + 1,
            word: TableWord::Header,
        })
    }
}

impl Refusal {
    fn at(self, line: u32) -> TableError
        ensures { result ≡ error_at line self }
    {
        match self {
            Refusal::Fault(word) => TableError::Fault { line, word },
            Refusal::NoMemory => TableError::NoMemory,
        }
    }
}

/// What the lines so far have made.
#[derive(Drop)]
struct Reader {
    table: Table,
    /// Whether there was a header.
    begun: bool,
}

impl Reader {
    fn read_line(&mut self, alloc: Global, line: &[u8]) -> Result<(), Refusal>
        ensures tests { Passes (line_tests self.old.begun self.old.table.table line.now) result }
        ensures begun { OnOk result (self.new.begun ≡ (self.old.begun || has_words line.now)) }
        ensures table { OnOk result (self.new.table.table ≡ with_line self.old.table.table (line_words line.now)) }
    {
        if !is_text(line) {
            return Err(Refusal::Fault(TableWord::Utf8));
        }
        let Ok(words) = words_of(alloc, line) else {
            return Err(Refusal::NoMemory);
        };
        if words.is_empty() {
            return Ok(());
        }
        if self.begun {
            return read_entry(alloc, &mut self.table, &words);
        }
        if !is_header(&words) {
            return Err(Refusal::Fault(TableWord::Header));
        }
        self.begun = true;
        Ok(())
    }
}

fn is_text(line: &[u8]) -> bool
    ensures { result ≡ is_utf8 line.now }
{
    str::from_utf8(line).is_ok()
}

fn is_header(words: &[&[u8]]) -> bool
    ensures { result ≡ is_header (texts words.now) }
{
    match words {
        [keyword, version] => are_same(keyword, b"transport") && are_same(version, b"1"),
        _ => false,
    }
}
