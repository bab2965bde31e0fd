// The line that refuses a table.
ghost use Rattle.std.specs.Prelude.{◌≡◌, IfOk};
ghost use Rattle.mono_top.specs.TableLines.{table_word, table_line};

use itoa::Buffer;
use outside_io::ByteText;
use std::alloc::{AllocError, Global};
use transport_front::TableWord;

/// The line for the first bad line of a table.
pub(crate) fn table_line(alloc: Global, line: u32, word: TableWord) -> Result<ByteText, AllocError>
    ensures { IfOk result (λ text. text ≡ table_line line word) }
{
    let mut out = Vec::from_slice(alloc, b"table line ")?;
    out.extend_from_slice(Buffer::new().format(line).as_bytes())?;
    out.extend_from_slice(b": ")?;
    out.extend_from_slice(table_word(word))?;
    out.extend_from_slice(b"\n")?;
    Ok(ByteText::of_vec(out))
}

/// The word that is printed for a fault.
fn table_word(word: TableWord) -> &'static [u8]
    ensures { result.now ≡ table_word word }
{
    match word {
        TableWord::Utf8 => b"utf8",
        TableWord::Header => b"header",
        TableWord::Keyword => b"word",
        TableWord::Name => b"name",
        TableWord::Number => b"number",
        TableWord::Limit => b"limit",
        TableWord::Order => b"order",
        TableWord::Twice => b"twice",
        TableWord::Unknown => b"unknown",
    }
}
