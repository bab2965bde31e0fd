// The lines that refuse.
ghost use Rattle.std.specs.Prelude.{◌≡◌, IfOk};
ghost use Rattle.mono_top.specs.Lines.{usage_line, unknown_arc_line, unknown_node_line, too_big_line, not_converted_line, no_flow_line, missing_line, read_fault_line, too_long_line, word_of, fault_line, model_line, changes_line};

use itoa::Buffer;
use model_text::FaultWord;
use outside_io::ByteText;
use std::alloc::{AllocError, Global};

/// Which of the files among a command's words a line is about.
#[derive(Clone, Copy)]
pub(crate) enum Place {
    First,
    Second,
}

pub(crate) fn usage() -> &'static [u8]
    ensures { result.now ≡ usage_line }
{
    b"usage: monotropic COMMAND WORDS\n"
}

pub(crate) fn unknown_arc() -> &'static [u8]
    ensures { result.now ≡ unknown_arc_line }
{
    b"unknown arc\n"
}

pub(crate) fn unknown_node() -> &'static [u8]
    ensures { result.now ≡ unknown_node_line }
{
    b"unknown node\n"
}

pub(crate) fn too_big() -> &'static [u8]
    ensures { result.now ≡ too_big_line }
{
    b"too big\n"
}

pub(crate) fn not_converted() -> &'static [u8]
    ensures { result.now ≡ not_converted_line }
{
    b"not converted\n"
}

pub(crate) fn no_flow() -> &'static [u8]
    ensures { result.now ≡ no_flow_line }
{
    b"no flow\n"
}

pub(crate) fn missing(place: Place) -> &'static [u8]
    ensures { result.now ≡ missing_line place }
{
    match place {
        Place::First => b"missing file 1\n",
        Place::Second => b"missing file 2\n",
    }
}

pub(crate) fn read_fault(place: Place) -> &'static [u8]
    ensures { result.now ≡ read_fault_line place }
{
    match place {
        Place::First => b"read fault file 1\n",
        Place::Second => b"read fault file 2\n",
    }
}

pub(crate) fn too_long(place: Place) -> &'static [u8]
    ensures { result.now ≡ too_long_line place }
{
    match place {
        Place::First => b"too long file 1\n",
        Place::Second => b"too long file 2\n",
    }
}

/// The word that is printed for a fault.
fn word_of(word: FaultWord) -> &'static [u8]
    ensures { result.now ≡ word_of word }
{
    match word {
        FaultWord::Utf8 => b"utf8",
        FaultWord::Header => b"header",
        FaultWord::Keyword => b"word",
        FaultWord::Name => b"name",
        FaultWord::Number => b"number",
        FaultWord::Limit => b"limit",
        FaultWord::Shape => b"shape",
        FaultWord::Order => b"order",
        FaultWord::Twice => b"twice",
        FaultWord::Unknown => b"unknown",
        FaultWord::Loop => b"loop",
    }
}

pub(crate) fn model_line(alloc: Global, line: u32, word: FaultWord) -> Result<ByteText, AllocError>
    ensures { IfOk result (λ text. text ≡ model_line line word) }
{
    fault_line(alloc, b"model line ", line, word)
}

pub(crate) fn changes_line(
    alloc: Global,
    line: u32,
    word: FaultWord,
) -> Result<ByteText, AllocError>
    ensures { IfOk result (λ text. text ≡ changes_line line word) }
{
    fault_line(alloc, b"changes line ", line, word)
}

fn fault_line(
    alloc: Global,
    opening: &[u8],
    line: u32,
    word: FaultWord,
) -> Result<ByteText, AllocError>
    ensures { IfOk result (λ text. text ≡ fault_line opening.now line word) }
{
    let mut out = Vec::from_slice(alloc, opening)?;
    out.extend_from_slice(Buffer::new().format(line).as_bytes())?;
    out.extend_from_slice(b": ")?;
    out.extend_from_slice(word_of(word))?;
    out.extend_from_slice(b"\n")?;
    Ok(ByteText::of_vec(out))
}
