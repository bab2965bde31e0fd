// The words of a line.
ghost use Rattle.std.specs.Prelude.{◌≡◌, map, IfOk};
ghost use Rattle.std.specs.Str.Lines.{strip_carriage_return};
ghost use Rattle.model_text.specs.Lines.{content, is_blank, line_words};

use crate::bytes::cut;
use std::alloc::{AllocError, Global};

/// The words, in one table; each is a piece of the line.
pub fn words_of(alloc: Global, line: &[u8]) -> Result<Vec<&[u8]>, AllocError>
    ensures { IfOk result (λ words. map (λ word. word.now) words.items ≡ line_words line.now) }
{
    content(line)
        .split(|byte| is_blank(*byte))
        .filter(|piece| !piece.is_empty())
        .collect(alloc)
}

fn is_blank(byte: u8) -> bool
    ensures { result ≡ is_blank byte }
{
    byte == b' ' || byte == b'\t'
}

/// The line without a carriage return at its end, and then without its comment.
fn content(line: &[u8]) -> &[u8]
    ensures { result.now ≡ content line.now }
{
    cut(without_return(line), b'#').0
}

fn without_return(line: &[u8]) -> &[u8]
    ensures { result.now ≡ strip_carriage_return line.now }
{
    match line {
        [rest @ .., b'\r'] => rest,
        _ => line,
    }
}
