// What a call is to write and how it is to end, decided before the first byte is written.
ghost use Rattle.std.specs.Prelude.{◌≡◌, IfOk};
ghost use Rattle.mono_top.specs.Fetch.{text_of};
ghost use Rattle.mono_top.specs.Lines.{model_line, changes_line};

use crate::lines;
use crate::status::Status;
use model_text::FaultWord;
use outside_io::ByteText;
use std::alloc::{AllocError, Global};

/// A refusal is a line of the program's own, so it takes no memory.
#[derive(Drop)]
pub(crate) enum Text {
    Fixed(&'static [u8]),
    Made(ByteText),
}

#[derive(Drop)]
pub(crate) struct Reply {
    pub status: Status,
    pub text: Text,
}

impl Text {
    pub fn as_slice(&self) -> &[u8]
        ensures { result.now ≡ text_of self.now }
    {
        match self {
            Text::Fixed(line) => line,
            Text::Made(text) => text.as_slice(),
        }
    }
}

impl Reply {
    pub fn refusal(status: Status, line: &'static [u8]) -> Reply
        ensures status { result.status ≡ status }
        ensures text { text_of result.text ≡ line.entry.now }
    {
        Reply {
            status,
            text: Text::Fixed(line),
        }
    }

    /// The line for the first bad line of a model text.
    pub fn bad_line(alloc: Global, line: u32, word: FaultWord) -> Result<Reply, AllocError>
        ensures status { IfOk result (λ reply. reply.status ≡ Status.ModelRefused line word) }
        ensures text { IfOk result (λ reply. text_of reply.text ≡ model_line line word) }
    {
        Ok(Reply {
            status: Status::ModelRefused { line, word },
            text: Text::Made(lines::model_line(alloc, line, word)?),
        })
    }

    /// The same of a changes text.
    pub fn bad_change(alloc: Global, line: u32, word: FaultWord) -> Result<Reply, AllocError>
        ensures status { IfOk result (λ reply. reply.status ≡ Status.ChangesRefused line word) }
        ensures text { IfOk result (λ reply. text_of reply.text ≡ changes_line line word) }
    {
        Ok(Reply {
            status: Status::ChangesRefused { line, word },
            text: Text::Made(lines::changes_line(alloc, line, word)?),
        })
    }
}
