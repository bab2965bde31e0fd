// A writer, as standard output is one, as a sink.
ghost use Rattle.std.specs.Prelude.{◌≡◌, ◌<◌, None, length};
ghost use Rattle.outside_io.specs.Counts.{Rose, Counts};
ghost use Rattle.outside_io.specs.Sink.{WritesWithin};
ghost use Rattle.outside_io.specs.StdSink.{PassesOn, WritesThrough};

use crate::sink::{Put, Sink};
use std::io::{self, Write};

/// A writer that is flushed after each write. It tells nothing of the bytes: a fault may come after some of them have
/// gone to the writer.
#[derive(Drop)]
pub struct StdSink<W: Write> {
    pub writer: W,
    faults: u64,
}

impl<W: Write> StdSink<W> {
    pub fn new(writer: W) -> Self
        ensures writer { result.writer ≡ writer }
        ensures faults { ⟦<StdSink<W> as Sink>⟧.faults result ≡ 0 }
    {
        StdSink { writer, faults: 0 }
    }
}

impl<W: Write> Sink for StdSink<W> {
    ghost written = { λ _. None };

    ghost sure = { λ _. None };

    ghost faults = { λ s. s.faults };

    /// A write that takes no byte, and a flush that fails, are faults too.
    fn write(&mut self, part: &[u8]) -> Put
        requires { 0 < length part.now }
        ensures bound { WritesWithin result (length part.now) }
        ensures passed { PassesOn result (W.contents self.old.writer) (W.contents self.new.writer) part.now }
        ensures fault { result ≡ Put.Fault → Rose (⟦<StdSink<W> as Sink>⟧.faults self.old) (⟦<StdSink<W> as Sink>⟧.faults self.new) }
        ensures faults { Counts (⟦<StdSink<W> as Sink>⟧.faults self.old) (⟦<StdSink<W> as Sink>⟧.faults self.new) }
    {
        match write_through(&mut self.writer, part) {
            Ok(count) if count > 0 => Put::Took(count),
            _ => {
                self.faults = self.faults.saturating_add(1);
                Put::Fault
            }
        }
    }
}

/// One write and its flush.
fn write_through<W: Write>(writer: &mut W, part: &[u8]) -> io::Result<usize>
    ensures { WritesThrough result (W.contents writer.old) (W.contents writer.new) part.now }
{
    let count = writer.write(part)?;
    writer.flush()?;
    Ok(count)
}
