// A sink in memory that fails only where its room is used up.
ghost use Rattle.std.specs.Prelude.{◌≡◌, ◌<◌, IfOk, Some, length};
ghost use Rattle.outside_io.specs.SteadySink.{no_steady_bytes, WritesSteadily};

use crate::memory_sink::MemorySink;
use crate::sink::{Put, Sink};
use std::alloc::{AllocError, Global};
use std::marker::Model;

/// Takes bytes into memory, as many a call as there is room for.
#[derive(Drop)]
pub struct SteadySink {
    sink: MemorySink,
}

impl Model for SteadySink {
    ghost use Rattle.std.specs.Prelude.{◌≡◌, ◌^◌, ◌-◌, []};
    ghost use Rattle.outside_io.specs.SteadySink.{SteadyBytes};

    ghost Value = { SteadyBytes };

    ghost view = { λ s. record {
      written = s.sink.written;
      room = s.sink.room;
      faults = s.sink.faults;
    } };

    ghost invariant = { λ s. (s.sink.fails ≡ []) × (s.sink.most ≡ 2 ^ 64 - 1) };
}

impl SteadySink {
    /// Takes the room for `room` bytes, so that no write takes memory.
    pub fn of(alloc: Global, room: usize) -> Result<Self, AllocError>
        ensures { IfOk result (λ sink. sink ≡ no_steady_bytes room) }
    {
        let sink = MemorySink::of(alloc, &[], usize::MAX, room)?;
        Ok(SteadySink { sink })
    }

    /// What was written.
    pub fn bytes(&self) -> &[u8]
        ensures { result.now ≡ self.now.written }
    {
        self.sink.bytes()
    }
}

impl Sink for SteadySink {
    ghost written = { λ s. Some s.written };

    ghost sure = { λ s. Some s.room };

    ghost faults = { λ s. s.faults };

    fn write(&mut self, part: &[u8]) -> Put
        requires { 0 < length part.now }
        ensures exactly { WritesSteadily self.old part.now result self.new }
    {
        self.sink.write(part)
    }
}
