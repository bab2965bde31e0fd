// A sink in memory, whose failing calls are chosen.
ghost use Rattle.std.specs.Prelude.{◌≡◌, ◌<◌, IfOk, Some, None, length};
ghost use Rattle.outside_io.specs.MemorySink.{no_memory_bytes, WritesIn};

use crate::failing::Failing;
use crate::sink::{Put, Sink};
use std::alloc::{AllocError, Global};
use std::marker::Model;

/// Takes bytes into memory, at most so many a call and so many in all.
#[derive(Drop)]
pub struct MemorySink {
    bytes: Vec<u8>,
    room: usize,
    failing: Failing,
    most: usize,
    faults: u64,
}

impl Model for MemorySink {
    ghost use Rattle.std.specs.Prelude.{◌+◌, ◌<◌, ◌≤◌, vec_len, vec_capacity};
    ghost use Rattle.outside_io.specs.MemorySink.{MemoryBytes};

    ghost Value = { MemoryBytes };

    ghost view = { λ s. record {
      written = s.bytes.items;
      room = s.room;
      fails = s.failing.listed.items;
      calls = s.failing.calls;
      most = s.most;
      faults = s.faults;
    } };

    // The room was taken at the start.
    ghost invariant = { λ s. (0 < s.most) × (vec_len s.bytes + s.room ≤ vec_capacity s.bytes) };
}

impl MemorySink {
    /// Takes the room for `room` bytes, so that no write takes memory.
    ///
    /// `fails` are the numbers of the writes that fail, counted from 0, and `most` is how many bytes one takes at
    /// most.
    pub fn of(alloc: Global, fails: &[u64], most: usize, room: usize) -> Result<Self, AllocError>
        requires { 0 < most }
        ensures { IfOk result (λ sink. sink ≡ no_memory_bytes fails.now most room) }
    {
        let failing = Failing::of(alloc, fails)?;
        let bytes = Vec::with_capacity(alloc, room)?;
        Ok(MemorySink {
            bytes,
            room,
            failing,
            most,
            faults: 0,
        })
    }

    /// What was written.
    pub fn bytes(&self) -> &[u8]
        ensures { result.now ≡ self.now.written }
    {
        self.bytes.as_slice()
    }
}

impl Sink for MemorySink {
    ghost written = { λ s. Some s.written };

    ghost sure = { λ _. None };

    ghost faults = { λ s. s.faults };

    fn write(&mut self, part: &[u8]) -> Put
        requires { 0 < length part.now }
        ensures exactly { WritesIn self.old part.now result self.new }
    {
        if self.failing.next_fails() {
            self.faults = self.faults.saturating_add(1);
            return Put::Fault;
        }
        if self.room == 0 {
            self.faults = self.faults.saturating_add(1);
            return Put::Fault;
        }
        let count = part.len().min(self.room).min(self.most);
        match self.bytes.extend_from_slice(&part[..count]) {
            Ok(()) => {
                self.room -= count;
                Put::Took(count)
            }
            Err(_) => unreachable!(),
        }
    }
}
