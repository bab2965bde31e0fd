// A source of files in memory, whose failing calls are chosen.
ghost use Rattle.std.specs.Prelude.{◌≡◌, ℕ, ◌-◌, ◌^◌, ◌<◌, List, [], length, IfOk, OnOk, OnErr, Some, None, IsTrue, false, nat_eq, if◌then◌else◌};
ghost use Rattle.std.specs.Cmp.Lexicographic.{pointwise};
ghost use Rattle.outside_io.specs.Files.{file_of, with_file};
ghost use Rattle.outside_io.specs.MemoryShelf.{no_memory_files, StartsIn, ReadsIn};

use crate::byte_text::ByteText;
use crate::failing::Failing;
use crate::files::{Place, index_of, rest_at};
use crate::shelf::{Got, Opened, Shelf};
use std::alloc::{AllocError, Global};
use std::marker::Model;

/// Holds files in memory, and reads at most so many bytes a call.
#[derive(Drop)]
pub struct MemoryShelf {
    files: Vec<(ByteText, ByteText)>,
    place: Option<Place>,
    failing: Failing,
    most: usize,
    faults: u64,
    misses: u64,
}

impl Model for MemoryShelf {
    ghost use Rattle.std.specs.Prelude.{◌<◌, is_some};
    ghost use Rattle.outside_io.specs.Files.{files_of};
    ghost use Rattle.outside_io.specs.MemoryShelf.{MemoryFiles, memory_files_code};

    ghost Value = { MemoryFiles };

    ghost coded = { memory_files_code };

    ghost use Rattle.outside_io.specs.Places.{left_at};

    ghost view = { λ s. record {
      holds = files_of s.files.items;
      started = is_some s.place;
      rest = left_at s.files.items s.place;
      fails = s.failing.listed.items;
      calls = s.failing.calls;
      most = s.most;
      faults = s.faults;
      misses = s.misses;
    } };

    ghost invariant = { λ s. 0 < s.most };
}

impl MemoryShelf {
    /// A source that holds no file.
    ///
    /// `fails` are the numbers of the starts and reads that fail, counted from 0 over both, and `most` is how many
    /// bytes one read moves at most.
    pub fn of(alloc: Global, fails: &[u64], most: usize) -> Result<Self, AllocError>
        requires { 0 < most }
        ensures fresh { IfOk result (λ shelf. shelf ≡ no_memory_files fails.now most) }
        ensures empty { IfOk result (λ shelf. (name : List ℕ) → file_of shelf.holds name ≡ None) }
    {
        let failing = Failing::of(alloc, fails)?;
        Ok(MemoryShelf {
            files: Vec::new(alloc),
            place: None,
            failing,
            most,
            faults: 0,
            misses: 0,
        })
    }

    /// A source that holds no file, of which no call fails, and whose reads move all that there is room for.
    pub(crate) fn unfailing(alloc: Global) -> Self
        ensures fresh { result ≡ no_memory_files [] (2 ^ 64 - 1) }
        ensures empty { (name : List ℕ) → file_of result.holds name ≡ None }
    {
        MemoryShelf {
            files: Vec::new(alloc),
            place: None,
            failing: Failing::none(alloc),
            most: usize::MAX,
            faults: 0,
            misses: 0,
        }
    }

    /// Adds one file. It is not one of the calls that are counted.
    pub fn put(&mut self, name: &str, bytes: &[u8]) -> Result<(), AllocError>
        requires fresh { file_of self.old.holds name.now ≡ None }
        requires idle { self.old.started ≡ false }
        ensures ok { OnOk result (self.new ≡ record self.old { holds = with_file self.old.holds name.now bytes.now }) }
        ensures err { OnErr result (self.new ≡ self.old) }
        ensures found { OnOk result ((q : List ℕ) → file_of self.new.holds q
            ≡ (if pointwise nat_eq q name.now then Some bytes.now else file_of self.old.holds q)) }
    {
        let alloc = *self.files.allocator();
        let name = ByteText::of_vec(Vec::from_slice(alloc, name.as_bytes())?);
        let bytes = ByteText::of_vec(Vec::from_slice(alloc, bytes)?);
        self.files.push((name, bytes))?;
        Ok(())
    }
}

impl Shelf for MemoryShelf {
    ghost seen = { λ s. record {
      holds = Some s.holds;
      started = s.started;
      rest = Some s.rest;
      log = None;
      misses = s.misses;
      faults = s.faults;
    } };

    fn start(&mut self, name: &str) -> Opened
        ensures exactly { StartsIn self.old name.now result self.new }
    {
        self.place = None;
        if self.failing.next_fails() {
            self.faults = self.faults.saturating_add(1);
            return Opened::Fault;
        }
        match index_of(self.files.as_slice(), name) {
            Some(file) => {
                self.place = Some(Place { file, at: 0 });
                Opened::Ready
            }
            None => {
                self.misses = self.misses.saturating_add(1);
                Opened::Missing
            }
        }
    }

    fn read(&mut self, buf: &mut [u8]) -> Got
        requires started { IsTrue self.old.started }
        requires room { 0 < length buf.old }
        ensures exactly { ReadsIn self.old result self.new buf.new }
    {
        if self.failing.next_fails() {
            self.faults = self.faults.saturating_add(1);
            return Got::Fault;
        }
        let Some(place) = self.place else {
            unreachable!()
        };
        let rest = rest_at(self.files.as_slice(), place);
        if rest.is_empty() {
            return Got::End;
        }
        let count = rest.len().min(buf.len()).min(self.most);
        buf[..count].copy_from_slice(&rest[..count]);
        self.place = Some(Place {
            file: place.file,
            at: place.at + count,
        });
        Got::Bytes(count)
    }

    ghost told = { λ _ told. told };
}
