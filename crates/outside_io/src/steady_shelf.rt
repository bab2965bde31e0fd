// A source of files in memory that never fails.
ghost use Rattle.std.specs.Prelude.{◌≡◌, ℕ, ◌<◌, List, length, OnOk, OnErr, Some, None, IsTrue, false, nat_eq, if◌then◌else◌};
ghost use Rattle.std.specs.Cmp.Lexicographic.{pointwise};
ghost use Rattle.outside_io.specs.Files.{file_of, with_file};
ghost use Rattle.outside_io.specs.SteadyShelf.{no_steady_files, StartsSteadily, ReadsSteadily};

use crate::memory_shelf::MemoryShelf;
use crate::shelf::{Got, Opened, Shelf};
use std::alloc::{AllocError, Global};
use std::marker::Model;

/// Holds files in memory. Each start of a file that it holds is ready, and one read moves all that there is room for.
#[derive(Drop)]
pub struct SteadyShelf {
    shelf: MemoryShelf,
}

impl Model for SteadyShelf {
    ghost use Rattle.std.specs.Prelude.{◌≡◌, ◌^◌, ◌-◌, []};
    ghost use Rattle.outside_io.specs.SteadyShelf.{SteadyFiles, steady_files_code};

    ghost Value = { SteadyFiles };

    ghost coded = { steady_files_code };

    ghost view = { λ s. record {
      holds = s.shelf.holds;
      started = s.shelf.started;
      rest = s.shelf.rest;
      misses = s.shelf.misses;
    } };

    ghost invariant = { λ s. (s.shelf.fails ≡ []) × (s.shelf.most ≡ 2 ^ 64 - 1) };
}

impl SteadyShelf {
    /// A source that holds no file.
    pub fn of(alloc: Global) -> Self
        ensures fresh { result ≡ no_steady_files }
        ensures empty { (name : List ℕ) → file_of result.holds name ≡ None }
    {
        SteadyShelf {
            shelf: MemoryShelf::unfailing(alloc),
        }
    }

    /// Adds one file.
    pub fn put(&mut self, name: &str, bytes: &[u8]) -> Result<(), AllocError>
        requires fresh { file_of self.old.holds name.now ≡ None }
        requires idle { self.old.started ≡ false }
        ensures ok { OnOk result (self.new ≡ record self.old { holds = with_file self.old.holds name.now bytes.now }) }
        ensures err { OnErr result (self.new ≡ self.old) }
        ensures found { OnOk result ((q : List ℕ) → file_of self.new.holds q
            ≡ (if pointwise nat_eq q name.now then Some bytes.now else file_of self.old.holds q)) }
    {
        self.shelf.put(name, bytes)
    }
}

impl Shelf for SteadyShelf {
    ghost seen = { λ s. record {
      holds = Some s.holds;
      started = s.started;
      rest = Some s.rest;
      log = None;
      misses = s.misses;
      faults = 0;
    } };

    fn start(&mut self, name: &str) -> Opened
        ensures exactly { StartsSteadily self.old name.now result self.new }
    {
        self.shelf.start(name)
    }

    fn read(&mut self, buf: &mut [u8]) -> Got
        requires started { IsTrue self.old.started }
        requires room { 0 < length buf.old }
        ensures exactly { ReadsSteadily self.old result self.new buf.new }
    {
        self.shelf.read(buf)
    }

    ghost told = { λ _ told. told };
}
