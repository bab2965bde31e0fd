// Real files as a source.
ghost use Rattle.std.specs.Prelude.{◌≡◌, false, is_some, None};

use crate::shelf::{Got, Opened, Shelf};
use std::fs::File;
use std::io::{ErrorKind, Read};
use std::rt::Files;

/// The files of a runtime. It tells nothing of their bytes, and keeps no log.
#[derive(Drop)]
pub struct FileShelf<R: Files> {
    runtime: R,
    file: Option<R::File>,
    faults: u64,
    misses: u64,
}

impl<R: Files> FileShelf<R> {
    pub fn new(runtime: R) -> Self
        ensures idle { (⟦<FileShelf<R> as Shelf>⟧.seen result).started ≡ false }
        ensures faults { (⟦<FileShelf<R> as Shelf>⟧.seen result).faults ≡ 0 }
        ensures misses { (⟦<FileShelf<R> as Shelf>⟧.seen result).misses ≡ 0 }
    {
        FileShelf {
            runtime,
            file: None,
            faults: 0,
            misses: 0,
        }
    }
}

impl<R: Files> Shelf for FileShelf<R> {
    ghost seen = { λ s. record {
      holds = None;
      started = is_some s.file;
      rest = None;
      log = None;
      misses = s.misses;
      faults = s.faults;
    } };

    /// A name that is not found is `Missing`, and each other failure to open it a fault.
    fn start(&mut self, name: &str) -> Opened {
        self.file = None;
        match File::open(&self.runtime, name) {
            Ok(file) => {
                self.file = Some(file);
                Opened::Ready
            }
            Err(error) => {
                if error.kind() == ErrorKind::NotFound {
                    self.misses = self.misses.saturating_add(1);
                    return Opened::Missing;
                }
                self.faults = self.faults.saturating_add(1);
                Opened::Fault
            }
        }
    }

    /// A read that gives no byte is the end, and each error a fault.
    fn read(&mut self, buf: &mut [u8]) -> Got {
        let Some(file) = &mut self.file else {
            unreachable!()
        };
        match file.read(buf) {
            Ok(0) => Got::End,
            Ok(count) => Got::Bytes(count),
            Err(_) => {
                self.faults = self.faults.saturating_add(1);
                Got::Fault
            }
        }
    }

    ghost told = { λ _ told. told };
}
