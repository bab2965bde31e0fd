ghost use Rattle.std.specs.Prelude.{◌<◌, Some};
ghost use Rattle.outside_io.specs.Seen.{Seen};

use super::*;
use std::alloc::{AllocError, Global};
use std::io::{self, ErrorKind, Write};
use std::process::Abort;
use std::test::Fail;
use std::{fs, process};

const LONG: [u8; 10_000] = [b'z'; 10_000];

/// The bytes of an answer, or a word for it.
fn shown(answer: &ReadAns) -> &[u8] {
    match answer {
        ReadAns::Bytes(text) => text.as_slice(),
        ReadAns::Missing => b"missing",
        ReadAns::TooLong => b"too long",
        ReadAns::Fault => b"fault",
        ReadAns::NoMemory => b"no memory",
    }
}

fn two_files(alloc: Global, fails: &[u64], most: usize) -> Result<MemoryShelf, AllocError>
    requires { 0 < most }
{
    let mut shelf = MemoryShelf::of(alloc, fails, most)?;
    shelf.put("six", b"abcdef")?;
    shelf.put("none", b"")?;
    Ok(shelf)
}

/// Keeps a log of the names that it is asked to start, as no source of the program does.
#[derive(Drop)]
struct Diary<R: Abort> {
    shelf: MemoryShelf,
    names: Vec<ByteText>,
    runtime: R,
}

impl<R: Abort> Shelf for Diary<R> {
    ghost seen = { λ s. record {
      holds = Some s.shelf.holds;
      started = s.shelf.started;
      rest = Some s.shelf.rest;
      log = Some s.names.items;
      misses = s.shelf.misses;
      faults = s.shelf.faults;
    } };

    fn start(&mut self, name: &str) -> Opened {
        let copy = Vec::from_slice(*self.names.allocator(), name.as_bytes());
        let text = ByteText::of_vec(copy.expect(&self.runtime, "memory for a name"));
        let pushed = self.names.push(text);
        pushed.expect(&self.runtime, "memory for the log");
        self.shelf.start(name)
    }

    fn read(&mut self, buf: &mut [u8]) -> Got {
        self.shelf.read(buf)
    }

    ghost told = { λ _ told. told };
}

#[test]
fn a_call_starts_its_file_once(rt: HostRuntime) -> Result<(), Fail> {
    let mut diary = Diary {
        shelf: two_files(rt.alloc(), &[4], 4)?,
        names: Vec::new(rt.alloc()),
        runtime: rt,
    };
    for name in ["six", "six", "seven"] {
        let answer = read_file(rt.alloc(), &mut diary, name, 6);
        assert!(rt; shown(&answer) != b"too long".as_slice());
    }
    let names: [&[u8]; 3] = [b"six", b"six", b"seven"];
    assert_eq!(rt; diary.names.len(), names.len());
    for (started, name) in diary.names.iter().zip(names) {
        assert_eq!(rt; started.as_slice(), name);
    }
    Ok(())
}

#[test]
fn a_file_in_memory_is_read_whole(rt: HostRuntime) -> Result<(), Fail> {
    let rows: [(&str, &[u64], usize, &[u8]); 9] = [
        ("six", &[], 6, b"abcdef"),
        ("six", &[], 5, b"too long"),
        ("none", &[], 0, b""),
        ("seven", &[], 6, b"missing"),
        ("six", &[0], 6, b"fault"),
        ("six", &[1], 6, b"fault"),
        ("six", &[3], 6, b"fault"),
        ("six", &[3], 5, b"too long"),
        ("six", &[4], 6, b"abcdef"),
    ];
    for (name, fails, most, want) in rows {
        let mut shelf = two_files(rt.alloc(), fails, 4)?;
        let answer = read_file(rt.alloc(), &mut shelf, name, most);
        assert_eq!(rt; shown(&answer), want, "{name} at most {most}");
    }
    Ok(())
}

#[test]
fn a_text_is_written_whole_or_to_a_front(rt: HostRuntime) -> Result<(), Fail> {
    let rows: [(&[u8], &[u64], usize, Written, &[u8]); 5] = [
        (b"abcdef", &[], 6, Written::All, b"abcdef"),
        (b"abcdef", &[], 5, Written::Fault, b"abcde"),
        (b"abcdef", &[1], 6, Written::Fault, b"abcd"),
        (b"abcdef", &[2], 6, Written::All, b"abcdef"),
        (b"", &[0], 0, Written::All, b""),
    ];
    for (text, fails, room, want, bytes) in rows {
        let mut sink = MemorySink::of(rt.alloc(), fails, 4, room)?;
        assert_eq!(rt; write_all(&mut sink, text), want, "room for {room}");
        assert_eq!(rt; sink.bytes(), bytes, "room for {room}");
    }
    Ok(())
}

#[test]
fn a_steady_shelf_reads_what_it_holds(rt: HostRuntime) -> Result<(), Fail> {
    let mut shelf = SteadyShelf::of(rt.alloc());
    shelf.put("six", b"abcdef")?;
    shelf.put("long", LONG.as_slice())?;
    let rows: [(&str, usize, &[u8]); 5] = [
        ("six", 6, b"abcdef"),
        ("six", 5, b"too long"),
        ("seven", 6, b"missing"),
        ("long", 10_000, LONG.as_slice()),
        ("long", 9_999, b"too long"),
    ];
    for (name, most, want) in rows {
        let answer = read_file(rt.alloc(), &mut shelf, name, most);
        assert!(rt; shown(&answer) == want, "{name} at most {most}");
    }
    Ok(())
}

#[test]
fn a_steady_sink_takes_what_there_is_room_for(rt: HostRuntime) -> Result<(), Fail> {
    let rows: [(&[u8], usize, Written, &[u8]); 4] = [
        (b"abcdef", 7, Written::All, b"abcdef"),
        (b"abcdef", 6, Written::All, b"abcdef"),
        (b"abcdef", 5, Written::Fault, b"abcde"),
        (b"abcdef", 0, Written::Fault, b""),
    ];
    for (text, room, want, bytes) in rows {
        let mut sink = SteadySink::of(rt.alloc(), room)?;
        assert_eq!(rt; write_all(&mut sink, text), want, "room for {room}");
        assert_eq!(rt; sink.bytes(), bytes, "room for {room}");
    }
    Ok(())
}

#[test]
fn a_real_file_is_read_whole(rt: HostRuntime) -> Result<(), Fail> {
    let alloc = rt.alloc();
    let path = format!(in alloc; "/tmp/outside_io-{}", process::id(rt.process()))?;
    fs::write(&rt, path.as_str(), LONG.as_slice())?;
    let mut shelf = FileShelf::new(rt);
    let whole = read_file(alloc, &mut shelf, path.as_str(), 10_000);
    let cut = read_file(alloc, &mut shelf, path.as_str(), 9_999);
    fs::remove_file(&rt, path.as_str())?;
    let gone = read_file(alloc, &mut shelf, path.as_str(), 10_000);
    let folder = read_file(alloc, &mut shelf, "/tmp", 10_000);
    assert!(rt; shown(&whole) == LONG.as_slice());
    assert_eq!(rt; shown(&cut), b"too long".as_slice());
    assert_eq!(rt; shown(&gone), b"missing".as_slice());
    assert_eq!(rt; shown(&folder), b"fault".as_slice());
    Ok(())
}

/// Takes two bytes a call, and fails once its flushes are used up.
#[derive(Drop)]
struct Halting {
    bytes: Vec<u8>,
    flushes: u8,
}

impl Write for Halting {
    fn write(&mut self, buf: &[u8]) -> io::Result<usize> {
        let count = buf.len().min(2);
        self.bytes.extend_from_slice(&buf[..count])?;
        Ok(count)
    }

    fn flush(&mut self) -> io::Result<()> {
        if self.flushes == 0 {
            return Err(io::Error::from(ErrorKind::BrokenPipe));
        }
        self.flushes -= 1;
        Ok(())
    }
}

#[test]
fn a_writer_is_a_sink(rt: HostRuntime) -> Result<(), Fail> {
    let rows: [(u8, Written, &[u8]); 3] = [
        (3, Written::All, b"abcdef"),
        (2, Written::Fault, b"abcdef"),
        (0, Written::Fault, b"ab"),
    ];
    for (flushes, want, bytes) in rows {
        let mut writer = Halting {
            bytes: Vec::new(rt.alloc()),
            flushes,
        };
        let written = write_all(&mut StdSink::new(&mut writer), b"abcdef");
        assert_eq!(rt; written, want, "{flushes} flushes");
        assert_eq!(rt; writer.bytes.as_slice(), bytes, "{flushes} flushes");
    }
    let mut full = [0; 3];
    let written = write_all(&mut StdSink::new(full.as_mut_slice()), b"abcdef");
    assert_eq!(rt; written, Written::Fault);
    assert_eq!(rt; full.as_slice(), b"abc".as_slice());
    Ok(())
}
