// Calls that fail in mid-stream and files that are cut off, at each place. What is read and written moves byte by byte, so
// that the number of a call tells how far it came.
ghost use Rattle.std.specs.Prelude.{◌≡◌, ℕ, ◌<◌};

use crate::run_steadily;
use crate::solve_tests::ONE_PAIR;
use crate::tests::{EMPTY, EMPTY_SOLVED, call, compare, plain};
use mono_curve::Steps;
use outside_io::{MemoryShelf, MemorySink, SteadyShelf, SteadySink};
use std::alloc::{AllocError, Global};
use std::marker::Brand;
use std::process::Abort;
use std::sync::ledger::{Blank, Ledger};
use std::test::Fail;

/// What is written of `ONE_PAIR`.
const CERTIFICATE: &[u8] =
    b"certificate 1 optimal\ncost 23\nvalue 23\nnode s 2 5\nnode t 7 -5\narc a 5\n";

/// The start of the file, a read for each byte, and the read that finds its end.
const MODEL_CALLS: u64 = 62;

/// The same of the certificate.
const CERTIFICATE_CALLS: u64 = 72;

/// A call over the model and a certificate, with the calls of the source and of the sink that fail.
#[derive(Clone, Copy)]
struct Torn<'a> {
    words: &'a [&'a str],
    certificate: &'a [u8],
    source_fails: &'a [u64],
    sink_fails: &'a [u64],
}

fn words_of(alloc: Global, words: &[&str]) -> Result<Vec<String>, AllocError> {
    let mut made: Vec<String> = Vec::new(alloc);
    for word in words {
        made.push(String::from_str(alloc, word)?)?;
    }
    Ok(made)
}

fn counted_outcome<L: Ledger>(
    alloc: Global,
    torn: &Torn<'_>,
    blank: Blank,
) -> Result<(u8, MemorySink), AllocError>
    requires name { blank.name ≡ L.name }
    requires parts { blank.parts ≡ L.parts }
    requires some { 0 < blank.parts }
{
    let words = words_of(alloc, torn.words)?;
    let mut shelf = MemoryShelf::of(alloc, torn.source_fails, 1)?;
    shelf.put("a", ONE_PAIR)?;
    shelf.put("c", torn.certificate)?;
    let mut out = MemorySink::of(alloc, torn.sink_fails, 1, 4096)?;
    let mut steps = Steps::<L>::open(blank);
    let code = call(alloc, words.as_slice(), &mut shelf, &mut out, &mut steps);
    Ok((code, out))
}

fn outcome(alloc: Global, torn: &Torn<'_>) -> Result<(u8, MemorySink), AllocError> {
    counted_outcome::<Brand>(alloc, torn, Blank::new(1))
}

/// Makes the call and compares its exit code and what was written.
fn compare_torn(
    rt: &impl Abort,
    alloc: Global,
    torn: &Torn<'_>,
    code: u8,
    written: &[u8],
) -> Result<(), Fail> {
    let (got, out) = outcome(alloc, torn)?;
    assert_eq!(rt; got, code, "{:?} {:?}", torn.source_fails, torn.sink_fails);
    assert!(rt;
        out.bytes() == written,
        "{:?} {:?}",
        torn.source_fails,
        torn.sink_fails
    );
    Ok(())
}

/// A call of the source fails.
fn compare_read(
    rt: &impl Abort,
    alloc: Global,
    words: &[&str],
    call: u64,
    code: u8,
    written: &[u8],
) -> Result<(), Fail> {
    let torn = Torn {
        words,
        certificate: CERTIFICATE,
        source_fails: &[call],
        sink_fails: &[],
    };
    compare_torn(rt, alloc, &torn, code, written)
}

#[test]
fn each_read_fails(rt: HostRuntime) -> Result<(), Fail> {
    for call in 0..MODEL_CALLS {
        compare_read(
            &rt,
            rt.alloc(),
            &["solve", "a"],
            call,
            7,
            b"read fault file 1\n",
        )?;
    }
    compare_read(
        &rt,
        rt.alloc(),
        &["solve", "a"],
        MODEL_CALLS,
        0,
        CERTIFICATE,
    )
}

#[test]
fn each_read_of_two_files_fails(rt: HostRuntime) -> Result<(), Fail> {
    let words = ["check", "a", "c"];
    let both = MODEL_CALLS + CERTIFICATE_CALLS;
    for call in 0..both {
        let line: &[u8] = if call < MODEL_CALLS {
            b"read fault file 1\n"
        } else {
            b"read fault file 2\n"
        };
        compare_read(&rt, rt.alloc(), &words, call, 7, line)?;
    }
    compare_read(&rt, rt.alloc(), &words, both, 0, b"accepted optimal\n")
}

#[test]
fn each_write_fails(rt: HostRuntime) -> Result<(), Fail> {
    for call in 0..CERTIFICATE.len() {
        let torn = Torn {
            words: &["solve", "a"],
            certificate: CERTIFICATE,
            source_fails: &[],
            sink_fails: &[call as u64],
        };
        compare_torn(&rt, rt.alloc(), &torn, 8, &CERTIFICATE[..call])?;
    }
    Ok(())
}

/// How many lines end in the bytes.
fn line_ends(bytes: &[u8]) -> usize {
    let mut ends = 0_usize;
    for byte in bytes {
        if *byte == b'\n' {
            ends = ends.saturating_add(1);
        }
    }
    ends
}

#[test]
fn a_certificate_is_cut_off(rt: HostRuntime) -> Result<(), Fail> {
    for length in 0..CERTIFICATE.len() {
        let front = &CERTIFICATE[..length];
        let torn = Torn {
            words: &["check", "a", "c"],
            certificate: front,
            source_fails: &[],
            sink_fails: &[],
        };
        let line = line_ends(front).saturating_add(1);
        let written = format!(in rt.alloc(); "rejected bad-text line {}\n", line)?;
        compare_torn(&rt, rt.alloc(), &torn, 3, written.as_str().as_bytes())?;
    }
    Ok(())
}

#[test]
fn a_model_is_cut_off(rt: HostRuntime) -> Result<(), Fail> {
    let solve: &[&str] = &["solve", "a"];
    let rows = [
        plain("to nothing", solve, b"", 5, "model line 1: header\n"),
        plain(
            "in its header",
            solve,
            b"network ",
            5,
            "model line 1: header\n",
        ),
        plain("before a line's end", solve, b"network 1", 0, EMPTY_SOLVED),
        plain("behind its first line", solve, EMPTY, 0, EMPTY_SOLVED),
        plain(
            "in a list",
            solve,
            b"network 1\nnode s -inf 2",
            5,
            "model line 2: shape\n",
        ),
        plain(
            "behind a node",
            solve,
            b"network 1\nnode s -inf 2 +inf\n",
            0,
            "certificate 1 optimal\ncost 0\nvalue 0\nnode s 2 0\n",
        ),
    ];
    for row in &rows {
        compare(&rt, rt.alloc(), row)?;
    }
    Ok(())
}

#[test]
fn names_numbers_and_bytes(rt: HostRuntime) -> Result<(), Fail> {
    let rows = [
        plain(
            "a name of 64 bytes",
            &["solve", "a"],
            b"network 1\nnode n234567890123456789012345678901234567890123456789012345678901234\n",
            0,
            "certificate 1 optimal\ncost 0\nvalue 0\nnode n234567890123456789012345678901234567890123456789012345678901234 ? 0\n",
        ),
        plain(
            "a name of 65 bytes",
            &["solve", "a"],
            b"network 1\nnode n2345678901234567890123456789012345678901234567890123456789012345\n",
            5,
            "model line 2: name\n",
        ),
        plain(
            "40 digits",
            &["solve", "a"],
            b"network 1\nnode s 9999999999999999999999999999999999999999\n",
            5,
            "model line 2: limit\n",
        ),
        plain(
            "40 zeros in front",
            &["curve", "a", "p"],
            b"network 1\nnode s\nnode t\narc p s t 00000000000000000000000000000000000000007\n",
            0,
            "curve 7 base 0\nconjugate -inf 7 +inf base 0\n",
        ),
        plain(
            "a comment that is not UTF-8",
            &["solve", "a"],
            b"network 1\nnode s -inf 2 +inf # \xff\nnode t -5\narc a s t 0 2 4 5 10\n",
            5,
            "model line 2: utf8\n",
        ),
    ];
    for row in &rows {
        compare(&rt, rt.alloc(), row)?;
    }
    Ok(())
}

fn counted_steadily<L: Ledger>(
    alloc: Global,
    words: &[&str],
    room: usize,
    blank: Blank,
) -> Result<(u8, SteadySink), AllocError>
    requires name { blank.name ≡ L.name }
    requires parts { blank.parts ≡ L.parts }
    requires some { 0 < blank.parts }
{
    let words = words_of(alloc, words)?;
    let mut shelf = SteadyShelf::of(alloc);
    shelf.put("a", ONE_PAIR)?;
    let mut out = SteadySink::of(alloc, room)?;
    let mut steps = Steps::<L>::open(blank);
    let status = run_steadily(alloc, words.as_slice(), &mut shelf, &mut out, &mut steps);
    Ok((status.code(), out))
}

fn steadily(alloc: Global, words: &[&str], room: usize) -> Result<(u8, SteadySink), AllocError> {
    counted_steadily::<Brand>(alloc, words, room, Blank::new(1))
}

#[test]
fn a_steady_sink_has_just_room(rt: HostRuntime) -> Result<(), Fail> {
    let rows: [(&str, usize, u8, &[u8]); 4] = [
        ("a", 70, 0, CERTIFICATE),
        ("a", 69, 8, &CERTIFICATE[..69]),
        ("b", 15, 6, b"missing file 1\n"),
        ("b", 0, 8, b""),
    ];
    for (name, room, code, written) in rows {
        let (got, out) = steadily(rt.alloc(), &["solve", name], room)?;
        assert_eq!(rt; got, code, "{name}, room for {room}");
        assert!(rt; out.bytes() == written, "{name}, room for {room}");
    }
    Ok(())
}
