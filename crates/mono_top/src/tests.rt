// Calls of the program over the memory forms, row by row. A row goes through one helper that states nothing of the call, so
// that the proof of a table knows nothing of it either.
ghost use Rattle.std.specs.Prelude.{◌≡◌, ℕ, ◌<◌};

use crate::{FILE_MOST, run};
use mono_curve::Steps;
use outside_io::{MemoryShelf, MemorySink};
use std::alloc::{AllocError, Global};
use std::marker::Brand;
use std::process::Abort;
use std::str;
use std::sync::ledger::{Blank, Ledger};
use std::test::Fail;

pub(crate) const EMPTY: &[u8] = b"network 1\n";

pub(crate) const CERTIFICATE: &[u8] = b"certificate 1 optimal\ncost 0\nvalue 0\n";

pub(crate) const EMPTY_SOLVED: &str = "certificate 1 optimal\ncost 0\nvalue 0\n";

pub(crate) const USAGE: &str = "usage: monotropic COMMAND WORDS\n";

/// The forced flow is conserved; with the bases it costs 7 - 2.
const CONSERVED: &[u8] = b"network 1\r\nnode s 4 base 7 # supply\nnode t -4\narc a s t +04 base -2";

/// The arc takes 3 of the 5 that the supply brings.
pub(crate) const TOO_LITTLE: &[u8] = b"network 1\nnode s 5\nnode t -5\narc a s t 3\n";

pub(crate) const ORDINARY: &[u8] = b"network 1\nnode s 5\nnode t -5\narc a s t 0 2 4 5 10\n";

const CURVES: &[u8] =
    b"network 1\nnode s\nnode t\narc p s t 0 2 4 5 10\narc q s t 5\narc r s t -4 -1 +inf\narc w s t -inf 3 +inf\narc h s t 2 3 6 base 10\n";

const TRIAL_1: &str = "nodes 200\narcs 1000\nkind optimal\nvalue -2365615\n";

const UNSHAPED: &[u8] = b"network 1\nnode s\nnode t\narc a s t 0 2\n";

/// One call and what comes of it. The source holds the file `a`, and the file `c` where a second text is given.
#[derive(Clone, Copy)]
pub(crate) struct Row {
    // Says what the row shows.
    name: &'static str,
    words: &'static [&'static str],
    text: &'static [u8],
    second: Option<&'static [u8]>,
    // The first file is its text, filled up to this length.
    length: usize,
    // The calls of the source, then those of the sink, that fail.
    source_fails: &'static [u64],
    sink_fails: &'static [u64],
    code: u8,
    // The form of what is written, as `has_form` reads it.
    written: &'static str,
    // Where the program may choose between two forms, the other.
    or_written: &'static str,
}

/// A row over one file, in which no call fails.
pub(crate) fn plain(
    name: &'static str,
    words: &'static [&'static str],
    text: &'static [u8],
    code: u8,
    written: &'static str,
) -> Row {
    Row {
        name,
        words,
        text,
        second: None,
        length: 0,
        source_fails: &[],
        sink_fails: &[],
        code,
        written,
        or_written: written,
    }
}

/// A row that checks a certificate.
pub(crate) fn checks(
    name: &'static str,
    text: &'static [u8],
    certificate: &'static [u8],
    code: u8,
    written: &'static str,
) -> Row {
    plain(name, &["check", "a", "c"], text, code, written).second(certificate)
}

impl Row {
    pub(crate) fn second(self, second: &'static [u8]) -> Row {
        Row {
            second: Some(second),
            ..self
        }
    }

    pub(crate) fn filled_to(self, length: usize) -> Row {
        Row { length, ..self }
    }

    pub(crate) fn source_fails(self, source_fails: &'static [u64]) -> Row {
        Row {
            source_fails,
            ..self
        }
    }

    pub(crate) fn sink_fails(self, sink_fails: &'static [u64]) -> Row {
        Row { sink_fails, ..self }
    }

    pub(crate) fn or(self, or_written: &'static str) -> Row {
        Row { or_written, ..self }
    }
}

/// The call itself, which alone knows the contract of `run`.
pub(crate) fn call<L: Ledger>(
    alloc: Global,
    words: &[String],
    shelf: &mut MemoryShelf,
    out: &mut MemorySink,
    steps: &mut Steps<L>,
) -> u8 {
    run(alloc, words, shelf, out, steps).code()
}

/// Runs the row's call over a sink that takes 3 bytes at a time: its exit code, and the sink.
fn counted_outcome<L: Ledger>(
    alloc: Global,
    row: &Row,
    second: Option<&[u8]>,
    blank: Blank,
) -> Result<(u8, MemorySink), AllocError>
    requires name { blank.name ≡ L.name }
    requires parts { blank.parts ≡ L.parts }
    requires some { 0 < blank.parts }
{
    let mut words: Vec<String> = Vec::new(alloc);
    for word in row.words {
        words.push(String::from_str(alloc, word)?)?;
    }
    let mut file = row.text.to_vec(alloc)?;
    let length = file.len().max(row.length);
    file.resize(length, b'#')?;
    let mut shelf = MemoryShelf::of(alloc, row.source_fails, 4096)?;
    shelf.put("a", file.as_slice())?;
    if let Some(second) = second {
        shelf.put("c", second)?;
    }
    let mut out = MemorySink::of(alloc, row.sink_fails, 3, 4096)?;
    let mut steps = Steps::<L>::open(blank);
    let code = call(alloc, words.as_slice(), &mut shelf, &mut out, &mut steps);
    Ok((code, out))
}

/// With a counter of readings that nobody looks at.
fn outcome(
    alloc: Global,
    row: &Row,
    second: Option<&[u8]>,
) -> Result<(u8, MemorySink), AllocError> {
    counted_outcome::<Brand>(alloc, row, second, Blank::new(1))
}

/// Whether a text has a form: line by line and word by word the same, but that `?` stands for any number, and `U`, `U+1`,
/// `U-1` and so on for numbers that are so far from one number `U`. A last line `..` leaves the rest open, but that the line
/// behind its dots, if any, stands in the text.
fn has_form(text: &str, form: &str) -> bool {
    let mut number = None;
    let mut lines = text.split('\n');
    for line_form in form.split('\n') {
        if let Some(later) = line_form.strip_prefix("..") {
            return later.is_empty() || has_line(text, later);
        }
        let Some(line) = lines.next() else {
            return false;
        };
        let mut words = line.split(' ');
        for word_form in line_form.split(' ') {
            let Some(word) = words.next() else {
                return false;
            };
            if !fits_word(word, word_form, &mut number) {
                return false;
            }
        }
        if words.next().is_some() {
            return false;
        }
    }
    lines.next().is_none()
}

fn has_line(text: &str, wanted: &str) -> bool {
    for line in text.split('\n') {
        if line == wanted {
            return true;
        }
    }
    false
}

/// One word; the number `U` is set where it first stands.
fn fits_word(word: &str, form: &str, number: &mut Option<i64>) -> bool {
    if form == "?" {
        return word.parse::<i64>().is_ok();
    }
    let Some(offset) = form.strip_prefix('U') else {
        return word == form;
    };
    let offset = if offset.is_empty() { "0" } else { offset };
    let (Ok(value), Ok(offset)) = (word.parse::<i64>(), offset.parse::<i64>()) else {
        return false;
    };
    let Some(base) = value.checked_sub(offset) else {
        return false;
    };
    match *number {
        None => {
            *number = Some(base);
            true
        }
        Some(before) => before == base,
    }
}

/// Runs the row's call and compares what comes of it.
pub(crate) fn compare(rt: &impl Abort, alloc: Global, row: &Row) -> Result<(), Fail> {
    compare_with(rt, alloc, row, row.second)
}

/// The same with a second file that the test makes.
pub(crate) fn compare_with(
    rt: &impl Abort,
    alloc: Global,
    row: &Row,
    second: Option<&[u8]>,
) -> Result<(), Fail> {
    let (code, out) = outcome(alloc, row, second)?;
    assert_eq!(rt; code, row.code, "{}", row.name);
    let text = str::from_utf8(out.bytes())?;
    assert!(rt;
        has_form(text, row.written) || has_form(text, row.or_written),
        "{}: {}",
        row.name,
        text
    );
    Ok(())
}

/// Solves the row's model and compares what is written; then checks that text, which is accepted as of this kind.
pub(crate) fn compare_and_check(
    rt: &impl Abort,
    alloc: Global,
    row: &Row,
    kind: &'static str,
) -> Result<(), Fail> {
    let (code, out) = outcome(alloc, row, None)?;
    assert_eq!(rt; code, row.code, "{}", row.name);
    let text = str::from_utf8(out.bytes())?;
    assert!(rt;
        has_form(text, row.written) || has_form(text, row.or_written),
        "{}: {}",
        row.name,
        text
    );
    let check = checks(row.name, row.text, b"", 0, "");
    let (code, out) = outcome(alloc, &check, Some(text.as_bytes()))?;
    assert_eq!(rt; code, 0, "{}", row.name);
    assert_eq!(rt; str::from_utf8(out.bytes())?, kind, "{}", row.name);
    Ok(())
}

#[test]
fn words_and_files(rt: HostRuntime) -> Result<(), Fail> {
    let rows = [
        plain("the empty model", &["solve", "a"], EMPTY, 0, EMPTY_SOLVED),
        plain(
            "a file that is not held",
            &["solve", "b"],
            EMPTY,
            6,
            "missing file 1\n",
        ),
        plain("a word is missing", &["solve"], EMPTY, 4, USAGE),
        plain("a word too many", &["solve", "a", "b"], EMPTY, 4, USAGE),
        plain("no command", &["slove", "a"], EMPTY, 4, USAGE),
        plain("no words", &[], EMPTY, 4, USAGE),
        plain("the longest file", &["solve", "a"], EMPTY, 0, EMPTY_SOLVED).filled_to(FILE_MOST),
        plain(
            "a byte too many",
            &["solve", "a"],
            EMPTY,
            10,
            "too long file 1\n",
        )
        .filled_to(FILE_MOST + 1),
        plain(
            "the second read fails",
            &["solve", "a"],
            EMPTY,
            7,
            "read fault file 1\n",
        )
        .source_fails(&[2]),
        plain("the second write fails", &["solve", "a"], EMPTY, 8, "cer").sink_fails(&[1]),
        plain(
            "an empty file",
            &["solve", "a"],
            b"",
            5,
            "model line 1: header\n",
        ),
        plain(
            "a list of no shape",
            &["solve", "a"],
            UNSHAPED,
            5,
            "model line 4: shape\n",
        ),
    ];
    for row in &rows {
        compare(&rt, rt.alloc(), row)?;
    }
    Ok(())
}

/// A row of a trial, in which a call of the source would fail.
fn tries(
    name: &'static str,
    words: &'static [&'static str],
    code: u8,
    written: &'static str,
) -> Row {
    plain(name, words, EMPTY, code, written).source_fails(&[0])
}

#[test]
fn trials(rt: HostRuntime) -> Result<(), Fail> {
    let rows = [
        tries("the trial of 1", &["trial", "1"], 0, TRIAL_1),
        tries(
            "the trial of 2",
            &["trial", "2"],
            0,
            "nodes 200\narcs 1000\nkind optimal\nvalue -2985251\n",
        ),
        tries(
            "the greatest number",
            &["trial", "18446744073709551615"],
            0,
            "nodes 200\narcs 1000\nkind optimal\nvalue ?\n",
        ),
        tries("one more", &["trial", "18446744073709551616"], 4, USAGE),
        tries("20 digits", &["trial", "00000000000000000001"], 0, TRIAL_1),
        tries("21 digits", &["trial", "000000000000000000001"], 4, USAGE),
        tries("a sign", &["trial", "+1"], 4, USAGE),
        tries("an empty word", &["trial", ""], 4, USAGE),
        tries("no number", &["trial"], 4, USAGE),
        tries("two numbers", &["trial", "1", "2"], 4, USAGE),
        tries("the second write fails", &["trial", "1"], 8, "nod").sink_fails(&[1]),
    ];
    for row in &rows {
        compare(&rt, rt.alloc(), row)?;
    }
    Ok(())
}

#[test]
fn second_files(rt: HostRuntime) -> Result<(), Fail> {
    let rows = [
        plain(
            "not held",
            &["check", "a", "d"],
            EMPTY,
            6,
            "missing file 2\n",
        )
        .second(CERTIFICATE),
        plain(
            "the first text is tested first",
            &["check", "a", "d"],
            b"",
            5,
            "model line 1: header\n",
        )
        .second(CERTIFICATE),
        plain(
            "the first is not held",
            &["check", "b", "c"],
            EMPTY,
            6,
            "missing file 1\n",
        )
        .second(CERTIFICATE),
        plain("no second word", &["check", "a"], EMPTY, 4, USAGE),
        plain(
            "its start fails",
            &["check", "a", "c"],
            EMPTY,
            7,
            "read fault file 2\n",
        )
        .second(CERTIFICATE)
        .source_fails(&[3]),
        plain(
            "its start would fail, were it started before the first is tested",
            &["check", "a", "c"],
            UNSHAPED,
            5,
            "model line 4: shape\n",
        )
        .second(CERTIFICATE)
        .source_fails(&[3]),
        plain(
            "its start would fail, were it started though the first is not held",
            &["check", "b", "c"],
            EMPTY,
            6,
            "missing file 1\n",
        )
        .second(CERTIFICATE)
        .source_fails(&[1]),
    ];
    for row in &rows {
        compare(&rt, rt.alloc(), row)?;
    }
    Ok(())
}

#[test]
fn forced_flows(rt: HostRuntime) -> Result<(), Fail> {
    let rows = [
        plain(
            "a cost with bases",
            &["solve", "a"],
            CONSERVED,
            0,
            "certificate 1 optimal\ncost 5\nvalue 5\nnode s 0 4\nnode t 0 -4\narc a 4\n",
        ),
        plain(
            "too little room",
            &["solve", "a"],
            TOO_LITTLE,
            1,
            "certificate 1 cut\ncapacity -2\nside s\n",
        )
        .or("certificate 1 cut\ncapacity -2\nside *\nside s\n"),
        plain(
            "no way out",
            &["solve", "a"],
            b"network 1\nnode s 4",
            1,
            "certificate 1 cut\ncapacity -4\nside s\n",
        ),
    ];
    for row in &rows {
        compare(&rt, rt.alloc(), row)?;
    }
    Ok(())
}

#[test]
fn curves(rt: HostRuntime) -> Result<(), Fail> {
    let rows = [
        plain(
            "two prices",
            &["curve", "a", "p"],
            CURVES,
            0,
            "curve 0 2 4 5 10 base 0\nconjugate -inf 0 2 4 5 10 +inf base 0\n",
        ),
        plain(
            "a single point",
            &["curve", "a", "q"],
            CURVES,
            0,
            "curve 5 base 0\nconjugate -inf 5 +inf base 0\n",
        ),
        plain(
            "no upper end",
            &["curve", "a", "r"],
            CURVES,
            0,
            "curve -4 -1 +inf base 0\nconjugate -inf -4 -1 base 0\n",
        ),
        plain(
            "no end",
            &["curve", "a", "w"],
            CURVES,
            0,
            "curve -inf 3 +inf base 0\nconjugate 3 base 0\n",
        ),
        plain(
            "a base",
            &["curve", "a", "h"],
            CURVES,
            0,
            "curve 2 3 6 base 10\nconjugate -inf 2 3 6 +inf base -10\n",
        ),
        plain(
            "no such arc",
            &["curve", "a", "z"],
            CURVES,
            12,
            "unknown arc\n",
        ),
    ];
    for row in &rows {
        compare(&rt, rt.alloc(), row)?;
    }
    Ok(())
}
