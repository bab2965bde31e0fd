// Texts and the changes that they spell of a model, by the format's own description.
use crate::{CHANGES_MOST, Changes, ChangesError, read_changes};
use model_text::FaultWord::{Header, Keyword, Limit, Name, Number, Order, Shape, Unknown, Utf8};
use model_text::{FaultWord, append_list, append_number, read_model};
use mono_curve::Listed;
use std::process::Abort;
use std::test::Fail;

// Two nodes, which have the ground arcs 0 and 1, and two arcs, which are 2 and 3 in the grounded network.
const MODEL: &[u8] = b"network 1\nnode s 2\nnode t -2\narc a s t 0 2 4 5 10\narc t t s 0 1 2\n";

// The same with one decimal of a flow and two of a tension.
const DECIMALS: &[u8] =
    b"network 2\ndecimals 1 2\nnode s 2\nnode t -2\narc a s t 0 2.5 4 5 10\narc t t s 0 1 2\n";

type Answer<'a> = Result<&'a [u8], (u32, FaultWord)>;

// The arc, the line, the items and the base of each change, all as the whole numbers that are kept, or the line and the word.
fn answer(
    rt: &(impl Abort + AllocGlobal),
    model: &[u8],
    text: &[u8],
) -> Result<Result<Vec<u8>, (u32, FaultWord)>, Fail> {
    if model.len() > 1 << 20 || text.len() > 1 << 20 {
        return Err("the texts are short".into());
    }
    match read_changes(rt.alloc(), &read_model(rt.alloc(), model)?, text) {
        Ok(changes) => Ok(Ok(shown(rt, changes)?)),
        Err(ChangesError::Fault { line, word }) => Ok(Err((line, word))),
        Err(ChangesError::NoMemory) => Err("there is memory".into()),
    }
}

fn shown(rt: &(impl Abort + AllocGlobal), mut changes: Changes) -> Result<Vec<u8>, Fail> {
    let mut text = Vec::new(rt.alloc());
    for _ in 0..CHANGES_MOST {
        let Some(change) = changes.take() else {
            return Ok(text);
        };
        append_number(&mut text, change.arc.0)?;
        append_number(&mut text, change.line)?;
        append_list(&mut text, &change.curve, 0, 0)?;
        append_number(&mut text, change.curve.base())?;
        text.push(b'\n')?;
    }
    Ok(text)
}

fn agree(
    rt: &(impl Abort + AllocGlobal),
    model: &[u8],
    rows: &[(&[u8], Answer<'_>)],
) -> Result<(), Fail> {
    for (text, want) in rows {
        match (answer(rt, model, text)?, want) {
            (Ok(changes), Ok(wanted)) => assert_eq!(rt; changes.as_slice(), *wanted, "at {text:?}"),
            (Err(fault), Err(wanted)) => assert_eq!(rt; fault, *wanted, "at {text:?}"),
            _ => return Err("read or refused otherwise".into()),
        }
    }
    Ok(())
}

#[test]
fn texts(rt: HostRuntime) -> Result<(), Fail> {
    let rows = [
        (b"changes 1".as_slice(), Ok(b"".as_slice())),
        (
            b"# three\nchanges 1\n\narc a 0 2 4 5 20\narc a 0 1 3 # again\nnode t -2\n",
            Ok(b" 2 4 0 2 4 5 20 0\n 2 5 0 1 3 0\n 1 6 -2 0\n"),
        ),
        (
            b"changes\t1\r\nnode s base -7\r\narc t -inf +03 inf base 1\r\n",
            Ok(b" 0 2 0 -7\n 3 3 -inf 3 +inf 1\n"),
        ),
        // one word each
        (b"", Err((1, Header))),
        (b"# a\n", Err((2, Header))),
        (b"network 1\n", Err((1, Header))),
        (b"changes 1 2\n", Err((1, Header))),
        (b"changes 1\n# \xff\n", Err((2, Utf8))),
        (b"changes 1\nchanges 1\n", Err((2, Keyword))),
        (b"changes 1\narc\n", Err((2, Name))),
        (b"changes 1\narc a! 0 1 2\n", Err((2, Name))),
        (b"changes 1\narc a s t 0 1 2\n", Err((2, Number))),
        (b"changes 1\narc a 0 1 2 base\n", Err((2, Number))),
        (b"changes 1\narc a 0 1 1000000001\n", Err((2, Limit))),
        (b"changes 1\narc a 0 1\n", Err((2, Shape))),
        (b"changes 1\narc a\n", Err((2, Shape))),
        (b"changes 1\nnode s 0 1 0\n", Err((2, Order))),
        (b"changes 1\narc z 0 1 2\n", Err((2, Unknown))),
        (b"changes 1\nnode a 0\n", Err((2, Unknown))),
        // the first word of several
        (b"changes 1\nnode z 0 1 0\n", Err((2, Order))),
        (b"changes 1\narc z 0 1\n", Err((2, Shape))),
        (b"changes 1\narc a! x\n", Err((2, Name))),
        (b"changes 1\nnode z 0\nnode s x\n", Err((2, Unknown))),
        // no decimals
        (b"changes 1\narc a 0 2.25 4 5 10\n", Err((2, Number))),
        (b"changes 1\nnode s 1.0\n", Err((2, Number))),
        (b"changes 1\nnode s 1 base 0.0\n", Err((2, Number))),
    ];
    agree(&rt, MODEL, rows.as_slice())
}

#[test]
fn texts_with_decimals(rt: HostRuntime) -> Result<(), Fail> {
    let rows = [
        (
            b"changes 1\narc a 0 2.25 4 5 10\n".as_slice(),
            Ok(b" 2 2 0 225 40 500 100 0\n".as_slice()),
        ),
        (
            b"changes 1\nnode t -4.5 base -0.125\nnode s\narc t -inf .5 inf\n",
            Err((4, Number)),
        ),
        (
            b"changes 1\nnode t -4.5 base -0.125\nnode s\narc t -inf +00.5 inf base 2\n",
            Ok(b" 1 2 -45 -125\n 0 3 0 0\n 3 4 -inf 50 +inf 2000\n"),
        ),
        // a digit too many, or none
        (b"changes 1\narc a 0 2.255 4\n", Err((2, Number))),
        (b"changes 1\narc a 0 2.25 4.05\n", Err((2, Number))),
        (b"changes 1\nnode s 1 base 0.0005\n", Err((2, Number))),
        (b"changes 1\nnode s 1.\n", Err((2, Number))),
        // the limit is that of the whole numbers
        (
            b"changes 1\nnode s 100000000.0\n",
            Ok(b" 0 2 1000000000 0\n"),
        ),
        (b"changes 1\nnode s 100000000.1\n", Err((2, Limit))),
        (b"changes 1\nnode s 1 base -1000000.001\n", Err((2, Limit))),
    ];
    agree(&rt, DECIMALS, rows.as_slice())
}

// A thousand changes leave no room, which hides what else is wrong with a line but a word that is no number.
#[test]
fn full(rt: HostRuntime) -> Result<(), Fail> {
    let mut text = b"changes 1\n".to_vec(rt.alloc())?;
    for _ in 0..CHANGES_MOST {
        text.extend_from_slice(b"node s 1\n")?;
    }
    assert_eq!(rt; answer(&rt, MODEL, &text)?.is_ok(), true);
    let length = text.len();
    for (line, word) in [
        (b"node s 1".as_slice(), Limit),
        (b"node z 0 1 0", Limit),
        (b"node s x", Number),
        (b"node * 1", Name),
    ] {
        text.truncate(length);
        text.extend_from_slice(line)?;
        assert_eq!(rt; answer(&rt, MODEL, &text)?.err(), Some((1002, word)));
    }
    Ok(())
}
