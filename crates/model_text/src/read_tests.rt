// Texts and what reading them gives, by the format's own description.
use crate::FaultWord::{
    Header, Keyword, Limit, Loop, Name, Number, Order, Shape, Twice, Unknown, Utf8,
};
use crate::{FaultWord, ModelError, NODES_MOST, print_model, read_model};
use itoa::Buffer;
use outside_io::ByteText;
use std::test::Fail;

// The printed form of the model, or the line and the word.
fn answer(rt: &HostRuntime, text: &[u8]) -> Result<Result<ByteText, (u32, FaultWord)>, Fail> {
    if text.len() > 1 << 20 {
        return Err("the text is short".into());
    }
    match read_model(rt.alloc(), text) {
        Ok(model) => Ok(Ok(print_model(rt.alloc(), &model)?)),
        Err(ModelError::Fault { line, word }) => Ok(Err((line, word))),
        Err(ModelError::NoMemory) => Err("there is memory".into()),
    }
}

#[test]
fn texts(rt: HostRuntime) -> Result<(), Fail> {
    for (text, want) in [
        // the header
        (b"".as_slice(), Err((1, Header))),
        (b"# a", Err((2, Header))),
        (b"\n\n# a\n", Err((4, Header))),
        (b"node s\n", Err((1, Header))),
        (b"network 1 2\n", Err((1, Header))),
        (b"\xef\xbb\xbfnetwork 1\n", Err((1, Header))),
        (b"network 1\r\r\n", Err((1, Header))),
        (b"network 1\r\n", Ok(b"network 1\n".as_slice())),
        (b"# \xff\nnetwork 1\n", Err((1, Utf8))),
        (b"network 1\nnode s\n# \xff\n", Err((3, Utf8))),
        // one word each
        (b"network 1\nnode s\nnode t\npipe a", Err((4, Keyword))),
        (b"network 1\nnode s\nnode t\narc a s", Err((4, Name))),
        (
            b"network 1\nnode s\nnode t\narc a s t 0 1 x",
            Err((4, Number)),
        ),
        (
            b"network 1\nnode s\nnode t\narc a s t 0 1 2 base",
            Err((4, Number)),
        ),
        (
            b"network 1\nnode s\nnode t\narc a s t 0 1 1000000001",
            Err((4, Limit)),
        ),
        (b"network 1\nnode s\nnode t\narc a s t 0 2", Err((4, Shape))),
        (b"network 1\nnode s\nnode t\narc a s t", Err((4, Shape))),
        (
            b"network 1\nnode s\nnode t\narc a s t +inf",
            Err((4, Shape)),
        ),
        (
            b"network 1\nnode s\nnode t\narc a s t 0 2 4 2 10",
            Err((4, Order)),
        ),
        (
            b"network 1\nnode s\nnode t\narc a s t 3 0 3",
            Err((4, Order)),
        ),
        (b"network 1\nnode s\nnode t\nnode s", Err((4, Twice))),
        (
            b"network 1\nnode s\nnode t\narc a s z 0 1 2",
            Err((4, Unknown)),
        ),
        (
            b"network 1\nnode s\nnode t\narc a s s 0 1 2",
            Err((4, Loop)),
        ),
        // the first word of several
        (
            b"network 1\nnode s\nnode t\narc a s t 0 1000000001",
            Err((4, Limit)),
        ),
        (
            b"network 1\nnode s\nnode t\narc a s t 0 1000000001 x",
            Err((4, Number)),
        ),
        (
            b"network 1\nnode s\nnode t\narc a s t 1000000001 base",
            Err((4, Number)),
        ),
        (
            b"network 1\nnode s\nnode t\narc a s t 0 base 1000000001",
            Err((4, Limit)),
        ),
        (
            b"network 1\nnode s\nnode t\narc a z z 0 1 2",
            Err((4, Unknown)),
        ),
        (
            b"network 1\nnode s\nnode t\narc a s t 0\narc a s s 0",
            Err((5, Twice)),
        ),
        // numbers
        (b"network 1\nnode s +-1", Err((2, Number))),
        (b"network 1\nnode s -", Err((2, Number))),
        (b"network 1\nnode s 0\rbase 1", Err((2, Number))),
        (b"network 1\nnode s 0 base 1 2", Err((2, Number))),
        (
            b"network 1\nnode s 1000000000000000000000000000000000000000",
            Err((2, Limit)),
        ),
        (
            b"network 1\nnode s -0000000000000000000000000000000001000000000",
            Ok(b"network 1\nnode s -1000000000\n"),
        ),
        // decimals
        (b"network 2", Err((2, Header))),
        (b"network 2\n# a\n\n", Err((4, Header))),
        (b"network 3\n", Err((1, Header))),
        (b"network 2\nnode s 1\n", Err((2, Header))),
        (b"network 2\ndecimals 1 7\n", Err((2, Header))),
        (b"network 2\ndecimals 1 02\n", Err((2, Header))),
        (b"network 2\ndecimals 1\n", Err((2, Header))),
        (b"network 2\ndecimals 1 2 0\n", Err((2, Header))),
        (
            b"network 2\ndecimals 1 2\ndecimals 1 2\n",
            Err((3, Keyword)),
        ),
        (b"network 1\nnode s 1.0\n", Err((2, Number))),
        (b"network 2\ndecimals 0 0\nnode s 1.0\n", Err((3, Number))),
        (b"network 2\ndecimals 1 2\nnode s 1.\n", Err((3, Number))),
        (b"network 2\ndecimals 1 2\nnode s .5\n", Err((3, Number))),
        (b"network 2\ndecimals 1 2\nnode s 1.00\n", Err((3, Number))),
        (b"network 2\ndecimals 1 2\nnode s 1.2.3\n", Err((3, Number))),
        (
            b"network 2\ndecimals 1 2\nnode s 0 2.255 1\n",
            Err((3, Number)),
        ),
        (
            b"network 2\ndecimals 1 2\nnode s 0 2.25 1.5 3 base 1.2345\n",
            Err((3, Number)),
        ),
        (
            b"network 2\ndecimals 1 2\nnode s 100000000.1\n",
            Err((3, Limit)),
        ),
        (
            b"network 2\ndecimals 1 2\nnode s 0 base 1000000.001\n",
            Err((3, Limit)),
        ),
        (
            b"network 2\n#\ndecimals 1 2 # a\nnode s -0 -2.25 +01.5 3 base -1.234\n",
            Err((4, Shape)),
        ),
        (
            b"network 2\n#\ndecimals 1 2 # a\nnode s -0 -2.25 +01.5 3 inf base -1.234\nnode t\nnode u -0.5 base 0.001\n",
            Ok(
                b"network 2\ndecimals 1 2\nnode s 0.0 -2.25 1.5 3.00 +inf base -1.234\nnode t 0.0\nnode u -0.5 base 0.001\n",
            ),
        ),
        (
            b"network 2\ndecimals 1 2\nnode s -inf 2.5 +inf\nnode t -5\narc a s t 0 2.25 4 5 10\n",
            Ok(
                b"network 2\ndecimals 1 2\nnode s -inf 2.50 +inf\nnode t -5.0\narc a s t 0.0 2.25 4.0 5.00 10.0\n",
            ),
        ),
        (
            b"network 2\ndecimals 0 0\nnode s -07\n",
            Ok(b"network 2\ndecimals 0 0\nnode s -7\n"),
        ),
        (
            b"network 2\ndecimals 6 6\nnode s 1000 0.000001 1000.000000\n",
            Err((3, Order)),
        ),
        (
            b"network 2\ndecimals 6 6\nnode s 999.5 1000 1000 base -0.000000000001\n",
            Ok(
                b"network 2\ndecimals 6 6\nnode s 999.500000 1000.000000 1000.000000 base -0.000000000001\n",
            ),
        ),
        // whole models
        (
            b"network 1\nnode s\nnode t\narc a s t -1000000000 -1000000000 0 1000000000 1000000000",
            Ok(
                b"network 1\nnode s 0\nnode t 0\narc a s t -1000000000 -1000000000 0 1000000000 1000000000\n",
            ),
        ),
        (
            b"# a\n\nnetwork\t1 # \xc3\xa9\r\n\tnode  n +2 03 06 base 10\r\nnode base base -4\narc arc n base -inf 3 inf base +0",
            Ok(
                b"network 1\nnode n 2 3 6 base 10\nnode base 0 base -4\narc arc n base -inf 3 +inf\n",
            ),
        ),
    ] {
        match answer(&rt, text)? {
            Ok(printed) => assert_eq!(rt; Ok(printed.as_slice()), want, "at {text:?}"),
            Err(fault) => assert_eq!(rt; Err(fault), want, "at {text:?}"),
        }
    }
    Ok(())
}

// A full model hides that the name is used.
#[test]
fn full(rt: HostRuntime) -> Result<(), Fail> {
    let mut text = b"network 1\n".to_vec(rt.alloc())?;
    for number in 0..NODES_MOST {
        text.extend_from_slice(b"node n")?;
        text.extend_from_slice(Buffer::new().format(number).as_bytes())?;
        text.push(b'\n')?;
    }
    text.extend_from_slice(b"node n0\n")?;
    assert_eq!(rt; answer(&rt, &text)?.err(), Some((10002, Limit)));
    Ok(())
}
