// Models at other scales, with numbers worked out by hand.
use crate::{ModelError, Scale, ScaleFault, print_model, read_model, rescale};
use outside_io::ByteText;
use std::test::Fail;

// The printed form at the scale, or why there is none.
fn answer(
    rt: &HostRuntime,
    text: &[u8],
    flow: u8,
    tension: u8,
) -> Result<Result<ByteText, ScaleFault>, Fail> {
    if text.len() > 1 << 20 {
        return Err("the text is short".into());
    }
    let Some(to) = Scale::of(flow, tension) else {
        return Err("the decimals are few".into());
    };
    match read_model(rt.alloc(), text) {
        Ok(model) => match rescale(rt.alloc(), &model, to) {
            Ok(model) => Ok(Ok(print_model(rt.alloc(), &model)?)),
            Err(fault) => Ok(Err(fault)),
        },
        Err(ModelError::Fault { .. }) => Err("the text spells a model".into()),
        Err(ModelError::NoMemory) => Err("there is memory".into()),
    }
}

const PLAIN: &[u8] = b"network 1\nnode s -inf 2 +inf\nnode t -5\narc a s t 0 2 4 5 10\n";

const FINE: &[u8] =
    b"network 2\ndecimals 1 2\nnode s -inf 2.5 +inf\nnode t -5\narc a s t 0 2.25 4 5 10\n";

#[test]
fn rescaled(rt: HostRuntime) -> Result<(), Fail> {
    for (text, flow, tension, want) in [
        (
            PLAIN,
            1,
            2,
            Ok(
                b"network 2\ndecimals 1 2\nnode s -inf 2.00 +inf\nnode t -5.0\narc a s t 0.0 2.00 4.0 5.00 10.0\n".as_slice(),
            ),
        ),
        // 2.5 and 2.25 aren't whole
        (FINE, 0, 0, Err(ScaleFault::Inexact)),
        // 2.25 has two decimals
        (FINE, 6, 1, Err(ScaleFault::Inexact)),
        // all points are whole
        (
            FINE,
            0,
            2,
            Ok(
                b"network 2\ndecimals 0 2\nnode s -inf 2.50 +inf\nnode t -5\narc a s t 0 2.25 4 5.00 10\n",
            ),
        ),
        // 1,000 is 10^9 of 10^-6, and that is the most
        (
            b"network 1\nnode s 1000\nnode t -1000\narc a s t 0 1000 1\n",
            6,
            6,
            Ok(
                b"network 2\ndecimals 6 6\nnode s 1000.000000\nnode t -1000.000000\narc a s t 0.000000 1000.000000 1.000000\n",
            ),
        ),
        (
            b"network 1\nnode s 1001\nnode t\n",
            6,
            0,
            Err(ScaleFault::Inexact),
        ),
        // a base counts both
        (
            b"network 2\ndecimals 1 1\nnode s 0 base -2.50\n",
            1,
            0,
            Ok(b"network 2\ndecimals 1 0\nnode s 0.0 base -2.5\n"),
        ),
        (
            b"network 2\ndecimals 1 1\nnode s 0 base -2.51\n",
            1,
            0,
            Err(ScaleFault::Inexact),
        ),
        (
            b"network 1\nnode s 0 base 1000000000\n",
            1,
            0,
            Err(ScaleFault::Inexact),
        ),
    ] {
        match answer(&rt, text, flow, tension)? {
            Ok(printed) => assert_eq!(rt; Ok(printed.as_slice()), want, "at {text:?}"),
            Err(fault) => assert_eq!(rt; Err(fault), want, "at {text:?}"),
        }
    }
    Ok(())
}
