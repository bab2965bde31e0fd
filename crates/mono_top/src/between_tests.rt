// Greatest flows and tensions between two nodes, row by row.
use crate::check_tests::{ROUND, ROUND_FOR_NOTHING};
use crate::tests::{ORDINARY, Row, USAGE, compare, plain};
use std::test::Fail;

const FLOW: &[&str] = &["maxflow", "a", "s", "t"];

const TENSION: &[&str] = &["maxtension", "a", "s", "t"];

/// The ordinary model, where the supply of `s` costs 2 each.
const PRICED: &[u8] = b"network 1\nnode s -inf 2 +inf\nnode t -5\narc a s t 0 2 4 5 10\n";

/// Nothing leads out of `s`.
const NO_WAY: &[u8] = b"network 1\nnode s 4\n";

#[test]
fn greatest_flows(rt: HostRuntime) -> Result<(), Fail> {
    let rows = [
        plain(
            "the ordinary model",
            FLOW,
            ORDINARY,
            0,
            "maxflow 5\nnode s 5\nnode t -5\narc a 10\nside s\n",
        )
        .or("maxflow 5\nnode s 5\nnode t -5\narc a 10\nside *\nside s\n"),
        plain(
            "an arc without an end",
            FLOW,
            ROUND_FOR_NOTHING,
            16,
            "maxflow unbounded\nnode s 0\nnode t 0\narc a ?\narc b ?\nstep + arc a\n",
        ),
        plain(
            "a supply that nothing takes",
            FLOW,
            b"network 1\nnode s 4\nnode t\n",
            1,
            "maxflow no -4\nside s\nside t\n",
        ),
        plain(
            "the other way round",
            &["maxflow", "a", "t", "s"],
            ORDINARY,
            0,
            "maxflow 5\nnode s 5\nnode t -5\narc a 0\nside t\n",
        )
        .or("maxflow 5\nnode s 5\nnode t -5\narc a 0\nside *\nside t\n"),
    ];
    for row in &rows {
        compare(&rt, rt.alloc(), row)?;
    }
    Ok(())
}

#[test]
fn greatest_tensions(rt: HostRuntime) -> Result<(), Fail> {
    let rows = [
        plain(
            "two prices against each other",
            TENSION,
            ROUND_FOR_NOTHING,
            0,
            "maxtension 2\nnode s U\nnode t U+2\nstep + arc a\n",
        ),
        plain(
            "a circuit",
            TENSION,
            ROUND,
            2,
            "maxtension no -2\nstep + arc a\nstep + arc b\n",
        )
        .or("maxtension no -2\nstep + arc b\nstep + arc a\n"),
        plain(
            "a span without an end",
            TENSION,
            PRICED,
            16,
            "maxtension unbounded\nnode s 2\nnode t ?\nside *\nside s\n",
        ),
    ];
    for row in &rows {
        compare(&rt, rt.alloc(), row)?;
    }
    Ok(())
}

/// A row over the model without a way out.
fn asks(
    name: &'static str,
    words: &'static [&'static str],
    code: u8,
    written: &'static str,
) -> Row {
    plain(name, words, NO_WAY, code, written)
}

#[test]
fn names_of_nodes(rt: HostRuntime) -> Result<(), Fail> {
    let rows = [
        asks(
            "no such goal",
            &["maxflow", "a", "s", "z"],
            17,
            "unknown node\n",
        ),
        asks(
            "no such start",
            &["maxtension", "a", "z", "s"],
            17,
            "unknown node\n",
        ),
        asks("neither", &["maxflow", "a", "y", "z"], 17, "unknown node\n"),
        asks("one node", &["maxflow", "a", "s", "s"], 4, USAGE),
        asks("one unknown node", &["maxtension", "a", "z", "z"], 4, USAGE),
        asks("no goal", &["maxflow", "a", "s"], 4, USAGE),
        asks(
            "a word too many",
            &["maxtension", "a", "s", "t", "u"],
            4,
            USAGE,
        ),
        asks(
            "a file that is not held",
            &["maxflow", "b", "s", "z"],
            6,
            "missing file 1\n",
        ),
        plain(
            "the model text is tested first",
            &["maxflow", "a", "s", "z"],
            b"network 1\nnode s\nnode s\n",
            5,
            "model line 3: twice\n",
        ),
    ];
    for row in &rows {
        compare(&rt, rt.alloc(), row)?;
    }
    Ok(())
}
