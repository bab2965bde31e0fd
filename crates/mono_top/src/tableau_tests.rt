// Calls of `tableau`, row by row.
use crate::tests::{EMPTY, USAGE, compare, compare_with, plain};
use std::alloc::{AllocError, Global};
use std::test::Fail;

const RING: &[u8] =
    b"network 1\nnode p\nnode q\nnode r\narc a p q 0 1 5\narc b q r 0 1 5\narc c r p 0 1 5\n";

const RING_SHOWN: &str =
    "tableau 3 3\ncolumn node q\ncolumn node r\ncolumn arc c\nrow node p - - 0\nrow arc a - - +\nrow arc b 0 - +\n";

/// A model of nodes alone.
fn nodes(alloc: Global, count: u32) -> Result<String, AllocError> {
    let mut text = String::from_str(alloc, "network 1\n")?;
    for i in 0..count {
        text.push_str("node n")?;
        text.push_str(format!(in alloc; "{i}\n")?.as_str())?;
    }
    Ok(text)
}

#[test]
fn tableaux(rt: HostRuntime) -> Result<(), Fail> {
    let alloc = rt.alloc();
    let rows = [
        plain("a ring of three", &["tableau", "a"], RING, 0, RING_SHOWN),
        plain(
            "the empty model",
            &["tableau", "a"],
            EMPTY,
            0,
            "tableau 0 0\n",
        ),
        plain("a word too many", &["tableau", "a", "b"], EMPTY, 4, USAGE),
    ];
    for row in &rows {
        compare(&rt, alloc, row)?;
    }
    let most = plain(
        "199 nodes",
        &["tableau", "c"],
        EMPTY,
        0,
        "tableau 199 0\n..row node n198",
    );
    compare_with(&rt, alloc, &most, Some(nodes(alloc, 199)?.as_bytes()))?;
    let more = plain("200 nodes", &["tableau", "c"], EMPTY, 11, "too big\n");
    compare_with(&rt, alloc, &more, Some(nodes(alloc, 200)?.as_bytes()))?;
    Ok(())
}
