// Models that are solved and changed, row by row.
use crate::solve_tests::ONE_PAIR;
use crate::tests::{EMPTY, ORDINARY, Row, USAGE, compare, plain};
use std::test::Fail;

const RESOLVE: &[&str] = &["resolve", "a", "c"];

/// A row that makes changes.
fn resolves(
    name: &'static str,
    text: &'static [u8],
    changes: &'static [u8],
    code: u8,
    written: &'static str,
) -> Row {
    plain(name, RESOLVE, text, code, written).second(changes)
}

#[test]
fn states(rt: HostRuntime) -> Result<(), Fail> {
    let rows = [
        resolves(
            "three changes",
            ONE_PAIR,
            b"changes 1\narc a 0 2 4 5 20\narc a 0 1 3\nnode t -2\n",
            0,
            "state 0 optimal 23\nstate 1 optimal 23\nstate 2 cut -2\nstate 3 optimal 6\ncertificate 1 optimal\ncost 6\nvalue 6\nnode s 2 2\nnode t 3 -2\narc a 2\n",
        ),
        resolves(
            "no change",
            ONE_PAIR,
            b"changes 1",
            0,
            "state 0 optimal 23\ncertificate 1 optimal\ncost 23\nvalue 23\nnode s 2 5\nnode t 7 -5\narc a 5\n",
        ),
        resolves(
            "the arc too small at last",
            ONE_PAIR,
            b"changes 1\narc a 0 1 3\n",
            1,
            "state 0 optimal 23\nstate 1 cut -2\ncertificate 1 cut\ncapacity -2\nside *\nside s\n",
        ),
        resolves(
            "a round at last that pays without end",
            ONE_PAIR,
            b"changes 1\narc a 0 0 inf\nnode t -inf 3 inf\n",
            2,
            "state 0 optimal 23\nstate 1 optimal 10\nstate 2 circuit -1\ncertificate 1 circuit\nspan -1\n..",
        ),
        resolves(
            "a round that has an end, then none, and pays less at last",
            b"network 1\nnode s\nnode t\narc a s t 0 -3 7\narc b t s 0 1 +inf\n",
            b"changes 1\narc a 0 -3 +inf\narc b 0 2 +inf\n",
            2,
            "state 0 optimal -14\nstate 1 circuit -2\nstate 2 circuit -1\ncertificate 1 circuit\nspan -1\nnode s 0\nnode t 0\narc a U\narc b U\nstep + arc a\nstep + arc b\n",
        )
        .or(
            "state 0 optimal -14\nstate 1 circuit -2\nstate 2 circuit -1\ncertificate 1 circuit\nspan -1\nnode s 0\nnode t 0\narc a U\narc b U\nstep + arc b\nstep + arc a\n",
        ),
        resolves(
            "the empty model",
            EMPTY,
            b"changes 1 # none\n\n",
            0,
            "state 0 optimal 0\ncertificate 1 optimal\ncost 0\nvalue 0\n",
        ),
        resolves(
            "the base of an arc",
            ONE_PAIR,
            b"changes 1\narc a 0 2 4 5 10 base -3\n",
            0,
            "state 0 optimal 23\nstate 1 optimal 20\ncertificate 1 optimal\ncost 20\nvalue 20\nnode s 2 5\nnode t 7 -5\narc a 5\n",
        ),
    ];
    for row in &rows {
        compare(&rt, rt.alloc(), row)?;
    }
    Ok(())
}

#[test]
fn refused_changes(rt: HostRuntime) -> Result<(), Fail> {
    let rows = [
        resolves(
            "an arc that isn't there",
            ONE_PAIR,
            b"changes 1\narc z 0 1 2\n",
            19,
            "changes line 2: unknown\n",
        ),
        resolves(
            "a certificate in its place",
            ORDINARY,
            b"certificate 1 optimal\n",
            19,
            "changes line 1: header\n",
        ),
        resolves(
            "a list that falls",
            ORDINARY,
            b"changes 1\n# ..\nnode s 3 1 2\n",
            19,
            "changes line 3: order\n",
        ),
        resolves(
            "a model that is none",
            b"network 3\n",
            b"changes 2\n",
            5,
            "model line 1: header\n",
        ),
        plain(
            "a second file that is not held",
            RESOLVE,
            ORDINARY,
            6,
            "missing file 2\n",
        ),
        resolves(
            "a second file that can't be started",
            ORDINARY,
            b"changes 1\n",
            7,
            "read fault file 2\n",
        )
        .source_fails(&[3]),
        resolves(
            "a second file that can't be read",
            ORDINARY,
            b"changes 1\n",
            7,
            "read fault file 2\n",
        )
        .source_fails(&[4]),
        plain("no changes named", &["resolve", "a"], ORDINARY, 4, USAGE),
    ];
    for row in &rows {
        compare(&rt, rt.alloc(), row)?;
    }
    Ok(())
}
