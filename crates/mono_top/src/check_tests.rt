// Certificates that are checked, row by row. What a row changes of a right certificate is what its name says.
use crate::solve_tests::PLANTS;
use crate::tests::{CERTIFICATE, EMPTY, ORDINARY, TOO_LITTLE, checks, compare};
use std::test::Fail;

/// A corner: the arc carries 4, where any tension from 2 to 5 is on its curve.
const CORNER: &[u8] = b"network 1\nnode s 4\nnode t -4\narc a s t 0 2 4 5 10\n";

/// Two arcs of the same price.
pub(crate) const TWO_WAYS: &[u8] =
    b"network 1\nnode s 6\nnode t -6\narc a s t 0 1 10\narc b s t 0 1 10\n";

/// Going round over a and b earns 2.
pub(crate) const ROUND: &[u8] =
    b"network 1\nnode s\nnode t\narc a s t 0 -3 +inf\narc b t s 0 1 +inf\n";

/// Going round earns nothing.
pub(crate) const ROUND_FOR_NOTHING: &[u8] =
    b"network 1\nnode s\nnode t\narc a s t 0 2 +inf\narc b t s 0 -2 +inf\n";

/// The arc takes just what the supply brings.
pub(crate) const FULL: &[u8] = b"network 1\nnode s 3\nnode t -3\narc a s t 0 1 3\n";

const WRONG_SUPPLY: &[u8] =
    b"certificate 1 optimal\ncost 13\nvalue 13\nnode s 0 6\nnode t 5 -5\narc a 6\n";

const ACCEPTED_OPTIMAL: &str = "accepted optimal\n";

#[test]
fn certificates(rt: HostRuntime) -> Result<(), Fail> {
    let rows = [
        checks(
            "right",
            ORDINARY,
            b"certificate 1 optimal\ncost 13\nvalue 13\nnode s 0 5\nnode t 5 -5\narc a 5\n",
            0,
            ACCEPTED_OPTIMAL,
        ),
        checks(
            "a wrong cost",
            ORDINARY,
            b"certificate 1 optimal\ncost 14\nvalue 13\nnode s 0 5\nnode t 5 -5\narc a 5\n",
            3,
            "rejected wrong-number stated 14 right 13\n",
        ),
        checks(
            "a wrong value",
            ORDINARY,
            b"certificate 1 optimal\ncost 13\nvalue 12\nnode s 0 5\nnode t 5 -5\narc a 5\n",
            3,
            "rejected wrong-number stated 12 right 13\n",
        ),
        checks(
            "a wrong flow",
            ORDINARY,
            b"certificate 1 optimal\ncost 13\nvalue 13\nnode s 0 5\nnode t 5 -5\narc a 6\n",
            3,
            "rejected not-conserved node s\n",
        ),
        checks(
            "a wrong flow and a wrong supply",
            ORDINARY,
            WRONG_SUPPLY,
            3,
            "rejected not-conserved node *\n",
        ),
        checks(
            "a tension off the curve",
            ORDINARY,
            b"certificate 1 optimal\ncost 13\nvalue 13\nnode s 0 5\nnode t 0 -5\narc a 5\n",
            3,
            "rejected off-curve arc a\n",
        ),
        checks(
            "a leading zero",
            ORDINARY,
            b"certificate 1 optimal\ncost 13\nvalue 13\nnode s 0 5\nnode t 5 -5\narc a 05\n",
            3,
            "rejected bad-text line 6\n",
        ),
        checks(
            "a line left out",
            ORDINARY,
            b"certificate 1 optimal\ncost 13\nvalue 13\nnode s 0 5\nnode t 5 -5\n",
            3,
            "rejected bad-text line 6\n",
        ),
        checks(
            "the last end of line left out",
            ORDINARY,
            b"certificate 1 optimal\ncost 13\nvalue 13\nnode s 0 5\nnode t 5 -5\narc a 5",
            3,
            "rejected bad-text line 6\n",
        ),
        checks(
            "an empty line at the end",
            ORDINARY,
            b"certificate 1 optimal\ncost 13\nvalue 13\nnode s 0 5\nnode t 5 -5\narc a 5\n\n",
            3,
            "rejected bad-text line 7\n",
        ),
        checks(
            "an ordinary plan",
            PLANTS,
            b"certificate 1 optimal\ncost 1035\nvalue 1035\nnode plant1 12 20\nnode plant2 12 30\nnode plant3 11 25\nnode shop1 14 -20\nnode shop2 15 -30\nnode shop3 15 -15\nnode shop4 12 -10\narc p1s1 20\narc p1s2 0\narc p2s2 30\narc p2s3 0\narc p3s3 15\narc p3s4 10\narc p2s4 0\n",
            0,
            ACCEPTED_OPTIMAL,
        ),
    ];
    for row in &rows {
        compare(&rt, rt.alloc(), row)?;
    }
    Ok(())
}

#[test]
fn corners_and_ties(rt: HostRuntime) -> Result<(), Fail> {
    let rows = [
        checks(
            "a corner, below",
            CORNER,
            b"certificate 1 optimal\ncost 8\nvalue 8\nnode s 0 4\nnode t 1 -4\narc a 4\n",
            3,
            "rejected off-curve arc a\n",
        ),
        checks(
            "a corner, at its lower end",
            CORNER,
            b"certificate 1 optimal\ncost 8\nvalue 8\nnode s 0 4\nnode t 2 -4\narc a 4\n",
            0,
            ACCEPTED_OPTIMAL,
        ),
        checks(
            "a corner, within",
            CORNER,
            b"certificate 1 optimal\ncost 8\nvalue 8\nnode s 0 4\nnode t 3 -4\narc a 4\n",
            0,
            ACCEPTED_OPTIMAL,
        ),
        checks(
            "a corner, within again",
            CORNER,
            b"certificate 1 optimal\ncost 8\nvalue 8\nnode s 0 4\nnode t 4 -4\narc a 4\n",
            0,
            ACCEPTED_OPTIMAL,
        ),
        checks(
            "a corner, at its upper end",
            CORNER,
            b"certificate 1 optimal\ncost 8\nvalue 8\nnode s 0 4\nnode t 5 -4\narc a 4\n",
            0,
            ACCEPTED_OPTIMAL,
        ),
        checks(
            "a corner, above",
            CORNER,
            b"certificate 1 optimal\ncost 8\nvalue 8\nnode s 0 4\nnode t 6 -4\narc a 4\n",
            3,
            "rejected off-curve arc a\n",
        ),
        checks(
            "two ways, all on one",
            TWO_WAYS,
            b"certificate 1 optimal\ncost 6\nvalue 6\nnode s 0 6\nnode t 1 -6\narc a 6\narc b 0\n",
            0,
            ACCEPTED_OPTIMAL,
        ),
        checks(
            "two ways, half on each",
            TWO_WAYS,
            b"certificate 1 optimal\ncost 6\nvalue 6\nnode s 0 6\nnode t 1 -6\narc a 3\narc b 3\n",
            0,
            ACCEPTED_OPTIMAL,
        ),
    ];
    for row in &rows {
        compare(&rt, rt.alloc(), row)?;
    }
    Ok(())
}

#[test]
fn cuts(rt: HostRuntime) -> Result<(), Fail> {
    let rows = [
        checks(
            "a cut sum of 0",
            FULL,
            b"certificate 1 cut\ncapacity 0\nside s\n",
            3,
            "rejected not-negative\n",
        ),
        checks("the empty model", EMPTY, CERTIFICATE, 0, ACCEPTED_OPTIMAL),
        checks(
            "a cut that forces",
            TOO_LITTLE,
            b"certificate 1 cut\ncapacity -2\nside s\n",
            0,
            "accepted cut\n",
        ),
    ];
    for row in &rows {
        compare(&rt, rt.alloc(), row)?;
    }
    Ok(())
}

#[test]
fn circuits(rt: HostRuntime) -> Result<(), Fail> {
    let rows = [
        checks(
            "right",
            ROUND,
            b"certificate 1 circuit\nspan -2\nnode s 0\nnode t 0\narc a 0\narc b 0\nstep + arc a\nstep + arc b\n",
            0,
            "accepted circuit\n",
        ),
        checks(
            "the steps twice over",
            ROUND,
            b"certificate 1 circuit\nspan -4\nnode s 0\nnode t 0\narc a 0\narc b 0\nstep + arc a\nstep + arc b\nstep + arc a\nstep + arc b\n",
            3,
            "rejected not-circuit step 3\n",
        ),
        checks(
            "the second step left out",
            ROUND,
            b"certificate 1 circuit\nspan -2\nnode s 0\nnode t 0\narc a 0\narc b 0\nstep + arc a\n",
            3,
            "rejected not-circuit step 2\n",
        ),
        checks(
            "both steps left out",
            ROUND,
            b"certificate 1 circuit\nspan -2\nnode s 0\nnode t 0\narc a 0\narc b 0\n",
            3,
            "rejected not-circuit step 1\n",
        ),
        checks(
            "a flow that is not conserved",
            ROUND,
            b"certificate 1 circuit\nspan -2\nnode s 0\nnode t 0\narc a 1\narc b 0\nstep + arc a\nstep + arc b\n",
            3,
            "rejected not-conserved node s\n",
        ),
        checks(
            "flows below 0",
            ROUND,
            b"certificate 1 circuit\nspan -2\nnode s 0\nnode t 0\narc a -1\narc b -1\nstep + arc a\nstep + arc b\n",
            3,
            "rejected out-of-capacity arc a\n",
        ),
        checks(
            "a step over an end of no potential",
            ROUND,
            b"certificate 1 circuit\nspan -2\nnode s 0\nnode t 0\narc a 0\narc b 0\nstep + arc a\nstep - node t\nstep + node s\n",
            3,
            "rejected endless node t\n",
        ),
        checks(
            "a wrong span",
            ROUND,
            b"certificate 1 circuit\nspan -3\nnode s 0\nnode t 0\narc a 0\narc b 0\nstep + arc a\nstep + arc b\n",
            3,
            "rejected wrong-number stated -3 right -2\n",
        ),
        checks(
            "a cut in place of the circuit",
            ROUND,
            b"certificate 1 cut\ncapacity 0\nside s\n",
            3,
            "rejected endless arc a\n",
        ),
        checks(
            "a span sum of 0",
            ROUND_FOR_NOTHING,
            b"certificate 1 circuit\nspan 0\nnode s 0\nnode t 0\narc a 0\narc b 0\nstep + arc a\nstep + arc b\n",
            3,
            "rejected not-negative\n",
        ),
    ];
    for row in &rows {
        compare(&rt, rt.alloc(), row)?;
    }
    Ok(())
}
