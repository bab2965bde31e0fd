// Models that are solved; and what `solve` writes, `check` accepts. Where several certificates are valid, the form of a row
// says what they have in common.
use crate::check_tests::{FULL, ROUND, ROUND_FOR_NOTHING};
use crate::feasible_tests::BOTH_REFUSED;
use crate::tests::{ORDINARY, Row, compare_and_check, plain};
use std::test::Fail;

/// The supply has any size at the potential 2, so the pair is the only optimal one.
pub(crate) const ONE_PAIR: &[u8] =
    b"network 1\nnode s -inf 2 +inf\nnode t -5\narc a s t 0 2 4 5 10\n";

/// The arc takes 3 of 5.
const NARROW: &[u8] = b"network 1\nnode s 5\nnode t -5\narc a s t 0 1 3\n";

/// A million units over one arc.
const LARGE: &[u8] = b"network 1\nnode s 1000000\nnode t -1000000\narc a s t 0 1 1000000\n";

/// As much as a supply can bring.
const LARGEST: &[u8] =
    b"network 1\nnode s 1000000000\nnode t -1000000000\narc a s t 0 1 1000000000 base 1000000000\n";

/// Three plants, four shops; the flow is the only optimal one.
pub(crate) const PLANTS: &[u8] =
    b"network 1\r\n# three plants, four shops\r\nnode plant1 0 10 20 14 40\r\nnode plant2 0 12 30 13 50\r\nnode plant3 0 11 25\r\nnode shop1 -20\r\nnode shop2 -30\r\nnode shop3 -15\r\nnode shop4 -10\r\narc p1s1 plant1 shop1 0 2 50\r\narc p1s2 plant1 shop2 0 4 10 6 50\r\narc p2s2 plant2 shop2 0 3 50\r\narc p2s3 plant2 shop3 0 5 50\r\narc p3s3 plant3 shop3 0 4 50\r\narc p3s4 plant3 shop4 0 1 50\r\narc p2s4 plant2 shop4 0 6 50\r\n";

/// A row that solves.
fn solves(name: &'static str, text: &'static [u8], code: u8, written: &'static str) -> Row {
    plain(name, &["solve", "a"], text, code, written)
}

const OPTIMAL: &str = "accepted optimal\n";

const CUT: &str = "accepted cut\n";

const CIRCUIT: &str = "accepted circuit\n";

#[test]
fn certificates(rt: HostRuntime) -> Result<(), Fail> {
    let rows = [
        solves(
            "the ordinary model",
            ORDINARY,
            0,
            "certificate 1 optimal\ncost 13\nvalue 13\nnode s U 5\nnode t U+5 -5\narc a 5\n",
        ),
        solves(
            "one certificate only",
            ONE_PAIR,
            0,
            "certificate 1 optimal\ncost 23\nvalue 23\nnode s 2 5\nnode t 7 -5\narc a 5\n",
        ),
        solves(
            "a full horizontal line",
            b"network 1\nnode s -inf 3 +inf\n",
            0,
            "certificate 1 optimal\ncost 0\nvalue 0\nnode s 3 0\n",
        ),
        solves(
            "a span sum of 0",
            ROUND_FOR_NOTHING,
            0,
            "certificate 1 optimal\ncost 0\nvalue 0\nnode s U 0\nnode t U+2 0\narc a ?\narc b ?\n",
        ),
        solves(
            "a cut sum of 0",
            FULL,
            0,
            "certificate 1 optimal\ncost 3\nvalue 3\nnode s ? 3\nnode t ? -3\narc a 3\n",
        ),
        solves(
            "an ordinary plan",
            PLANTS,
            0,
            "certificate 1 optimal\ncost 1035\nvalue 1035\nnode plant1 ? 20\nnode plant2 ? 30\nnode plant3 ? 25\nnode shop1 ? -20\nnode shop2 ? -30\nnode shop3 ? -15\nnode shop4 ? -10\narc p1s1 20\narc p1s2 0\narc p2s2 30\narc p2s3 0\narc p3s3 15\narc p3s4 10\narc p2s4 0\n",
        ),
    ];
    for row in &rows {
        compare_and_check(&rt, rt.alloc(), row, OPTIMAL)?;
    }
    Ok(())
}

#[test]
fn large_flows(rt: HostRuntime) -> Result<(), Fail> {
    let rows = [
        solves(
            "a large flow",
            LARGE,
            0,
            "certificate 1 optimal\ncost 1000000\nvalue 1000000\nnode s ? 1000000\nnode t ? -1000000\narc a 1000000\n",
        ),
        solves(
            "the largest flow",
            LARGEST,
            0,
            "certificate 1 optimal\ncost 2000000000\nvalue 2000000000\nnode s ? 1000000000\nnode t ? -1000000000\narc a 1000000000\n",
        ),
    ];
    for row in &rows {
        compare_and_check(&rt, rt.alloc(), row, OPTIMAL)?;
    }
    Ok(())
}

#[test]
fn cuts(rt: HostRuntime) -> Result<(), Fail> {
    let rows = [
        solves(
            "a cut",
            NARROW,
            1,
            "certificate 1 cut\ncapacity -2\nside s\n",
        )
        .or("certificate 1 cut\ncapacity -2\nside *\nside s\n"),
        solves(
            "a cut and a circuit",
            BOTH_REFUSED,
            1,
            "certificate 1 cut\ncapacity -2\n..",
        ),
    ];
    for row in &rows {
        compare_and_check(&rt, rt.alloc(), row, CUT)?;
    }
    Ok(())
}

#[test]
fn circuits(rt: HostRuntime) -> Result<(), Fail> {
    let row = solves(
        "a circuit",
        ROUND,
        2,
        "certificate 1 circuit\nspan -2\nnode s 0\nnode t 0\narc a U\narc b U\nstep + arc a\nstep + arc b\n",
    )
    .or(
        "certificate 1 circuit\nspan -2\nnode s 0\nnode t 0\narc a U\narc b U\nstep + arc b\nstep + arc a\n",
    );
    compare_and_check(&rt, rt.alloc(), &row, CIRCUIT)
}
