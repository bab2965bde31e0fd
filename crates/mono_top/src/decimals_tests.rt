// Models with decimals, row by row: flows, tensions and costs each have their own.
use crate::solve_tests::ONE_PAIR;
use crate::tests::{EMPTY, ORDINARY, Row, USAGE, checks, compare, compare_and_check, plain};
use std::test::Fail;

/// The ordinary model with decimals, where each unit of the supply costs 2.5. Inside, the flow is 50, and its cost 26500.
const PRICED: &[u8] =
    b"network 2\ndecimals 1 2\nnode s -inf 2.5 +inf\nnode t -5\narc a s t 0 2.25 4 5 10\n";

const PRICED_SOLVED: &str =
    "certificate 2 optimal\ncost 26.500\nvalue 26.500\nnode s 2.50 5.0\nnode t 7.50 -5.0\narc a 5.0\n";

const PRICED_CERTIFICATE: &[u8] =
    b"certificate 2 optimal\ncost 26.500\nvalue 26.500\nnode s 2.50 5.0\nnode t 7.50 -5.0\narc a 5.0\n";

/// The arc takes 3 of 5.
const TOO_LITTLE: &[u8] =
    b"network 2\ndecimals 1 2\nnode s 5\nnode t -5\narc a s t 0 2.25 2 7.25 3 base -0.125\n";

/// Going round earns 0.02 each.
const ROUND: &[u8] =
    b"network 2\ndecimals 1 2\nnode s\nnode t\narc a s t 0 -0.03 +inf\narc b t s 0 0.01 +inf\n";

#[test]
fn plans(rt: HostRuntime) -> Result<(), Fail> {
    let row = plain("a plan", &["solve", "a"], PRICED, 0, PRICED_SOLVED);
    compare_and_check(&rt, rt.alloc(), &row, "accepted optimal\n")?;
    let row = plain(
        "a cut",
        &["solve", "a"],
        TOO_LITTLE,
        1,
        "certificate 2 cut\ncapacity -2.0\nside s\n",
    )
    .or("certificate 2 cut\ncapacity -2.0\nside *\nside s\n");
    compare_and_check(&rt, rt.alloc(), &row, "accepted cut\n")?;
    let row = plain(
        "a circuit",
        &["solve", "a"],
        ROUND,
        2,
        "certificate 2 circuit\nspan -0.02\n..",
    );
    compare_and_check(&rt, rt.alloc(), &row, "accepted circuit\n")?;
    Ok(())
}

/// A row of a model that is refused.
fn refuses(name: &'static str, text: &'static [u8], written: &'static str) -> Row {
    plain(name, &["solve", "a"], text, 5, written)
}

#[test]
fn refused_models(rt: HostRuntime) -> Result<(), Fail> {
    let rows = [
        refuses(
            "a decimal too many",
            b"network 2\ndecimals 1 2\nnode s -inf 2.5 +inf\nnode t -5\narc a s t 0 2.255 4 5 10\n",
            "model line 5: number\n",
        ),
        refuses(
            "no decimals line",
            b"network 2\nnode s 1\n",
            "model line 2: header\n",
        ),
        refuses(
            "nothing behind the first line",
            b"network 2\n",
            "model line 2: header\n",
        ),
        refuses(
            "a decimal in version 1",
            b"network 1\nnode s 1.0\n",
            "model line 2: number\n",
        ),
        refuses(
            "no digit before the point",
            b"network 2\ndecimals 1 2\nnode s 5 base -.5\n",
            "model line 3: number\n",
        ),
        refuses(
            "a kept number that is too great",
            b"network 2\ndecimals 1 2\nnode s 100000000.1\n",
            "model line 3: limit\n",
        ),
    ];
    for row in &rows {
        compare(&rt, rt.alloc(), row)?;
    }
    Ok(())
}

#[test]
fn checked(rt: HostRuntime) -> Result<(), Fail> {
    let rows = [
        checks(
            "a plan",
            PRICED,
            PRICED_CERTIFICATE,
            0,
            "accepted optimal\n",
        ),
        checks(
            "a decimal too few",
            PRICED,
            b"certificate 2 optimal\ncost 26.50\nvalue 26.500\nnode s 2.50 5.0\nnode t 7.50 -5.0\narc a 5.0\n",
            3,
            "rejected bad-text line 2\n",
        ),
        checks(
            "a head of version 1",
            PRICED,
            b"certificate 1 optimal\ncost 26.500\nvalue 26.500\nnode s 2.50 5.0\nnode t 7.50 -5.0\narc a 5.0\n",
            3,
            "rejected bad-text line 1\n",
        ),
        checks(
            "a wrong cost",
            PRICED,
            b"certificate 2 optimal\ncost 26.501\nvalue 26.500\nnode s 2.50 5.0\nnode t 7.50 -5.0\narc a 5.0\n",
            3,
            "rejected wrong-number stated 26.501 right 26.500\n",
        ),
        checks(
            "a wrong capacity",
            TOO_LITTLE,
            b"certificate 2 cut\ncapacity -2.1\nside s\n",
            3,
            "rejected wrong-number stated -2.1 right -2.0\n",
        ),
        checks(
            "a wrong span",
            ROUND,
            b"certificate 2 circuit\nspan -0.01\nnode s 0.0\nnode t 0.0\narc a 0.0\narc b 0.0\nstep + arc a\nstep + arc b\n",
            3,
            "rejected wrong-number stated -0.01 right -0.02\n",
        ),
    ];
    for row in &rows {
        compare(&rt, rt.alloc(), row)?;
    }
    Ok(())
}

#[test]
fn feasibility(rt: HostRuntime) -> Result<(), Fail> {
    let rows = [
        plain(
            "a flow and a potential",
            &["feasible", "a"],
            PRICED,
            0,
            "flow yes\nnode s 5.0\nnode t -5.0\narc a 5.0\ntension yes\nnode s 2.50\n..",
        ),
        plain(
            "a cut",
            &["feasible", "a"],
            TOO_LITTLE,
            1,
            "flow no -2.0\n..tension yes",
        ),
        plain(
            "a circuit",
            &["feasible", "a"],
            ROUND,
            2,
            "flow yes\nnode s 0.0\nnode t 0.0\narc a 0.0\narc b 0.0\ntension no -0.02\n..",
        ),
    ];
    for row in &rows {
        compare(&rt, rt.alloc(), row)?;
    }
    Ok(())
}

#[test]
fn curves(rt: HostRuntime) -> Result<(), Fail> {
    let rows = [
        plain(
            "two prices",
            &["curve", "a", "a"],
            PRICED,
            0,
            "curve 0.0 2.25 4.0 5.00 10.0 base 0.000\nconjugate -inf 0.0 2.25 4.0 5.00 10.0 +inf base 0.000\n",
        ),
        plain(
            "a base",
            &["curve", "a", "a"],
            TOO_LITTLE,
            0,
            "curve 0.0 2.25 2.0 7.25 3.0 base -0.125\nconjugate -inf 0.0 2.25 2.0 7.25 3.0 +inf base 0.125\n",
        ),
        plain(
            "flows alone have decimals",
            &["curve", "a", "h"],
            b"network 2\ndecimals 3 0\nnode s\nnode t\narc h s t 2 3 6 base 10\n",
            0,
            "curve 2.000 3 6.000 base 10.000\nconjugate -inf 2.000 3 6.000 +inf base -10.000\n",
        ),
    ];
    for row in &rows {
        compare(&rt, rt.alloc(), row)?;
    }
    Ok(())
}

#[test]
fn flows_and_tensions(rt: HostRuntime) -> Result<(), Fail> {
    let rows = [
        plain(
            "a greatest flow",
            &["maxflow", "a", "s", "t"],
            PRICED,
            0,
            "maxflow 5.0\nnode s 5.0\nnode t -5.0\narc a 10.0\nside *\nside s\n",
        ),
        plain(
            "no flow",
            &["maxflow", "a", "s", "t"],
            b"network 2\ndecimals 1 2\nnode s 4\nnode t\n",
            1,
            "maxflow no -4.0\nside s\nside t\n",
        ),
        plain(
            "a greatest tension",
            &["maxtension", "a", "s", "t"],
            b"network 2\ndecimals 1 2\nnode s -inf 2.5 +inf\nnode t -inf 4.75 +inf\n",
            0,
            "maxtension 2.25\nnode s 2.50\nnode t 4.75\nstep - node s\nstep + node t\n",
        ),
        plain(
            "no potential",
            &["maxtension", "a", "s", "t"],
            ROUND,
            2,
            "maxtension no -0.02\n..",
        ),
        plain("a piece", &["pieces", "a", "c"], PRICED, 0, PIECE).second(PRICED_CERTIFICATE),
    ];
    for row in &rows {
        compare(&rt, rt.alloc(), row)?;
    }
    Ok(())
}

const PIECE: &str = "pieces 1\npiece 5.0\nstep + node s\nstep + arc a\nstep - node t\n";

#[test]
fn changes(rt: HostRuntime) -> Result<(), Fail> {
    let rows = [
        plain(
            "three changes",
            &["resolve", "a", "c"],
            PRICED,
            0,
            "state 0 optimal 26.500\nstate 1 optimal 26.500\nstate 2 cut -2.0\nstate 3 optimal 8.750\ncertificate 2 optimal\ncost 8.750\nvalue 8.750\nnode s 2.50 2.5\nnode t 3.50 -2.5\narc a 2.5\n",
        )
        .second(b"changes 1\narc a 0 2.25 4 5 20\narc a 0 1 3\nnode t -2.5\n"),
        plain(
            "a round that pays",
            &["resolve", "a", "c"],
            PRICED,
            2,
            "state 0 optimal 26.500\nstate 1 optimal 12.500\nstate 2 circuit -0.75\ncertificate 2 circuit\nspan -0.75\n..",
        )
        .second(b"changes 1\narc a 0 0 inf\nnode t -inf 3.25 inf\n"),
        plain(
            "a decimal too many",
            &["resolve", "a", "c"],
            PRICED,
            19,
            "changes line 2: number\n",
        )
        .second(b"changes 1\nnode t -2.55\n"),
    ];
    for row in &rows {
        compare(&rt, rt.alloc(), row)?;
    }
    Ok(())
}

/// A row of a conversion.
fn converts(
    name: &'static str,
    words: &'static [&'static str],
    text: &'static [u8],
    written: &'static str,
) -> Row {
    plain(name, words, text, 0, written)
}

#[test]
fn conversions(rt: HostRuntime) -> Result<(), Fail> {
    let rows = [
        converts(
            "from whole numbers",
            &["convert", "a", "1", "2"],
            ONE_PAIR,
            "network 2\ndecimals 1 2\nnode s -inf 2.00 +inf\nnode t -5.0\narc a s t 0.0 2.00 4.0 5.00 10.0\n",
        ),
        converts(
            "to its own scale",
            &["convert", "a", "1", "2"],
            PRICED,
            "network 2\ndecimals 1 2\nnode s -inf 2.50 +inf\nnode t -5.0\narc a s t 0.0 2.25 4.0 5.00 10.0\n",
        ),
        converts(
            "as few decimals as there can be",
            &["convert", "a", "0", "2"],
            PRICED,
            "network 2\ndecimals 0 2\nnode s -inf 2.50 +inf\nnode t -5\narc a s t 0 2.25 4 5.00 10\n",
        ),
        converts(
            "as many of both",
            &["convert", "a", "3", "3"],
            TOO_LITTLE,
            "network 2\ndecimals 3 3\nnode s 5.000\nnode t -5.000\narc a s t 0.000 2.250 2.000 7.250 3.000 base -0.125000\n",
        ),
        converts(
            "whole numbers of version 2",
            &["convert", "a", "0", "0"],
            ORDINARY,
            "network 2\ndecimals 0 0\nnode s 5\nnode t -5\narc a s t 0 2 4 5 10\n",
        ),
        converts(
            "the empty model",
            &["convert", "a", "6", "6"],
            EMPTY,
            "network 2\ndecimals 6 6\n",
        ),
        converts(
            "the greatest number",
            &["convert", "a", "1", "0"],
            b"network 1\nnode s 100000000\n",
            "network 2\ndecimals 1 0\nnode s 100000000.0\n",
        ),
        plain(
            "the second write fails",
            &["convert", "a", "1", "1"],
            EMPTY,
            8,
            "net",
        )
        .sink_fails(&[1]),
    ];
    for row in &rows {
        compare(&rt, rt.alloc(), row)?;
    }
    Ok(())
}

/// A row of a model that isn't one at the scale.
fn not_converted(name: &'static str, words: &'static [&'static str], text: &'static [u8]) -> Row {
    plain(name, words, text, 14, "not converted\n")
}

#[test]
fn models_not_converted(rt: HostRuntime) -> Result<(), Fail> {
    let rows = [
        not_converted(
            "prices that aren't whole",
            &["convert", "a", "0", "0"],
            PRICED,
        ),
        not_converted(
            "a number that is too great",
            &["convert", "a", "1", "0"],
            b"network 1\nnode s 100000001\n",
        ),
        not_converted(
            "a base that is too great",
            &["convert", "a", "5", "5"],
            b"network 1\nnode s 0 base -1\n",
        ),
        not_converted(
            "a base that isn't whole",
            &["convert", "a", "0", "2"],
            TOO_LITTLE,
        ),
        plain(
            "the model text is tested first",
            &["convert", "a", "0", "0"],
            b"network 2\ndecimals 1 2\nnode s 0.5\nnode s\n",
            5,
            "model line 4: twice\n",
        ),
        plain(
            "a file that is not held",
            &["convert", "b", "0", "0"],
            EMPTY,
            6,
            "missing file 1\n",
        ),
        plain("no decimals", &["convert", "a"], EMPTY, 4, USAGE),
        plain(
            "no decimals of tensions",
            &["convert", "a", "1"],
            EMPTY,
            4,
            USAGE,
        ),
        plain(
            "a word too many",
            &["convert", "a", "1", "2", "3"],
            EMPTY,
            4,
            USAGE,
        ),
        plain(
            "too many decimals",
            &["convert", "a", "7", "0"],
            EMPTY,
            4,
            USAGE,
        ),
        plain("two digits", &["convert", "a", "1", "02"], EMPTY, 4, USAGE),
        plain("a sign", &["convert", "a", "+1", "2"], EMPTY, 4, USAGE),
        plain("an empty word", &["convert", "a", "1", ""], EMPTY, 4, USAGE),
    ];
    for row in &rows {
        compare(&rt, rt.alloc(), row)?;
    }
    Ok(())
}
