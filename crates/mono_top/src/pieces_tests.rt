// Flows that are split, row by row.
use crate::check_tests::TWO_WAYS;
use crate::tests::{CERTIFICATE, EMPTY, ORDINARY, Row, TOO_LITTLE, compare, plain};
use std::test::Fail;

const PIECES: &[&str] = &["pieces", "a", "c"];

/// A row that splits the flow of a certificate.
fn splits(
    name: &'static str,
    text: &'static [u8],
    certificate: &'static [u8],
    code: u8,
    written: &'static str,
) -> Row {
    plain(name, PIECES, text, code, written).second(certificate)
}

#[test]
fn flows_in_pieces(rt: HostRuntime) -> Result<(), Fail> {
    let rows = [
        splits(
            "the ordinary model",
            ORDINARY,
            b"certificate 1 optimal\ncost 13\nvalue 13\nnode s 0 5\nnode t 5 -5\narc a 5\n",
            0,
            "pieces 1\npiece 5\nstep + node s\nstep + arc a\nstep - node t\n",
        ),
        splits(
            "two ways, half on each",
            TWO_WAYS,
            b"certificate 1 optimal\ncost 6\nvalue 6\nnode s 0 6\nnode t 1 -6\narc a 3\narc b 3\n",
            0,
            "pieces 2\npiece 3\nstep + node s\nstep + arc a\nstep - node t\npiece 3\nstep + node s\nstep + arc b\nstep - node t\n",
        )
        .or(
            "pieces 2\npiece 3\nstep + node s\nstep + arc b\nstep - node t\npiece 3\nstep + node s\nstep + arc a\nstep - node t\n",
        ),
        splits("the empty model", EMPTY, CERTIFICATE, 0, "pieces 0\n"),
        splits(
            "a cut",
            TOO_LITTLE,
            b"certificate 1 cut\ncapacity -2\nside s\n",
            15,
            "no flow\n",
        ),
        splits(
            "a leading zero",
            ORDINARY,
            b"certificate 1 optimal\ncost 13\nvalue 13\nnode s 0 5\nnode t 5 -5\narc a 05\n",
            3,
            "rejected bad-text line 6\n",
        ),
        splits(
            "a wrong cost",
            ORDINARY,
            b"certificate 1 optimal\ncost 14\nvalue 13\nnode s 0 5\nnode t 5 -5\narc a 5\n",
            3,
            "rejected wrong-number stated 14 right 13\n",
        ),
        plain(
            "a second file that is not held",
            PIECES,
            ORDINARY,
            6,
            "missing file 2\n",
        ),
    ];
    for row in &rows {
        compare(&rt, rt.alloc(), row)?;
    }
    Ok(())
}
