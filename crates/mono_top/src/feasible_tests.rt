// Feasible flows and potentials.
use crate::check_tests::ROUND;
use crate::tests::{EMPTY, ORDINARY, compare, plain};
use std::test::Fail;

/// The arc a takes 3 of the 5 that the supply brings, and going round over c and d earns 2.
pub(crate) const BOTH_REFUSED: &[u8] =
    b"network 1\nnode s 5\nnode t -5\narc a s t 0 1 3\nnode p\nnode q\narc c p q 0 -3 +inf\narc d q p 0 1 +inf\n";

#[test]
fn feasibility(rt: HostRuntime) -> Result<(), Fail> {
    let rows = [
        plain(
            "the empty model",
            &["feasible", "a"],
            EMPTY,
            0,
            "flow yes\ntension yes\n",
        ),
        plain(
            "no way out",
            &["feasible", "a"],
            b"network 1\nnode s 4",
            1,
            "flow no -4\nside s\ntension yes\nnode s 0\n",
        ),
        plain(
            "the ordinary model",
            &["feasible", "a"],
            ORDINARY,
            0,
            "flow yes\nnode s 5\nnode t -5\narc a 5\ntension yes\nnode s ?\nnode t ?\n",
        ),
        plain(
            "a circuit",
            &["feasible", "a"],
            ROUND,
            2,
            "flow yes\nnode s 0\nnode t 0\narc a 0\narc b 0\ntension no -2\nstep + arc a\nstep + arc b\n",
        )
        .or(
            "flow yes\nnode s 0\nnode t 0\narc a 0\narc b 0\ntension no -2\nstep + arc b\nstep + arc a\n",
        ),
        plain(
            "a cut and a circuit",
            &["feasible", "a"],
            BOTH_REFUSED,
            1,
            "flow no -2\n..tension no -2",
        ),
        plain(
            "a file that is not held",
            &["feasible", "b"],
            EMPTY,
            6,
            "missing file 1\n",
        ),
        plain(
            "an empty file",
            &["feasible", "a"],
            b"",
            5,
            "model line 1: header\n",
        ),
    ];
    for row in &rows {
        compare(&rt, rt.alloc(), row)?;
    }
    Ok(())
}
