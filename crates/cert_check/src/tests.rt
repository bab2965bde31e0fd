// Certificates of small models, right and wrong, with the verdicts found by hand. Node 0 is the ground; the arcs of the
// nodes come before those of the model.
use crate::{Judged, verdict};
use cert_text::read_cert;
use ground_net::ground;
use model_text::read_model;
use net_incidence::{ArcId, NodeId};
use std::alloc::Global;
use std::test::Fail;

/// At 5 units the arc costs 2 * 4 + 5 * 1.
const ORDINARY: &[u8] = b"network 1\nnode s 5\nnode t -5\narc a s t 0 2 4 5 10\n";

/// At 4 units the arc is at the corner between its two pieces.
const CORNER: &[u8] = b"network 1\nnode s 4\nnode t -4\narc a s t 0 2 4 5 10\n";

/// The arc carries 3 of the 5 that come in.
const TOO_LITTLE: &[u8] = b"network 1\nnode s 5\nnode t -5\narc a s t 3\n";

/// Round by a and b each unit gains 2, round by c and b it costs 3.
const ROUND: &[u8] =
    b"network 1\nnode s\nnode t\narc a s t 0 -3 +inf\narc b t s 0 1 +inf\narc c s t 0 2 +inf\n";

/// With one decimal of flows and two of tensions: 4 units at 2.25 and one at 5, and each at 2.50 before.
const IN_DECIMALS: &[u8] =
    b"network 2\ndecimals 1 2\nnode s -inf 2.5 +inf\nnode t -5\narc a s t 0 2.25 4 5 10\n";

fn judged(alloc: Global, model: &[u8], certificate: &[u8]) -> Result<Option<Judged>, Fail> {
    if model.len() > 1000 || certificate.len() > 1000 {
        return Ok(None);
    }
    let m = read_model(alloc, model)?;
    let g = ground(alloc, &m)?;
    let c = read_cert(alloc, &m, certificate)?;
    Ok(Some(verdict(&g, &c)))
}

#[test]
fn rows(rt: HostRuntime) -> Result<(), Fail> {
    for (model, certificate, want) in [
        (
            ORDINARY,
            b"certificate 1 optimal\ncost 13\nvalue 13\nnode s 0 5\nnode t 5 -5\narc a 5\n".as_slice(),
            Judged::Accepted,
        ),
        // The unit that the ground gives stays at t: both are unbalanced, and the ground comes first.
        (
            ORDINARY,
            b"certificate 1 optimal\ncost 13\nvalue 13\nnode s 0 5\nnode t 5 -4\narc a 5\n",
            Judged::NotConserved(NodeId(0)),
        ),
        (
            ORDINARY,
            b"certificate 1 optimal\ncost 13\nvalue 13\nnode s 0 5\nnode t 5 -5\narc a 4\n",
            Judged::NotConserved(NodeId(1)),
        ),
        (
            ORDINARY,
            b"certificate 1 optimal\ncost 13\nvalue 13\nnode s 0 6\nnode t 5 -6\narc a 6\n",
            Judged::OffCurve(ArcId(0)),
        ),
        (
            ORDINARY,
            b"certificate 1 optimal\ncost 13\nvalue 13\nnode s 0 5\nnode t 4 -5\narc a 5\n",
            Judged::OffCurve(ArcId(2)),
        ),
        (
            ORDINARY,
            b"certificate 1 optimal\ncost 14\nvalue 12\nnode s 0 5\nnode t 5 -5\narc a 5\n",
            Judged::WrongNumber {
                stated: 14,
                right: 13,
            },
        ),
        (
            ORDINARY,
            b"certificate 1 optimal\ncost 13\nvalue 12\nnode s 0 5\nnode t 5 -5\narc a 5\n",
            Judged::WrongNumber {
                stated: 12,
                right: 13,
            },
        ),
        (
            CORNER,
            b"certificate 1 optimal\ncost 8\nvalue 8\nnode s 0 4\nnode t 3 -4\narc a 4\n",
            Judged::Accepted,
        ),
        (
            CORNER,
            b"certificate 1 optimal\ncost 8\nvalue 8\nnode s 0 4\nnode t 6 -4\narc a 4\n",
            Judged::OffCurve(ArcId(2)),
        ),
        (
            TOO_LITTLE,
            b"certificate 1 cut\ncapacity -2\nside s\n",
            Judged::Accepted,
        ),
        (
            TOO_LITTLE,
            b"certificate 1 cut\ncapacity -3\nside s\n",
            Judged::WrongNumber {
                stated: -3,
                right: -2,
            },
        ),
        (
            TOO_LITTLE,
            b"certificate 1 cut\ncapacity 2\nside t\n",
            Judged::NotNegative,
        ),
        (
            TOO_LITTLE,
            b"certificate 1 cut\ncapacity 0\n",
            Judged::NotNegative,
        ),
        (
            ROUND,
            b"certificate 1 cut\ncapacity 0\nside s\n",
            Judged::Endless(ArcId(2)),
        ),
        (
            ROUND,
            b"certificate 1 circuit\nspan -2\nnode s 0\nnode t 0\narc a 0\narc b 0\narc c 0\nstep + arc a\nstep + arc b\n",
            Judged::Accepted,
        ),
        (
            ROUND,
            b"certificate 1 circuit\nspan -3\nnode s 0\nnode t 0\narc a 0\narc b 0\narc c 0\nstep + arc a\nstep + arc b\n",
            Judged::WrongNumber {
                stated: -3,
                right: -2,
            },
        ),
        (
            ROUND,
            b"certificate 1 circuit\nspan 3\nnode s 0\nnode t 0\narc a 0\narc b 0\narc c 0\nstep + arc c\nstep + arc b\n",
            Judged::NotNegative,
        ),
        (
            ROUND,
            b"certificate 1 circuit\nspan -2\nnode s 0\nnode t 0\narc a 1\narc b 0\narc c 0\nstep + arc a\nstep + arc b\n",
            Judged::NotConserved(NodeId(1)),
        ),
        (
            ROUND,
            b"certificate 1 circuit\nspan -2\nnode s 0\nnode t 0\narc a -1\narc b -1\narc c 0\nstep + arc a\nstep + arc b\n",
            Judged::OutOfCapacity(ArcId(2)),
        ),
        // No step, a step back over the arc of the step before, and a walk that is left open.
        (
            ROUND,
            b"certificate 1 circuit\nspan 0\nnode s 0\nnode t 0\narc a 0\narc b 0\narc c 0\n",
            Judged::NotCircuit(1),
        ),
        (
            ROUND,
            b"certificate 1 circuit\nspan -3\nnode s 0\nnode t 0\narc a 0\narc b 0\narc c 0\nstep + arc a\nstep - arc a\n",
            Judged::NotCircuit(2),
        ),
        (
            ROUND,
            b"certificate 1 circuit\nspan -3\nnode s 0\nnode t 0\narc a 0\narc b 0\narc c 0\nstep + arc a\n",
            Judged::NotCircuit(2),
        ),
        // Back over the arc of t the end is infinite; the arc of s has a lower number, but comes later.
        (
            ROUND,
            b"certificate 1 circuit\nspan -3\nnode s 0\nnode t 0\narc a 0\narc b 0\narc c 0\nstep + arc a\nstep - node t\nstep + node s\n",
            Judged::Endless(ArcId(1)),
        ),
        // Numbers are those of units: a cost counts thousandths.
        (
            IN_DECIMALS,
            b"certificate 2 optimal\ncost 26.500\nvalue 26.500\nnode s 2.50 5.0\nnode t 7.50 -5.0\narc a 5.0\n",
            Judged::Accepted,
        ),
        (
            IN_DECIMALS,
            b"certificate 2 optimal\ncost 26.500\nvalue 26.501\nnode s 2.50 5.0\nnode t 7.50 -5.0\narc a 5.0\n",
            Judged::WrongNumber {
                stated: 26_501,
                right: 26_500,
            },
        ),
        (
            IN_DECIMALS,
            b"certificate 2 optimal\ncost 26.500\nvalue 26.500\nnode s 2.50 5.0\nnode t 7.51 -5.0\narc a 5.0\n",
            Judged::OffCurve(ArcId(2)),
        ),
    ] {
        assert_eq!(rt;
            judged(rt.alloc(), model, certificate)?,
            Some(want),
            "{certificate:?}"
        );
    }
    Ok(())
}
