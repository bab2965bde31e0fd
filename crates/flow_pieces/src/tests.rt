// Flows split by hand: in grounded networks, with node 0 as the ground and one arc from it to each node before the others.
ghost use Rattle.std.specs.Prelude.{◌≡◌, ◌<◌, IsTrue, length};
ghost use Rattle.theory.specs.Certificate.{AreNumbers};

use crate::{PieceFault, PieceList, pieces};
use net_incidence::Net;
use std::process::Abort;
use std::test::Fail;
use theory::{ArcId, NodeId, Step};

fn net_of(rt: &(impl Abort + AllocGlobal), nodes: u32, arcs: &[(u32, u32)]) -> Result<Net, Fail> {
    let mut net = Net::new(rt.alloc());
    for _ in 0..nodes {
        assert!(rt; net.nodes() < 9);
        net.add_node()?;
    }
    for (from, to) in arcs {
        let (from, to) = (*from, *to);
        assert!(rt; (from as usize) < net.nodes() && (to as usize) < net.nodes() && net.arcs() < 9);
        net.add_arc(NodeId(from), NodeId(to))?;
    }
    Ok(net)
}

fn are_small(x: &[i64]) -> bool
    ensures { IsTrue result → AreNumbers (length x.now) x.now }
{
    for flow in x {
        if *flow < -1000 || *flow > 1000 {
            return false;
        }
    }
    true
}

/// The steps of the pieces, each with the weight of its piece and, at the first step of a piece, true.
fn told(rt: &(impl Abort + AllocGlobal), list: &PieceList) -> Result<Vec<(i64, bool, Step)>, Fail> {
    let mut steps = Vec::new(rt.alloc());
    for k in 0..list.count() {
        for i in 0..list.len(k) {
            steps.push((list.weight(k), i == 0, list.step(k, i)))?;
        }
    }
    Ok(steps)
}

fn over(arc: u32, forward: bool) -> Step {
    Step {
        arc: ArcId(arc),
        forward,
    }
}

#[test]
fn splits_flows(rt: HostRuntime) -> Result<(), Fail> {
    for (nodes, arcs, flows, want) in [
        // A supply of 5 that goes over one arc.
        (
            3,
            [(0, 1), (0, 2), (1, 2)].as_slice(),
            [5, -5, 5].as_slice(),
            [
                (5, true, over(0, true)),
                (5, false, over(2, true)),
                (5, false, over(1, false)),
            ]
            .as_slice(),
        ),
        // A supply of 6 that goes over two arcs, 3 on each.
        (
            3,
            [(0, 1), (0, 2), (1, 2), (1, 2)].as_slice(),
            [6, -6, 3, 3].as_slice(),
            [
                (3, true, over(0, true)),
                (3, false, over(2, true)),
                (3, false, over(1, false)),
                (3, true, over(0, true)),
                (3, false, over(3, true)),
                (3, false, over(1, false)),
            ]
            .as_slice(),
        ),
        // Nothing.
        (1, [].as_slice(), [].as_slice(), [].as_slice()),
        (
            3,
            [(0, 1), (0, 2), (1, 2)].as_slice(),
            [0, 0, 0].as_slice(),
            [].as_slice(),
        ),
        // Round nodes 1 and 2, met on the way from the ground: the circuit begins at the lesser of the two.
        (
            4,
            [(0, 2), (2, 3), (1, 3), (2, 1), (0, 3)].as_slice(),
            [1, 3, -2, -2, -1].as_slice(),
            [
                (2, true, over(3, false)),
                (2, false, over(1, true)),
                (2, false, over(2, false)),
                (1, true, over(0, true)),
                (1, false, over(1, true)),
                (1, false, over(4, false)),
            ]
            .as_slice(),
        ),
    ] {
        let net = net_of(&rt, nodes, arcs)?;
        assert!(rt; flows.len() == net.arcs() && are_small(flows));
        let list = pieces(rt.alloc(), &net, flows)?;
        let steps = told(&rt, &list)?;
        assert_eq!(rt; steps.as_slice(), want, "for {flows:?}");
    }
    Ok(())
}

#[test]
fn names_the_first_node(rt: HostRuntime) -> Result<(), Fail> {
    for (nodes, arcs, flows, want) in [
        // One arc with nothing back.
        (2, [(0, 1)].as_slice(), [1].as_slice(), 0),
        // The ground is in balance; nodes 1 and 2 are not.
        (
            3,
            [(0, 1), (0, 2), (1, 2)].as_slice(),
            [5, -5, 6].as_slice(),
            1,
        ),
    ] {
        let net = net_of(&rt, nodes, arcs)?;
        assert!(rt; flows.len() == net.arcs() && are_small(flows));
        match pieces(rt.alloc(), &net, flows) {
            Ok(_) => assert!(rt; false, "for {flows:?}"),
            Err(fault) => {
                assert_eq!(rt;
                    fault,
                    PieceFault::NotConserved(NodeId(want)),
                    "for {flows:?}"
                );
            }
        }
    }
    Ok(())
}
