// Passes over small nets worked by hand.
ghost use Rattle.std.specs.Prelude.{◌≡◌, ◌<◌};

use crate::{FlowAns, feasible_flow};
use mono_curve::Ext::{self, At, MinusInf, PlusInf};
use mono_curve::{Curve, Steps};
use net_incidence::{ArcId, Net, NodeId};
use painted_search::Work;
use std::marker::Brand;
use std::process::Abort;
use std::sync::ledger::{Blank, Ledger};
use std::test::Fail;

/// An arc with the ends of its domain.
type Row = (u32, u32, Ext, Ext);

fn net_of(rt: &(impl Abort + AllocGlobal), nodes: u32, rows: &[Row]) -> Result<Net, Fail> {
    let mut net = Net::new(rt.alloc());
    for _ in 0..nodes {
        assert!(rt; net.nodes() < 1000);
        net.add_node()?;
    }
    for (from, to, _, _) in rows {
        let (from, to) = (*from, *to);
        assert!(rt;
            (from as usize) < net.nodes() && (to as usize) < net.nodes() && net.arcs() < 1000
        );
        net.add_arc(NodeId(from), NodeId(to))?;
    }
    Ok(net)
}

fn curves_of(rt: &impl AllocGlobal, rows: &[Row]) -> Result<Vec<Curve>, Fail> {
    let mut curves = Vec::new(rt.alloc());
    for (_, _, low, high) in rows {
        let (low, high) = (*low, *high);
        let curve = if low == high {
            Curve::of_list(rt.alloc(), &[low], 0)?
        } else {
            Curve::of_list(rt.alloc(), &[low, At(0), high], 0)?
        };
        curves.push(curve)?;
    }
    Ok(curves)
}

/// What the pass found, and the room after it; it begins in a room with these flows, and 0 where there are no more.
fn passed<L: Ledger>(
    rt: &(impl Abort + AllocGlobal),
    nodes: u32,
    rows: &[Row],
    drawn: &[i64],
    blank: Blank,
) -> Result<(FlowAns, Work), Fail>
    requires name { blank.name ≡ L.name }
    requires parts { blank.parts ≡ L.parts }
    requires some { 0 < blank.parts }
{
    let mut steps = Steps::<L>::open(blank);
    let net = net_of(rt, nodes, rows)?;
    let curves = curves_of(rt, rows)?;
    let (nodes, arcs) = (net.nodes(), net.arcs());
    assert!(rt; 1 <= nodes && nodes <= 9 && arcs <= 9 && curves.len() == arcs);
    let mut work = Work::take(rt.alloc(), nodes, arcs)?;
    for j in 0..drawn.len() {
        assert!(rt; j < work.arcs());
        work.set_flow(ArcId(j as u32), drawn[j]);
    }
    assert!(rt; work.nodes() == nodes && work.arcs() == arcs);
    let answer = feasible_flow(&net, curves.as_slice(), &mut work, &mut steps);
    Ok((answer, work))
}

#[test]
fn finds_flows(rt: HostRuntime) -> Result<(), Fail> {
    let none: [Row; 0] = [];
    for (nodes, rows, flows) in [
        // No arc at all; then a ring with one flow that is forced.
        (1, none.as_slice(), [].as_slice()),
        (
            3,
            [
                (0, 1, At(2), At(2)),
                (1, 2, At(0), At(5)),
                (2, 0, At(0), At(5)),
            ]
            .as_slice(),
            [2, 2, 2].as_slice(),
        ),
        // Lower ends one above the other: the ring is used twice.
        (
            3,
            [
                (0, 1, At(1), At(4)),
                (1, 2, At(2), At(4)),
                (2, 0, At(0), At(3)),
            ]
            .as_slice(),
            [2, 2, 2].as_slice(),
        ),
        // Infinite ends, and a step back over an arc.
        (
            2,
            [(0, 1, MinusInf, PlusInf), (0, 1, At(7), PlusInf)].as_slice(),
            [-7, 7].as_slice(),
        ),
        // A domain below 0.
        (
            2,
            [(0, 1, At(-5), At(-2)), (0, 1, At(0), At(9))].as_slice(),
            [-2, 2].as_slice(),
        ),
        // The shortest path has room for 3 of 4, and the other one for the rest.
        (
            3,
            [
                (0, 1, At(4), At(4)),
                (1, 0, At(0), At(3)),
                (1, 2, At(0), At(1)),
                (2, 0, At(0), At(1)),
            ]
            .as_slice(),
            [4, 3, 1, 1].as_slice(),
        ),
        // Great flows with nothing to spare.
        (
            3,
            [
                (0, 1, At(999_999), At(1_000_000)),
                (1, 2, At(0), PlusInf),
                (2, 0, MinusInf, At(999_999)),
            ]
            .as_slice(),
            [999_999, 999_999, 999_999].as_slice(),
        ),
    ] {
        let (answer, work) = passed::<Brand>(&rt, nodes, rows, &[], Blank::new(1))?;
        assert_eq!(rt; answer, FlowAns::Flow, "for {rows:?}");
        assert_eq!(rt; work.flows(), flows, "for {rows:?}");
    }
    Ok(())
}

// A ring of three arcs with room for 5 each, and from 0 on the flow of 0 is the one that is found.
#[test]
fn begins_with_flows_that_will_do(rt: HostRuntime) -> Result<(), Fail> {
    let small = [
        (0, 1, At(0), At(5)),
        (1, 2, At(0), At(5)),
        (2, 0, At(0), At(5)),
    ];
    let endless = [
        (0, 1, At(0), PlusInf),
        (1, 2, At(0), PlusInf),
        (2, 0, At(0), PlusInf),
    ];
    for (rows, drawn, flows) in [
        // Feasible flows stay, and flows outside their domains come in from where they are.
        (&small, [3, 3, 3], [3, 3, 3]),
        (&small, [7, 7, 7], [5, 5, 5]),
        // What isn't conserved is thrown away.
        (&small, [3, 3, 2], [0, 0, 0]),
        // The limit of three arcs is 3,000,000,000 for the greatest flow, and 90 for all that the flows lack together.
        (
            &endless,
            [3_000_000_000, 3_000_000_000, 3_000_000_000],
            [3_000_000_000, 3_000_000_000, 3_000_000_000],
        ),
        (
            &endless,
            [3_000_000_001, 3_000_000_001, 3_000_000_001],
            [0, 0, 0],
        ),
        (&small, [35, 35, 35], [5, 5, 5]),
        (&small, [36, 36, 36], [0, 0, 0]),
        (&endless, [i64::MIN, i64::MIN, i64::MIN], [0, 0, 0]),
    ] {
        let (answer, work) = passed::<Brand>(&rt, 3, rows.as_slice(), &drawn, Blank::new(1))?;
        assert_eq!(rt; answer, FlowAns::Flow, "for {drawn:?}");
        assert_eq!(rt; work.flows(), flows.as_slice(), "for {drawn:?}");
    }
    Ok(())
}

#[test]
fn finds_cuts(rt: HostRuntime) -> Result<(), Fail> {
    for (nodes, rows, marks) in [
        // 3 must come to node 1 and at most 2 can leave it.
        (
            2,
            [(0, 1, At(3), At(3)), (1, 0, At(0), At(2))].as_slice(),
            [false, true].as_slice(),
        ),
        // 4 or more must come to node 0, and at most 3 can leave it.
        (
            2,
            [(0, 1, At(-9), At(-4)), (0, 1, At(-3), At(3))].as_slice(),
            [true, false].as_slice(),
        ),
        // A million must come to node 1, and one less can leave it.
        (
            2,
            [
                (0, 1, At(1_000_000), At(1_000_000)),
                (1, 0, At(0), At(999_999)),
            ]
            .as_slice(),
            [false, true].as_slice(),
        ),
        // Node 1 can send to node 2 alone, which has no way on.
        (
            3,
            [(0, 1, At(1), PlusInf), (1, 2, MinusInf, PlusInf)].as_slice(),
            [false, true, true].as_slice(),
        ),
    ] {
        let (answer, work) = passed::<Brand>(&rt, nodes, rows, &[], Blank::new(1))?;
        assert_eq!(rt; answer, FlowAns::Cut, "for {rows:?}");
        let mut marked = Vec::with_capacity(rt.alloc(), work.nodes())?;
        work.put_marks(&mut marked);
        assert_eq!(rt; marked.as_slice(), marks, "for {rows:?}");
    }
    Ok(())
}
