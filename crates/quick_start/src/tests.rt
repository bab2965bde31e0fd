// Draws of small nets, each held against what it proposes.
ghost use Rattle.std.specs.Prelude.{◌≡◌, ◌<◌};

use crate::{Proposal, Sketch};
use mono_curve::Ext::{self, At, MinusInf, PlusInf};
use mono_curve::{Curve, Steps, on_curve};
use net_incidence::{ArcId, Net, NodeId, Sum};
use painted_search::Work;
use std::marker::Brand;
use std::process::Abort;
use std::sync::ledger::{Blank, Ledger};
use std::test::Fail;

/// An arc with the ends of its domain, and between them a slope, a breakpoint and a slope. Equal slopes make one piece,
/// and equal ends a point.
type Row = (u32, u32, Ext, [i64; 3], Ext);

fn net_of(rt: &(impl Abort + AllocGlobal), nodes: u32, rows: &[Row]) -> Result<Net, Fail> {
    let mut net = Net::new(rt.alloc());
    for _ in 0..nodes {
        assert!(rt; net.nodes() < 1000);
        net.add_node()?;
    }
    for (from, to, _, _, _) in rows {
        let (from, to) = (*from, *to);
        assert!(rt;
            (from as usize) < net.nodes() && (to as usize) < net.nodes() && net.arcs() < 1000
        );
        net.add_arc(NodeId(from), NodeId(to))?;
    }
    Ok(net)
}

fn curves_of(rt: &impl AllocGlobal, rows: &[Row]) -> Result<Vec<Curve>, Fail> {
    let mut curves = Vec::new(rt.alloc());
    for (_, _, low, [left, middle, right], high) in rows {
        let (low, high) = (*low, *high);
        let (left, middle, right) = (At(*left), At(*middle), At(*right));
        let curve = if low == high {
            Curve::of_list(rt.alloc(), &[low], 0)?
        } else if left == right {
            Curve::of_list(rt.alloc(), &[low, left, high], 0)?
        } else {
            Curve::of_list(rt.alloc(), &[low, left, middle, right, high], 0)?
        };
        curves.push(curve)?;
    }
    Ok(curves)
}

/// Whether the flows of the room are conserved.
fn is_conserved(rt: &impl Abort, net: &Net, work: &Work) -> bool {
    for i in 0..net.nodes() {
        assert!(rt; work.flows().len() == net.arcs() && i < 1000);
        if net.divergence(work.flows(), NodeId(i as u32)) != 0 {
            return false;
        }
    }
    true
}

/// Whether each flow of the room is on its curve, at the tension of its arc or at any tension.
fn are_on_curves(
    rt: &impl Abort,
    net: &Net,
    curves: &[Curve],
    work: &Work,
    at_tension: bool,
) -> bool {
    for j in 0..net.arcs() {
        assert!(rt; j < curves.len() && j < work.arcs() && j < 1000);
        let arc = ArcId(j as u32);
        let (from, to) = (net.from(arc), net.to(arc));
        assert!(rt; (from.0 as usize) < work.nodes() && (to.0 as usize) < work.nodes());
        let flow = work.flow(arc);
        let tension = work.potential(to).wrapping_sub(work.potential(from));
        let on_curve = if at_tension {
            on_curve(&curves[j], flow, tension)
        } else {
            let (low, high) = mono_curve::domain_of(&curves[j]);
            low <= At(flow) && At(flow) <= high
        };
        if !on_curve {
            return false;
        }
    }
    true
}

/// What the draw proposed, and whether that is so.
fn drawn<L: Ledger>(
    rt: &(impl Abort + AllocGlobal),
    nodes: u32,
    rows: &[Row],
    fuel: u64,
    blank: Blank,
) -> Result<(Proposal, bool), Fail>
    requires name { blank.name ≡ L.name }
    requires parts { blank.parts ≡ L.parts }
    requires some { 0 < blank.parts }
{
    let mut steps = Steps::<L>::open(blank);
    let net = net_of(rt, nodes, rows)?;
    let curves = curves_of(rt, rows)?;
    let curves = curves.as_slice();
    let (nodes, arcs) = (net.nodes(), net.arcs());
    assert!(rt; 1 <= nodes && nodes <= 99 && arcs <= 99 && curves.len() == arcs);
    let mut work = Work::take(rt.alloc(), nodes, arcs)?;
    let mut sketch = Sketch::take(rt.alloc(), nodes, arcs)?;
    let proposal = sketch.draw(&net, curves, fuel, &mut work, &mut steps);
    Ok((proposal, is_so(rt, &net, curves, &work, proposal)?))
}

/// Whether the room holds what was proposed.
fn is_so(
    rt: &(impl Abort + AllocGlobal),
    net: &Net,
    curves: &[Curve],
    work: &Work,
    proposal: Proposal,
) -> Result<bool, Fail> {
    assert!(rt; work.nodes() == net.nodes() && curves.len() == net.arcs());
    let mut side = Vec::with_capacity(rt.alloc(), work.nodes())?;
    work.put_marks(&mut side);
    Ok(match proposal {
        Proposal::Pair => {
            is_conserved(rt, net, work) && are_on_curves(rt, net, curves, work, true)
        }
        Proposal::Cut => match net.cut_sum(curves, side.as_slice()) {
            Sum::Whole(sum) => sum < 0,
            Sum::Endless(_) => false,
        },
        Proposal::Flow => {
            is_conserved(rt, net, work) && are_on_curves(rt, net, curves, work, false)
        }
    })
}

/// The same of a second draw in the same sketch, one that begins with these flows and potentials.
fn redrawn<L: Ledger>(
    rt: &(impl Abort + AllocGlobal),
    rows: &[Row],
    flows: [i64; 3],
    potentials: [i64; 2],
    blank: Blank,
) -> Result<(Proposal, bool), Fail>
    requires name { blank.name ≡ L.name }
    requires parts { blank.parts ≡ L.parts }
    requires some { 0 < blank.parts }
{
    let mut steps = Steps::<L>::open(blank);
    let net = net_of(rt, 2, rows)?;
    let curves = curves_of(rt, rows)?;
    let curves = curves.as_slice();
    let (nodes, arcs) = (net.nodes(), net.arcs());
    assert!(rt; 1 <= nodes && nodes <= 99 && arcs <= 99 && curves.len() == arcs);
    let mut work = Work::take(rt.alloc(), nodes, arcs)?;
    let mut sketch = Sketch::take(rt.alloc(), nodes, arcs)?;
    let _ = sketch.draw(&net, curves, 1000, &mut work, &mut steps);
    for (arc, flow) in [0, 1, 2].into_iter().zip(flows) {
        assert!(rt; (arc as usize) < work.arcs());
        work.set_flow(ArcId(arc), flow);
    }
    for (node, potential) in [0, 1].into_iter().zip(potentials) {
        assert!(rt; (node as usize) < work.nodes());
        work.set_potential(NodeId(node), potential);
    }
    assert!(rt; work.nodes() == nodes);
    assert!(rt; work.arcs() == arcs);
    let proposal = sketch.redraw(&net, curves, 1000, &mut work, &mut steps);
    Ok((proposal, is_so(rt, &net, curves, &work, proposal)?))
}

#[test]
fn draws(rt: HostRuntime) -> Result<(), Fail> {
    let none: [Row; 0] = [];
    for (nodes, rows, fuel, wanted) in [
        // No arc at all.
        (1, none.as_slice(), 1000, (Proposal::Pair, true)),
        // A flow of 3 that is forced, and two ways back with pieces that take turns.
        (
            2,
            [
                (0, 1, At(3), [0, 0, 0], At(3)),
                (1, 0, At(0), [1, 1, 4], At(9)),
                (1, 0, At(0), [2, 1, 3], At(9)),
            ]
            .as_slice(),
            1000,
            (Proposal::Pair, true),
        ),
        // The cheap way has room for 2 of 5, and the other one is longer. An arc below 0 is cheapest at its lower end.
        (
            4,
            [
                (0, 1, At(5), [0, 0, 0], At(5)),
                (1, 2, At(0), [7, 1, 7], PlusInf),
                (2, 3, At(0), [1, 1, 1], At(2)),
                (2, 3, At(-4), [30, 0, 60], At(8)),
                (3, 0, MinusInf, [-5, 0, -5], PlusInf),
                (1, 3, At(-6), [10, -1, 40], At(2)),
            ]
            .as_slice(),
            1000,
            (Proposal::Pair, true),
        ),
        // A circuit of cost below 0, which is full in the end.
        (
            3,
            [
                (0, 1, At(0), [-4, 0, -4], At(3)),
                (1, 2, At(0), [1, 0, 1], At(5)),
                (2, 0, At(0), [2, 0, 2], At(9)),
            ]
            .as_slice(),
            1000,
            (Proposal::Pair, true),
        ),
        // 3 must come to node 1, and at most 2 can leave it.
        (
            2,
            [
                (0, 1, At(3), [0, 0, 0], At(3)),
                (1, 0, At(0), [5, 0, 5], At(2)),
            ]
            .as_slice(),
            1000,
            (Proposal::Cut, true),
        ),
        // Node 1 can send to node 2 alone, which has no way on.
        (
            3,
            [
                (0, 1, At(1), [0, 0, 0], PlusInf),
                (1, 2, MinusInf, [0, 0, 0], PlusInf),
            ]
            .as_slice(),
            1000,
            (Proposal::Cut, true),
        ),
        // A circuit of cost below 0 without an end, and a flow of 1 that is forced beside it.
        (
            3,
            [
                (0, 1, At(0), [-2, 0, -2], PlusInf),
                (1, 0, At(0), [1, 0, 1], PlusInf),
                (1, 2, At(1), [0, 0, 0], At(1)),
                (2, 1, At(0), [3, 0, 3], PlusInf),
            ]
            .as_slice(),
            1000,
            (Proposal::Flow, true),
        ),
        // Without fuel all readings are made up: every flow is 0, and that is no flow of this net.
        (
            2,
            [
                (0, 1, At(3), [0, 0, 0], At(3)),
                (1, 0, At(0), [5, 0, 5], At(4)),
            ]
            .as_slice(),
            0,
            (Proposal::Flow, false),
        ),
    ] {
        let found = drawn::<Brand>(&rt, nodes, rows, fuel, Blank::new(1))?;
        assert_eq!(rt; found, wanted, "for {rows:?}");
    }
    Ok(())
}

#[test]
fn draws_again(rt: HostRuntime) -> Result<(), Fail> {
    // A flow that is forced, and two ways back. With 3 units, prices of 1 and 2 and room for 9 each, all go back for 1.
    let (flows, potentials) = ([3, 3, 0], [0, -1]);
    for (forced, cheap, dear, flows, potentials, wanted) in [
        (3, (1, 9), (2, 9), flows, potentials, Proposal::Pair),
        // The cheap way has become dearer, then narrower; more comes, then less; the other way has become cheaper.
        (3, (5, 9), (2, 9), flows, potentials, Proposal::Pair),
        (3, (1, 1), (2, 9), flows, potentials, Proposal::Pair),
        (5, (1, 9), (2, 9), flows, potentials, Proposal::Pair),
        (-2, (-1, 9), (2, 9), flows, potentials, Proposal::Cut),
        (0, (1, 9), (2, 9), flows, potentials, Proposal::Pair),
        (3, (1, 9), (-4, 9), flows, potentials, Proposal::Pair),
        // Both ways together have room for 2.
        (3, (1, 1), (2, 1), flows, potentials, Proposal::Cut),
        // Flows and potentials of no such net.
        (3, (1, 9), (2, 9), [-70, 50, 8], [4, 90], Proposal::Pair),
    ] {
        let rows = [
            (0, 1, At(forced), [0, 0, 0], At(forced)),
            (1, 0, At(0), [cheap.0, 0, cheap.0], At(cheap.1)),
            (1, 0, At(0), [dear.0, 0, dear.0], At(dear.1)),
        ];
        let found = redrawn::<Brand>(&rt, rows.as_slice(), flows, potentials, Blank::new(1))?;
        assert_eq!(rt; found, (wanted, true), "for {rows:?}");
    }
    Ok(())
}
