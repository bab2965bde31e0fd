// Nets worked by hand: the grounded networks of small models, with node 0 as the ground and one arc from it to each node.
ghost use Rattle.std.specs.Prelude.{◌≡◌, ℕ, ◌<◌, IsTrue, length};
ghost use Rattle.theory.specs.Circuit.{WalkIsThere};
ghost use Rattle.net_incidence.specs.Graph.{bare};

use crate::{ArcId, Net, NetFault, NodeId, Step, Sum};
use mono_curve::{Curve, Ext};
use std::process::Abort;
use std::test::Fail;

fn net_of(rt: &(impl Abort + AllocGlobal), nodes: u32, arcs: &[(u32, u32)]) -> Result<Net, Fail> {
    let mut net = Net::new(rt.alloc());
    for _ in 0..nodes {
        assert!(rt; net.nodes() < 1000);
        net.add_node()?;
    }
    for (from, to) in arcs {
        let (from, to) = (*from, *to);
        assert!(rt;
            (from as usize) < net.nodes() && (to as usize) < net.nodes() && net.arcs() < 1000
        );
        net.add_arc(NodeId(from), NodeId(to))?;
    }
    Ok(net)
}

fn are_there(net: &Net, walk: &[Step]) -> bool
    ensures { IsTrue result → WalkIsThere (bare net.now) walk.now }
{
    let arcs = net.arcs();
    for step in walk {
        if step.arc.0 as usize >= arcs {
            return false;
        }
    }
    true
}

fn forward(arc: u32) -> Step {
    Step {
        arc: ArcId(arc),
        forward: true,
    }
}

fn backward(arc: u32) -> Step {
    Step {
        arc: ArcId(arc),
        forward: false,
    }
}

#[test]
fn refuses_loops(rt: HostRuntime) -> Result<(), Fail> {
    let mut net = net_of(&rt, 3, &[(0, 1), (0, 2), (1, 2)])?;
    assert!(rt; net.nodes() == 3 && net.arcs() == 3);
    assert_eq!(rt; net.add_arc(NodeId(1), NodeId(1)), Err(NetFault::Loop));
    assert_eq!(rt; net.arcs(), 3);
    Ok(())
}

#[test]
fn shows_steps_and_flows(rt: HostRuntime) -> Result<(), Fail> {
    let net = net_of(&rt, 3, &[(0, 1), (0, 2), (1, 2)])?;
    assert!(rt; net.nodes() == 3 && net.arcs() == 3);
    assert_eq!(rt; net.steps(NodeId(1)), [backward(0), forward(2)].as_slice());
    assert_eq!(rt; net.degree(NodeId(0)), 2);
    assert_eq!(rt; net.incident(NodeId(0), 1), forward(1));
    // The supplies of 5 and -5, and 4 on the arc between the nodes: 1 is too much at the first and missing at the other.
    let flows = [5, -5, 4];
    for (node, want) in [(0, 0), (1, -1), (2, 1)] {
        assert!(rt; node < 3);
        assert_eq!(rt; net.divergence(&flows, NodeId(node)), want, "at {node}");
    }
    assert_eq!(rt; tension(&net, &[0, 2, 7]), Some(5));
    Ok(())
}

fn tension(net: &Net, potentials: &[i8; 3]) -> Option<i64> {
    let [a, b, c] = *potentials;
    let wide = [i64::from(a), i64::from(b), i64::from(c)];
    if net.nodes() == 3 && net.arcs() == 3 {
        Some(net.tension(&wide, ArcId(2)))
    } else {
        None
    }
}

fn cut_sum(net: &Net, curves: &[Curve], side: &[bool]) -> Option<Sum> {
    if curves.len() == net.arcs() && side.len() == net.nodes() {
        Some(net.cut_sum(curves, side))
    } else {
        None
    }
}

fn circuit(net: &Net, curves: &[Curve], walk: &[Step]) -> Option<(Option<u32>, Sum)> {
    if curves.len() == net.arcs() && walk.len() < 100 && are_there(net, walk) {
        Some((net.is_circuit(walk), net.circuit_sum(curves, walk)))
    } else {
        None
    }
}

// From the supply of 5 at node 1, through an arc that carries 3 at most; then with a free supply.
#[test]
fn adds_up_cuts(rt: HostRuntime) -> Result<(), Fail> {
    let net = net_of(&rt, 3, &[(0, 1), (0, 2), (1, 2)])?;
    let free = [Ext::MinusInf, Ext::At(2), Ext::PlusInf];
    for (supply, want) in [
        ([Ext::At(5)].as_slice(), Sum::Whole(-2)),
        (free.as_slice(), Sum::Endless(ArcId(0))),
    ] {
        let curves = vec![in rt.alloc();
            Curve::of_list(rt.alloc(), supply, 0)?,
            Curve::of_list(rt.alloc(), &[Ext::At(-5)], 0)?,
            Curve::of_list(rt.alloc(), &[Ext::At(0), Ext::At(1), Ext::At(3)], 0)?,
        ]?;
        assert_eq!(rt;
            cut_sum(&net, curves.as_slice(), &[false, true, false]),
            Some(want)
        );
    }
    Ok(())
}

// Two arcs between two nodes, one each way, at -3 and 1 a unit and without bound.
#[test]
fn tells_circuits(rt: HostRuntime) -> Result<(), Fail> {
    let net = net_of(&rt, 3, &[(0, 1), (0, 2), (1, 2), (2, 1)])?;
    let curves = vec![in rt.alloc();
        Curve::of_list(rt.alloc(), &[Ext::At(0)], 0)?,
        Curve::of_list(rt.alloc(), &[Ext::At(0)], 0)?,
        Curve::of_list(rt.alloc(), &[Ext::At(0), Ext::At(-3), Ext::PlusInf], 0)?,
        Curve::of_list(rt.alloc(), &[Ext::At(0), Ext::At(1), Ext::PlusInf], 0)?,
    ]?;
    for (walk, fault, sum) in [
        ([].as_slice(), Some(1), Sum::Whole(0)),
        ([forward(2), forward(3)].as_slice(), None, Sum::Whole(-2)),
        ([forward(2)].as_slice(), Some(2), Sum::Whole(-3)),
        (
            [forward(2), forward(3), forward(2), forward(3)].as_slice(),
            Some(3),
            Sum::Whole(-4),
        ),
        (
            [forward(2), backward(2)].as_slice(),
            Some(2),
            Sum::Endless(ArcId(2)),
        ),
        ([forward(3), forward(3)].as_slice(), Some(2), Sum::Whole(2)),
        (
            [forward(2), backward(1), forward(0)].as_slice(),
            None,
            Sum::Endless(ArcId(1)),
        ),
    ] {
        assert_eq!(rt;
            circuit(&net, curves.as_slice(), walk),
            Some((fault, sum)),
            "for {walk:?}"
        );
    }
    Ok(())
}
