// Potentials and circuits of small nets, worked by hand.
ghost use Rattle.std.specs.Prelude.{◌≡◌, ◌<◌};

use crate::{TensionAns, feasible_tension};
use mono_curve::{Curve, Ext, Steps};
use net_incidence::Net;
use painted_search::Work;
use std::marker::Brand;
use std::process::Abort;
use std::sync::ledger::{Blank, Ledger};
use std::test::Fail;
use theory::{ArcId, NodeId, Step};

fn net_of(rt: &(impl Abort + AllocGlobal), nodes: u32, arcs: &[(u32, u32)]) -> Result<Net, Fail> {
    let mut net = Net::new(rt.alloc());
    for _ in 0..nodes {
        assert!(rt; net.nodes() < 9);
        net.add_node()?;
    }
    for (from, to) in arcs {
        let (from, to) = (*from, *to);
        assert!(rt; (from as usize) < net.nodes() && (to as usize) < net.nodes() && net.arcs() < 9);
        net.add_arc(NodeId(from), NodeId(to))?;
    }
    Ok(net)
}

fn curves_of(rt: &(impl Abort + AllocGlobal), lists: &[[Ext; 3]]) -> Result<Vec<Curve>, Fail> {
    let mut curves = Vec::new(rt.alloc());
    for items in lists {
        curves.push(Curve::of_list(rt.alloc(), items.as_slice(), 0)?)?;
    }
    Ok(curves)
}

/// What the pass found, and the room after it.
fn passed<L: Ledger>(
    rt: &(impl Abort + AllocGlobal),
    net: &Net,
    curves: &[Curve],
    blank: Blank,
) -> Result<(TensionAns, Work), Fail>
    requires name { blank.name ≡ L.name }
    requires parts { blank.parts ≡ L.parts }
    requires some { 0 < blank.parts }
{
    let mut steps = Steps::<L>::open(blank);
    let (nodes, arcs) = (net.nodes(), net.arcs());
    assert!(rt; nodes >= 1 && nodes < 10 && arcs < 10 && curves.len() == arcs);
    let mut work = Work::take(rt.alloc(), nodes, arcs)?;
    let found = feasible_tension(net, curves, &mut work, &mut steps);
    Ok((found, work))
}

fn forward(arc: u32) -> Step {
    Step {
        arc: ArcId(arc),
        forward: true,
    }
}

fn backward(arc: u32) -> Step {
    Step {
        arc: ArcId(arc),
        forward: false,
    }
}

// Tensions up to a number, and from a number on.
fn up_to(most: i64) -> [Ext; 3] {
    [Ext::At(0), Ext::At(most), Ext::PlusInf]
}

fn from(least: i64) -> [Ext; 3] {
    [Ext::MinusInf, Ext::At(least), Ext::At(0)]
}

#[test]
fn finds_potentials_and_circuits(rt: HostRuntime) -> Result<(), Fail> {
    let (f, b) = (forward, backward);
    let fixed = [Ext::MinusInf, Ext::At(0), Ext::PlusInf];
    let (below, level, above) = (up_to(-1), up_to(0), up_to(1));
    let (far_below, far_above) = (up_to(-3), from(2));
    for (nodes, arcs, lists, found, potentials, walk) in [
        // A node alone; then potential 0.
        (
            1,
            [].as_slice(),
            [].as_slice(),
            TensionAns::Potential,
            [0].as_slice(),
            [].as_slice(),
        ),
        (
            2,
            [(0, 1)].as_slice(),
            [fixed].as_slice(),
            TensionAns::Potential,
            [0, 0].as_slice(),
            [].as_slice(),
        ),
        // Node 0 is lowered, and the potential counted from there.
        (
            2,
            [(1, 0)].as_slice(),
            [far_below].as_slice(),
            TensionAns::Potential,
            [0, 3].as_slice(),
            [].as_slice(),
        ),
        // The first round lowers each node once, the second one lowers two of them again.
        (
            4,
            [(2, 3), (1, 2), (0, 1)].as_slice(),
            [below, below, below].as_slice(),
            TensionAns::Potential,
            [0, -1, -2, -3].as_slice(),
            [].as_slice(),
        ),
        // Round a circuit of sum 0.
        (
            2,
            [(0, 1), (1, 0)].as_slice(),
            [below, above].as_slice(),
            TensionAns::Potential,
            [0, -1].as_slice(),
            [].as_slice(),
        ),
        // Negative circuits: of two steps, of three, and with a step backward. The first and the last have come round after one
        // round, so that their potentials are those of one round and the walk begins at the node that it lowered last; the one
        // of three steps is labelled whole in the third round.
        (
            2,
            [(0, 1), (1, 0)].as_slice(),
            [below, level].as_slice(),
            TensionAns::Circuit,
            [-1, -1].as_slice(),
            [f(0), f(1)].as_slice(),
        ),
        (
            3,
            [(0, 1), (1, 2), (2, 0)].as_slice(),
            [above, above, far_below].as_slice(),
            TensionAns::Circuit,
            [-4, -2, -1].as_slice(),
            [f(0), f(1), f(2)].as_slice(),
        ),
        (
            2,
            [(0, 1), (0, 1)].as_slice(),
            [far_above, above].as_slice(),
            TensionAns::Circuit,
            [-2, -1].as_slice(),
            [b(0), f(1)].as_slice(),
        ),
    ] {
        let net = net_of(&rt, nodes, arcs)?;
        let curves = curves_of(&rt, lists)?;
        let (answer, work) = passed::<Brand>(&rt, &net, &curves, Blank::new(1))?;
        assert_eq!(rt; answer, found, "for {arcs:?}");
        assert_eq!(rt; work.potentials(), potentials, "for {arcs:?}");
        let mut steps = Vec::with_capacity(rt.alloc(), work.walk_len())?;
        work.put_walk(&mut steps);
        assert_eq!(rt; steps.as_slice(), walk, "for {arcs:?}");
    }
    Ok(())
}
