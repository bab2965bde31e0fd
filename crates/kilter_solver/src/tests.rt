// Optimal pairs and cuts of small nets, worked by hand.
ghost use Rattle.std.specs.Prelude.{◌≡◌, ℕ, ◌<◌, pos, IsTrue, length, map};
ghost use Rattle.theory.specs.Span.{InSpan};
ghost use Rattle.theory.specs.Network.{list_at};

use crate::{Balanced, balance};
use mono_curve::{Curve, Ext, Monotone, Steps};
use net_incidence::Net;
use painted_search::Work;
use std::marker::Brand;
use std::process::Abort;
use std::sync::ledger::{Blank, Ledger};
use std::test::Fail;
use theory::NodeId;
use theory::pricing::is_between;

pub(crate) fn net_of(
    rt: &(impl Abort + AllocGlobal),
    nodes: u32,
    arcs: &[(u32, u32)],
) -> Result<Net, Fail> {
    let mut net = Net::new(rt.alloc());
    for _ in 0..nodes {
        assert!(rt; net.nodes() < 9);
        net.add_node()?;
    }
    for (from, to) in arcs {
        let (from, to) = (*from, *to);
        assert!(rt; (from as usize) < net.nodes() && (to as usize) < net.nodes() && net.arcs() < 9);
        net.add_arc(NodeId(from), NodeId(to))?;
    }
    Ok(net)
}

pub(crate) fn curves_of(
    rt: &(impl Abort + AllocGlobal),
    lists: &[[Ext; 3]],
) -> Result<Vec<Curve>, Fail> {
    let mut curves = Vec::new(rt.alloc());
    for items in lists {
        curves.push(Curve::of_list(rt.alloc(), items.as_slice(), 0)?)?;
    }
    Ok(curves)
}

/// Whether the tension 0 is in every span.
fn is_level<C: Monotone, L: Ledger>(curves: &[C], steps: &mut Steps<L>) -> bool
    ensures { IsTrue result → (j : ℕ) → j < length curves.now → InSpan 1 (list_at (map C.items curves.now) j) (pos 0) }
{
    for j in 0..curves.len() {
        let (low, high) = curves[j].span(steps);
        if !is_between(low, high, 0) {
            return false;
        }
    }
    true
}

/// What balancing from potential 0 found, and the room after it.
fn balanced<L: Ledger>(
    rt: &(impl Abort + AllocGlobal),
    net: &Net,
    curves: &[Curve],
    blank: Blank,
) -> Result<(Balanced, Work), Fail>
    requires name { blank.name ≡ L.name }
    requires parts { blank.parts ≡ L.parts }
    requires some { 0 < blank.parts }
{
    let mut steps = Steps::<L>::open(blank);
    let (nodes, arcs) = (net.nodes(), net.arcs());
    assert!(rt; nodes >= 1 && nodes < 10 && arcs < 10 && curves.len() == arcs);
    let level = is_level(curves, &mut steps);
    assert!(rt; level);
    let mut work = Work::take(rt.alloc(), nodes, arcs)?;
    let found = balance(net, curves, &mut work, &mut steps);
    Ok((found, work))
}

// Up to 5 units, each at the price.
fn up_to_five(price: i64) -> [Ext; 3] {
    [Ext::At(0), Ext::At(price), Ext::At(5)]
}

#[test]
fn finds_optimal_pairs_and_cuts(rt: HostRuntime) -> Result<(), Fail> {
    // Up to 2 units at a price of 1, 5 or -4 each; no less than 3, 1 or 4 units; any flow.
    let cheap = [Ext::At(0), Ext::At(1), Ext::At(2)];
    let dear = [Ext::At(0), Ext::At(5), Ext::At(2)];
    let paid = [Ext::At(0), Ext::At(-4), Ext::At(2)];
    let three = [Ext::At(3), Ext::At(0), Ext::PlusInf];
    let one = [Ext::At(1), Ext::At(0), Ext::PlusInf];
    let four = [Ext::At(4), Ext::At(0), Ext::PlusInf];
    let wide = [Ext::At(0), Ext::At(1), Ext::At(999_999)];
    let million = [Ext::At(1_000_000), Ext::At(0), Ext::PlusInf];
    let any = [Ext::MinusInf, Ext::At(0), Ext::PlusInf];
    for (nodes, arcs, lists, flows, potentials) in [
        // A node alone.
        (
            1,
            [].as_slice(),
            [].as_slice(),
            [].as_slice(),
            [0].as_slice(),
        ),
        // 2 units over the cheap arc, 1 over the dear one.
        (
            2,
            [(0, 1), (0, 1), (1, 0)].as_slice(),
            [cheap, dear, three].as_slice(),
            [2, 1, 3].as_slice(),
            [0, 5].as_slice(),
        ),
        // All but one of a million units over the wide arc, one over the dear one.
        (
            2,
            [(0, 1), (0, 1), (1, 0)].as_slice(),
            [wide, dear, million].as_slice(),
            [999_999, 1, 1_000_000].as_slice(),
            [0, 5].as_slice(),
        ),
        // Round a circuit that pays for itself.
        (
            2,
            [(0, 1), (1, 0)].as_slice(),
            [cheap, paid].as_slice(),
            [2, 2].as_slice(),
            [0, 1].as_slice(),
        ),
        // Against the direction of an arc.
        (
            2,
            [(0, 1), (0, 1)].as_slice(),
            [three, any].as_slice(),
            [3, -3].as_slice(),
            [0, 0].as_slice(),
        ),
        // One unit to each node: two of them are met at once, and then nearer over the others.
        (
            4,
            [
                (0, 1),
                (0, 2),
                (0, 3),
                (1, 2),
                (1, 3),
                (2, 3),
                (1, 0),
                (2, 0),
                (3, 0),
            ]
            .as_slice(),
            [
                up_to_five(1),
                up_to_five(4),
                up_to_five(9),
                up_to_five(2),
                up_to_five(6),
                up_to_five(1),
                one,
                one,
                one,
            ]
            .as_slice(),
            [3, 0, 0, 2, 0, 1, 1, 1, 1].as_slice(),
            [0, 1, 3, 4].as_slice(),
        ),
    ] {
        let net = net_of(&rt, nodes, arcs)?;
        let curves = curves_of(&rt, lists)?;
        let (answer, work) = balanced::<Brand>(&rt, &net, curves.as_slice(), Blank::new(1))?;
        assert_eq!(rt; answer, Balanced::InKilter);
        assert_eq!(rt; work.flows(), flows);
        assert_eq!(rt; work.potentials(), potentials);
    }
    // No less than 4 units, and room for 2.
    let net = net_of(&rt, 2, [(0, 1), (1, 0)].as_slice())?;
    let curves = curves_of(&rt, [cheap, four].as_slice())?;
    let (answer, work) = balanced::<Brand>(&rt, &net, curves.as_slice(), Blank::new(1))?;
    assert_eq!(rt; answer, Balanced::Cut);
    assert_eq!(rt; work.nodes(), 2);
    assert!(rt; work.reached(NodeId(0)) && !work.reached(NodeId(1)));
    Ok(())
}
