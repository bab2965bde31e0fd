// The test of a set of nodes that nothing has to be known of: whether it is a negative cut.
ghost use Rattle.std.specs.Prelude.{◌≡◌, ◌+◌, ◌^◌, ◌<◌, ◌≤◌, IsTrue, IfSome, length, map};
ghost use Rattle.std.specs.List.{All};
ghost use Rattle.theory.specs.Ends.{negated};
ghost use Rattle.theory.specs.Limits.{IsWithin};
ghost use Rattle.theory.specs.Cut.{IsNegativeCut, cut_end};
ghost use Rattle.net_incidence.specs.PartOf.{part_of, crossing_end};
ghost use Rattle.net_incidence.specs.WithoutBases.{without_bases, IsPassable};
ghost use Rattle.kilter_solver.specs.Ranges.{end_most};

use mono_curve::{Monotone, Steps};
use net_incidence::Net;
use painted_search::Work;
use std::sync::ledger::Ledger;
use theory::{ArcId, Ext};

/// Whether the nodes that the room marks are a negative cut. It reads the domain of each arc that crosses the cut, and of no other.
pub fn is_negative_cut<C: Monotone, L: Ledger>(
    net: &Net,
    curves: &[C],
    work: &Work,
    steps: &mut Steps<L>,
) -> bool
    requires passable { IsPassable net.now (length curves.now) }
    requires light { All (λ c. C.weight c ≡ 1) curves.now }
    requires nodes { work.now.nodes ≡ net.now.nodes }
    ensures cut { IsTrue result → IsNegativeCut (without_bases net.now (map C.items curves.now)) work.now.reached }
    ensures no_fewer { steps.old ≤ steps.new }
    ensures count { steps.new ≤ steps.old + length net.now.arcs }
{
    let mut sum = 0i128;
    for j in 0..net.arcs() as u32 {
        match part_of_arc(net, curves, ArcId(j), work, steps) {
            Some(part) => sum += part,
            None => return false,
        }
    }
    sum < 0
}

/// What the arc adds to the sum of the cut; None where that is infinite.
fn part_of_arc<C: Monotone, L: Ledger>(
    net: &Net,
    curves: &[C],
    arc: ArcId,
    work: &Work,
    steps: &mut Steps<L>,
) -> Option<i128>
    requires passable { IsPassable net.now (length curves.now) }
    requires light { All (λ c. C.weight c ≡ 1) curves.now }
    requires there { arc.0 < length net.now.arcs }
    requires nodes { work.now.nodes ≡ net.now.nodes }
    ensures value { result ≡ part_of (cut_end (without_bases net.now (map C.items curves.now)) work.now.reached arc.0) }
    ensures within { IfSome result (IsWithin end_most) }
    ensures no_fewer { steps.old ≤ steps.new }
    ensures count { steps.new ≤ steps.old + 1 }
{
    let at_tail = work.reached(net.from(arc));
    let at_head = work.reached(net.to(arc));
    crossing_part(&curves[arc.0 as usize], at_tail, at_head, steps)
}

/// What an arc with the curve adds, by whether the set holds its tail and its head.
fn crossing_part<C: Monotone, L: Ledger>(
    curve: &C,
    at_tail: bool,
    at_head: bool,
    steps: &mut Steps<L>,
) -> Option<i128>
    ensures value { result ≡ part_of (crossing_end (C.items curve.now) at_tail at_head) }
    ensures within { IfSome result (IsWithin end_most) }
    ensures no_fewer { steps.old ≤ steps.new }
    ensures count { steps.new ≤ steps.old + C.weight curve.now }
{
    match (at_tail, at_head) {
        (true, false) => upper_part(curve.domain(steps).1),
        (false, true) => lower_part(curve.domain(steps).0),
        _ => Some(0),
    }
}

fn upper_part(end: Ext) -> Option<i128>
    ensures value { result ≡ part_of end }
    ensures within { IfSome result (IsWithin end_most) }
{
    match end {
        Ext::At(a) => Some(i128::from(a)),
        Ext::MinusInf | Ext::PlusInf => None,
    }
}

fn lower_part(end: Ext) -> Option<i128>
    ensures value { result ≡ part_of (negated end) }
    ensures within { IfSome result (IsWithin end_most) }
{
    match end {
        Ext::At(a) => Some(-i128::from(a)),
        Ext::MinusInf | Ext::PlusInf => None,
    }
}
