// Sums over cuts and walks of the ends of curves.
ghost use Rattle.std.specs.Prelude.{◌≡◌, ◌^◌, ◌<◌, length, map, IfSome};
ghost use Rattle.theory.specs.Limits.{IsWithin};
ghost use Rattle.theory.specs.Ends.{negated};
ghost use Rattle.theory.specs.Circuit.{WalkIsThere, passing_end};
ghost use Rattle.net_incidence.specs.Graph.{bare, network};
ghost use Rattle.net_incidence.specs.PartOf.{part_of, crossing_end};

use crate::net::Net;
use mono_curve::{Listed, domain_of, span_of};
use theory::{ArcId, Ext, Step};

/// A sum of ends, or the first arc whose end is infinite.
#[derive(Clone, Copy, PartialEq, Eq, Debug)]
pub enum Sum {
    Whole(i128),
    Endless(ArcId),
}

impl Net {
    ghost use Rattle.net_incidence.specs.SumAnswers.{IsCutSum, IsSpanSum, IsSumWithin};

    /// The upper domain ends of the arcs that leave the set of marked nodes, less the lower domain ends of the arcs that
    /// enter it. Endless is the first arc of an infinite end, in the order of arc numbers.
    pub fn cut_sum<C: Listed>(&self, curves: &[C], side: &[bool]) -> Sum
        requires one_curve_each { length curves.now ≡ length self.now.arcs }
        requires one_mark_each { length side.now ≡ self.now.nodes }
        ensures sum { IsCutSum (network self.now (map C.listing curves.now)) side.now result }
        ensures within { IsSumWithin (length self.now.arcs) result }
    {
        let mut sum = 0i128;
        for j in 0..self.arcs() {
            let arc = ArcId(j as u32);
            let at_tail = side[self.from(arc).0 as usize];
            let at_head = side[self.to(arc).0 as usize];
            match cut_part(&curves[arc.0 as usize], at_tail, at_head) {
                Some(part) => sum += part,
                None => return Sum::Endless(arc),
            }
        }
        Sum::Whole(sum)
    }

    /// The upper span ends of the forward arcs of the walk, less the lower span ends of its backward arcs. Endless is
    /// the arc of the first step whose end is infinite.
    pub fn circuit_sum<C: Listed>(&self, curves: &[C], walk: &[Step]) -> Sum
        requires one_curve_each { length curves.now ≡ length self.now.arcs }
        requires there { WalkIsThere (bare self.now) walk.now }
        requires short { length walk.now < 2 ^ 31 }
        ensures sum { IsSpanSum (network self.now (map C.listing curves.now)) walk.now result }
        ensures within { IsSumWithin (length walk.now) result }
    {
        let mut sum = 0i128;
        for step in walk {
            match span_part(&curves[step.arc.0 as usize], step.forward) {
                Some(part) => sum += part,
                None => return Sum::Endless(step.arc),
            }
        }
        Sum::Whole(sum)
    }
}

/// What an arc adds to the sum of a cut, by whether the set holds its tail and its head; None where that is infinite.
fn cut_part<C: Listed>(curve: &C, at_tail: bool, at_head: bool) -> Option<i128>
    ensures value { result ≡ part_of (crossing_end (C.listing curve.now).items at_tail at_head) }
    ensures within { IfSome result (IsWithin (2 ^ 63)) }
{
    let (low, high) = domain_of(curve);
    match (at_tail, at_head) {
        (true, false) => upper_part(high),
        (false, true) => lower_part(low),
        _ => Some(0),
    }
}

/// What a step adds to the sum of a walk; None where that is infinite.
fn span_part<C: Listed>(curve: &C, forward: bool) -> Option<i128>
    ensures value { result ≡ part_of (passing_end (C.listing curve.now).items forward) }
    ensures within { IfSome result (IsWithin (2 ^ 63)) }
{
    let (low, high) = span_of(curve);
    if forward {
        upper_part(high)
    } else {
        lower_part(low)
    }
}

fn upper_part(end: Ext) -> Option<i128>
    ensures value { result ≡ part_of end }
    ensures within { IfSome result (IsWithin (2 ^ 63)) }
{
    match end {
        Ext::At(a) => Some(i128::from(a)),
        Ext::MinusInf | Ext::PlusInf => None,
    }
}

fn lower_part(end: Ext) -> Option<i128>
    ensures value { result ≡ part_of (negated end) }
    ensures within { IfSome result (IsWithin (2 ^ 63)) }
{
    match end {
        Ext::At(a) => Some(-i128::from(a)),
        Ext::MinusInf | Ext::PlusInf => None,
    }
}
