// How a potential is found: arcs are examined in rounds, and where a tension is outside its span, a node is lowered.
ghost use Rattle.std.specs.Prelude.{◌≡◌, ℕ, ◌+◌, ◌-◌, ◌*◌, ◌<◌, ◌≤◌, pos, neg_ℤ, ◌<ℤ◌, ◌≤ℤ◌, if◌then◌else◌, None, IfSome, length, map};
ghost use Rattle.std.specs.List.{All};
ghost use Rattle.theory.specs.declared.ext.Ext.TheVariants.{At};
ghost use Rattle.theory.specs.Ends.{IsBetween, negated, whole};
ghost use Rattle.theory.specs.Circuit.{begin_of, end_of, span_end};
ghost use Rattle.theory.specs.Limits.{number_most, IsWithin};
ghost use Rattle.net_incidence.specs.FlowAlong.{AreSmall};
ghost use Rattle.painted_search.specs.Fits.{Fits};
ghost use Rattle.net_incidence.specs.WithoutBases.{without_bases, IsPassable};
ghost use Rattle.feasible_tension.specs.Back.{IsDeep};
ghost use Rattle.feasible_tension.specs.Bounds.{IsHeld, IsExamined, lowered};
ghost use Rattle.feasible_tension.specs.Kept.{IsKept};
ghost use Rattle.feasible_tension.specs.Relaxing.{place, IsRelaxing};
ghost use Rattle.feasible_tension.specs.Passed.{IsPassedBy};

use mono_curve::{Monotone, Steps};
use net_incidence::Net;
use painted_search::Work;
use std::sync::ledger::Ledger;
use theory::{ArcId, Ext, NodeId, Step};

/// A net with the curves whose spans bound its tensions.
#[derive(Drop)]
pub(crate) struct Spans<'a, C> {
    pub(crate) net: &'a Net,
    pub(crate) curves: &'a [C],
}

impl<C: Monotone> Spans<'_, C> {
    /// Goes on until a round lowers no node. None then; else a node that has as many labels behind it as there are nodes. The
    /// labels come round once they are that many, mostly after a few rounds, and always after as many as there are nodes.
    pub(crate) fn rounds<L: Ledger>(&self, work: &mut Work, steps: &mut Steps<L>) -> Option<NodeId>
        requires passable { IsPassable self.now.net.now (length self.now.curves.now) }
        requires light { All (λ c. C.weight c ≡ 1) self.now.curves.now }
        requires fits { Fits self.now.net.now work.old }
        requires relaxing { IsRelaxing (without_bases self.now.net.now (map C.items self.now.curves.now)) 0 0 None work.old }
        ensures relaxed { (rounds : ℕ) × IsRelaxing (without_bases self.now.net.now (map C.items self.now.curves.now)) rounds 0 None work.new }
        ensures held { result ≡ None → (j : ℕ) → j < length self.now.net.now.arcs
            → IsHeld (without_bases self.now.net.now (map C.items self.now.curves.now)) work.new.potentials j }
        ensures deep { IfSome result (λ node. IsDeep (without_bases self.now.net.now (map C.items self.now.curves.now)) work.new.labels
            self.now.net.now.nodes node.0) }
        ensures kept { IsKept work.old work.new }
        ensures no_fewer { steps.old ≤ steps.new }
        ensures count { steps.new ≤ steps.old + self.now.net.now.nodes * length self.now.net.now.arcs }
    {
        let mut changed = None;
        for round in 0..self.net.nodes() {
            let node = self.round(round, work, steps)?;
            if self.is_deep(node, work) {
                return Some(node);
            }
            changed = Some(node);
        }
        changed
    }

    /// Examines every arc once, and gives a node that it lowered.
    fn round<L: Ledger>(
        &self,
        round: usize,
        work: &mut Work,
        steps: &mut Steps<L>,
    ) -> Option<NodeId>
        requires passable { IsPassable self.now.net.now (length self.now.curves.now) }
        requires light { All (λ c. C.weight c ≡ 1) self.now.curves.now }
        requires fits { Fits self.now.net.now work.old }
        requires few { round < self.now.net.now.nodes }
        requires relaxing { IsRelaxing (without_bases self.now.net.now (map C.items self.now.curves.now)) round 0 None work.old }
        ensures relaxing { IsRelaxing (without_bases self.now.net.now (map C.items self.now.curves.now)) (round + 1) 0 None work.new }
        ensures held { result ≡ None → (j : ℕ) → j < length self.now.net.now.arcs
            → IsHeld (without_bases self.now.net.now (map C.items self.now.curves.now)) work.new.potentials j }
        ensures deep { IfSome result (λ node. IsDeep (without_bases self.now.net.now (map C.items self.now.curves.now)) work.new.labels
            (round + 1) node.0) }
        ensures kept { IsKept work.old work.new }
        ensures no_fewer { steps.old ≤ steps.new }
        ensures count { steps.new ≤ steps.old + length self.now.net.now.arcs }
    {
        let arcs = self.net.arcs();
        let mut changed = None;
        for k in 0..arcs {
            let arc = ArcId(place(round, arcs, k) as u32);
            changed = self.examine(arc, work, steps).or(changed);
        }
        changed
    }

    /// Reads the span of an arc, and lowers a node if the tension is outside it.
    fn examine<L: Ledger>(
        &self,
        arc: ArcId,
        work: &mut Work,
        steps: &mut Steps<L>,
    ) -> Option<NodeId>
        requires passable { IsPassable self.now.net.now (length self.now.curves.now) }
        requires light { All (λ c. C.weight c ≡ 1) self.now.curves.now }
        requires fits { Fits self.now.net.now work.old }
        requires there { arc.0 < length self.now.net.now.arcs }
        requires small { AreSmall work.old.potentials }
        ensures examined { IsExamined (without_bases self.now.net.now (map C.items self.now.curves.now)) arc.0 work.old result work.new }
        ensures no_fewer { steps.old ≤ steps.new }
        ensures count { steps.new ≤ steps.old + 1 }
    {
        let (low, high) = self.curves[arc.0 as usize].span(steps);
        let tension = self.net.tension(work.potentials(), arc);
        let (step, bound) = passed(arc, low, high, tension)?;
        Some(self.lower(step, bound, work))
    }

    /// Lowers the node where the step ends to the step's bound.
    fn lower(&self, step: Step, bound: i64, work: &mut Work) -> NodeId
        requires fits { Fits self.now.net.now work.old }
        requires there { step.arc.0 < length self.now.net.now.arcs }
        requires small { AreSmall work.old.potentials }
        requires within { IsWithin number_most bound }
        requires bound { bound ≡ whole (span_end (without_bases self.now.net.now (map C.items self.now.curves.now)) step) }
        ensures node { result.0 ≡ end_of (without_bases self.now.net.now (map C.items self.now.curves.now)) step }
        ensures lowered { work.new ≡ lowered (without_bases self.now.net.now (map C.items self.now.curves.now)) work.old step }
    {
        let end = self.net.end(step);
        let potential = work.potential(self.net.begin(step)) + bound;
        work.set_potential(end, potential);
        work.set_label(end, step);
        end
    }
}

/// The arc at a place of a round: rounds go from the front and from the back in turn.
fn place(round: usize, arcs: usize, k: usize) -> usize
    requires { k < arcs }
    ensures { result ≡ place round arcs k }
{
    if round % 2 == 0 { k } else { arcs - 1 - k }
}

/// The step over the arc whose bound the tension passes, with that bound.
fn passed(arc: ArcId, low: Ext, high: Ext, tension: i64) -> Option<(Step, i64)>
    requires low { IsWithin number_most (whole low) }
    ensures within { result ≡ None → IsBetween 1 low high tension }
    ensures passed { IfSome result (λ found. IsPassedBy arc.0 low high tension found.0 found.1) }
{
    if let Ext::At(most) = high {
        if tension > most {
            return Some((Step { arc, forward: true }, most));
        }
    }
    if let Ext::At(least) = low {
        if tension < least {
            return Some((
                Step {
                    arc,
                    forward: false,
                },
                -least,
            ));
        }
    }
    None
}
