// The domains of a net's arcs: how they paint it, what a flow lacks to its domain, and how far a path may be used.
ghost use Rattle.std.specs.Prelude.{◌≡◌, ◌+◌, ◌*◌, ◌<◌, ◌≤◌, ℕ, if◌then◌else◌, length};
ghost use Rattle.std.specs.List.{All};
ghost use Rattle.theory.specs.Ends.{is_below, whole};
ghost use Rattle.theory.specs.CurveList.{first, last};
ghost use Rattle.theory.specs.Limits.{number_most, level_most, IsWithin};
ghost use Rattle.theory.specs.Network.{«at»};
ghost use Rattle.theory.specs.Circuit.{step};
ghost use Rattle.painted_search.specs.Path.{IsFreeStep, AllFree};
ghost use Rattle.feasible_flow.specs.Painting.{shade, painting};
ghost use Rattle.theory.specs.Network.{list_at};
ghost use Rattle.feasible_flow.specs.Violations.{missing, surplus, distance, movable_most, IsNeedOf, HasRoom, AreNear};
ghost use Rattle.feasible_flow.specs.UnderWay.{AllHaveRoom, look_cost};
ghost use Rattle.feasible_flow.specs.ByLevels.{levels_of};

use curve_views::Level;
use mono_curve::{Ext, Monotone, Steps};
use net_incidence::{ArcId, Step};
use painted_search::{Colour, Painter, Work};
use std::sync::ledger::Ledger;

/// The curves of a net's arcs at a level, read for their domains alone. As a painter it lets a flow move within its domain,
/// and from outside towards it.
#[derive(Drop)]
pub(crate) struct Domains<'a, C> {
    pub(crate) curves: &'a [C],
    pub(crate) level: u32,
    ghost few: { level ≤ level_most },
}

/// The step over an arc that leads its flow to its domain, and by how much.
#[derive(Clone, Copy)]
pub(crate) struct Need {
    pub(crate) step: Step,
    pub(crate) amount: u64,
}

impl<'a, C: Monotone> Painter for Domains<'a, C> {
    ghost ready = { λ s flows potentials. (length flows ≡ length s.curves.now) × All (λ c. C.weight c ≡ 1) s.curves.now };

    ghost paint = { λ s flows potentials j. painting (levels_of C.items s.level s.curves.now) flows j };

    ghost weight = { λ s. look_cost };

    fn colour<L: Ledger>(&self, work: &Work, arc: ArcId, steps: &mut Steps<L>) -> Colour {
        let (low, high) = self.ends(arc, steps);
        let flow = Ext::At(work.flow(arc));
        shade(is_below(flow, high), is_below(low, flow))
    }
}

impl<'a, C: Monotone> Domains<'a, C> {
    /// The ends of the arc's domain.
    pub(crate) fn ends<L: Ledger>(&self, arc: ArcId, steps: &mut Steps<L>) -> (Ext, Ext)
        requires there { arc.0 < length self.now.curves.now }
        requires light { All (λ c. C.weight c ≡ 1) self.now.curves.now }
        ensures low { result.0 ≡ first (list_at (levels_of C.items self.now.level self.now.curves.now) arc.0) }
        ensures high { result.1 ≡ last (list_at (levels_of C.items self.now.level self.now.curves.now) arc.0) }
        ensures no_fewer { steps.old ≤ steps.new }
        ensures count { steps.new ≤ steps.old + look_cost }
    {
        Level::of(&self.curves[arc.0 as usize], self.level).domain(steps)
    }

    /// What the arc's flow lacks to its domain.
    pub(crate) fn need_of<L: Ledger>(
        &self,
        arc: ArcId,
        work: &Work,
        steps: &mut Steps<L>,
    ) -> Option<Need>
        requires there { arc.0 < length self.now.curves.now }
        requires one_each { length work.now.flows ≡ length self.now.curves.now }
        requires light { All (λ c. C.weight c ≡ 1) self.now.curves.now }
        requires near { AreNear movable_most work.now.flows }
        ensures need { IsNeedOf (levels_of C.items self.now.level self.now.curves.now) work.now.flows arc.0 result }
        ensures no_fewer { steps.old ≤ steps.new }
        ensures count { steps.new ≤ steps.old + look_cost }
    {
        let (low, high) = self.ends(arc, steps);
        let flow = work.flow(arc);
        let missing = missing(low, flow);
        if missing > 0 {
            return Some(Need {
                step: Step { arc, forward: true },
                amount: missing,
            });
        }
        let surplus = surplus(high, flow);
        if surplus > 0 {
            return Some(Need {
                step: Step {
                    arc,
                    forward: false,
                },
                amount: surplus,
            });
        }
        None
    }

    /// The most of the amount that every step of the walk has room for.
    pub(crate) fn room_along<L: Ledger>(
        &self,
        work: &Work,
        amount: u64,
        steps: &mut Steps<L>,
    ) -> u64
        requires one_each { length work.now.flows ≡ length self.now.curves.now }
        requires light { All (λ c. C.weight c ≡ 1) self.now.curves.now }
        requires near { AreNear movable_most work.now.flows }
        requires there { (k : ℕ) → k < length work.now.walk → (step work.now.walk k).arc.0 < length self.now.curves.now }
        requires free { AllFree (painting (levels_of C.items self.now.level self.now.curves.now) work.now.flows) work.now.walk }
        requires some { 1 ≤ amount }
        ensures some { 1 ≤ result }
        ensures most { result ≤ amount }
        ensures room { AllHaveRoom (levels_of C.items self.now.level self.now.curves.now) work.now.flows work.now.walk result }
        ensures no_fewer { steps.old ≤ steps.new }
        ensures count { steps.new ≤ steps.old + length work.now.walk * look_cost }
    {
        let mut room = amount;
        for k in 0..work.walk_len() {
            room = room.min(self.room_of(work.walk_step(k), work, steps));
        }
        room
    }

    /// How far the flow of a free step's arc may move in its direction.
    fn room_of<L: Ledger>(&self, step: Step, work: &Work, steps: &mut Steps<L>) -> u64
        requires there { step.arc.0 < length self.now.curves.now }
        requires one_each { length work.now.flows ≡ length self.now.curves.now }
        requires light { All (λ c. C.weight c ≡ 1) self.now.curves.now }
        requires near { AreNear movable_most work.now.flows }
        requires free { IsFreeStep (painting (levels_of C.items self.now.level self.now.curves.now) work.now.flows) step }
        ensures some { 1 ≤ result }
        ensures room { (amount : ℕ) → amount ≤ result
            → HasRoom (list_at (levels_of C.items self.now.level self.now.curves.now) step.arc.0) («at» work.now.flows step.arc.0) step.forward amount }
        ensures no_fewer { steps.old ≤ steps.new }
        ensures count { steps.new ≤ steps.old + look_cost }
    {
        let (low, high) = self.ends(step.arc, steps);
        distance(end_ahead(low, high, step.forward), work.flow(step.arc))
    }
}

/// The end of a domain that a step leads to.
fn end_ahead(low: Ext, high: Ext, forward: bool) -> Ext
    ensures { result ≡ if forward then high else low }
{
    if forward { high } else { low }
}

/// The colour of an arc that may be passed forward, backward, both or neither.
pub fn shade(up: bool, down: bool) -> Colour
    ensures { result ≡ shade up down }
{
    match (up, down) {
        (true, true) => Colour::Green,
        (true, false) => Colour::White,
        (false, true) => Colour::Black,
        (false, false) => Colour::Red,
    }
}

fn is_below(end: Ext, other: Ext) -> bool
    ensures { result ≡ is_below end other }
{
    end < other
}

/// How far the flow is below the lower end.
pub(crate) fn missing(end: Ext, flow: i64) -> u64
    requires end_within { IsWithin number_most (whole end) }
    requires flow_near { IsWithin movable_most flow }
    ensures { result ≡ missing end flow }
{
    match end {
        Ext::At(low) if flow < low => (low - flow) as u64,
        _ => 0,
    }
}

/// How far the flow is above the upper end.
pub(crate) fn surplus(end: Ext, flow: i64) -> u64
    requires end_within { IsWithin number_most (whole end) }
    requires flow_near { IsWithin movable_most flow }
    ensures { result ≡ surplus end flow }
{
    match end {
        Ext::At(high) if high < flow => (flow - high) as u64,
        _ => 0,
    }
}

/// How far the flow is from the end, on either side; an infinite end is further than any flow.
pub fn distance(end: Ext, flow: i64) -> u64
    requires end_within { IsWithin number_most (whole end) }
    requires flow_near { IsWithin movable_most flow }
    ensures { result ≡ distance end flow }
{
    match end {
        Ext::At(_) => missing(end, flow) + surplus(end, flow),
        Ext::MinusInf | Ext::PlusInf => u64::MAX,
    }
}
