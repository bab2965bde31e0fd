// Spans and the tensions in them: which steps are tight, and how much slack the others leave.
ghost use Rattle.std.specs.Prelude.{◌≡◌, ℕ, ◌+◌, ◌*◌, ◌<◌, ◌≤◌, length, map};
ghost use Rattle.std.specs.List.{All};
ghost use Rattle.theory.specs.Ends.{whole};
ghost use Rattle.theory.specs.Span.{span_low, span_high};
ghost use Rattle.theory.specs.Limits.{number_most, IsWithin};
ghost use Rattle.theory.specs.Network.{list_at};
ghost use Rattle.net_incidence.specs.FlowAlong.{most_potential};
ghost use Rattle.painted_search.specs.Fits.{Fits};
ghost use Rattle.path_cut.specs.Paintings.{tight};
ghost use Rattle.path_cut.specs.Slack.{above, below, lesser, slack_at, IsLeastOf, ArePriced};

use feasible_flow::shade;
use mono_curve::{Ext, Monotone, Steps};
use net_incidence::{ArcId, Net};
use painted_search::{Colour, Painter, Work};
use std::sync::ledger::Ledger;
use theory::pricing::precedes;

/// A net with the curves whose spans hold its tensions. As a painter it lets tight steps through.
#[derive(Drop)]
pub(crate) struct Tight<'a, C> {
    pub(crate) net: &'a Net,
    pub(crate) curves: &'a [C],
}

impl<'a, C: Monotone> Painter for Tight<'a, C> {
    ghost ready = { λ s flows potentials. ArePriced s.net.now (length s.curves.now) flows potentials × All (λ c. C.weight c ≡ 1) s.curves.now };

    ghost paint = { λ s flows potentials. tight s.net.now (map C.items s.curves.now) potentials };

    ghost weight = { λ s. 1 };

    fn colour<L: Ledger>(&self, work: &Work, arc: ArcId, steps: &mut Steps<L>) -> Colour {
        let _arcs = work.arcs();
        let (low, high) = self.ends(arc, steps);
        let tension = Ext::At(self.net.tension(work.potentials(), arc));
        shade(!precedes(tension, high), !precedes(low, tension))
    }
}

impl<'a, C: Monotone> Tight<'a, C> {
    /// The ends of the arc's span.
    fn ends<L: Ledger>(&self, arc: ArcId, steps: &mut Steps<L>) -> (Ext, Ext)
        requires there { arc.0 < length self.now.curves.now }
        requires light { All (λ c. C.weight c ≡ 1) self.now.curves.now }
        ensures low { result.0 ≡ span_low (list_at (map C.items self.now.curves.now) arc.0) }
        ensures high { result.1 ≡ span_high (list_at (map C.items self.now.curves.now) arc.0) }
        ensures no_fewer { steps.old ≤ steps.new }
        ensures count { steps.new ≤ steps.old + 1 }
    {
        self.curves[arc.0 as usize].span(steps)
    }

    /// The least slack of the arcs that cross the reached set. None where no lifting comes to an end of a span.
    pub(crate) fn least_slack<L: Ledger>(&self, work: &Work, steps: &mut Steps<L>) -> Option<u64>
        requires light { All (λ c. C.weight c ≡ 1) self.now.curves.now }
        requires fits { Fits self.now.net.now work.now }
        requires priced { ArePriced self.now.net.now (length self.now.curves.now) work.now.flows work.now.potentials }
        ensures least { IsLeastOf (length self.now.net.now.arcs)
            (slack_at self.now.net.now (map C.items self.now.curves.now) work.now.potentials work.now.reached) result }
        ensures no_fewer { steps.old ≤ steps.new }
        ensures count { steps.new ≤ steps.old + length self.now.net.now.arcs }
    {
        let mut least = None;
        for j in 0..self.net.arcs() {
            let slack = self.slack(ArcId(j as u32), work, steps);
            least = lesser(least, slack);
        }
        least
    }

    /// The slack of an arc.
    fn slack<L: Ledger>(&self, arc: ArcId, work: &Work, steps: &mut Steps<L>) -> Option<u64>
        requires there { arc.0 < length self.now.net.now.arcs }
        requires light { All (λ c. C.weight c ≡ 1) self.now.curves.now }
        requires fits { Fits self.now.net.now work.now }
        requires priced { ArePriced self.now.net.now (length self.now.curves.now) work.now.flows work.now.potentials }
        ensures slack { result ≡ slack_at self.now.net.now (map C.items self.now.curves.now) work.now.potentials work.now.reached arc.0 }
        ensures no_fewer { steps.old ≤ steps.new }
        ensures count { steps.new ≤ steps.old + 1 }
    {
        let (low, high) = self.ends(arc, steps);
        let tension = self.net.tension(work.potentials(), arc);
        let at_tail = work.reached(self.net.from(arc));
        let at_head = work.reached(self.net.to(arc));
        match (at_tail, at_head) {
            (true, false) => above(high, tension),
            (false, true) => below(low, tension),
            _ => None,
        }
    }
}

/// How far it is up to the end.
fn above(high: Ext, tension: i64) -> Option<u64>
    requires end_within { IsWithin number_most (whole high) }
    requires near { IsWithin (2 * most_potential) tension }
    ensures { result ≡ above high tension }
{
    match high {
        Ext::At(high) if tension < high => Some((high - tension) as u64),
        Ext::At(_) => Some(0),
        Ext::MinusInf | Ext::PlusInf => None,
    }
}

/// How far it is down to the end.
fn below(low: Ext, tension: i64) -> Option<u64>
    requires end_within { IsWithin number_most (whole low) }
    requires near { IsWithin (2 * most_potential) tension }
    ensures { result ≡ below low tension }
{
    match low {
        Ext::At(low) if low < tension => Some((tension - low) as u64),
        Ext::At(_) => Some(0),
        Ext::MinusInf | Ext::PlusInf => None,
    }
}

/// The lesser of the numbers that there are.
fn lesser(least: Option<u64>, slack: Option<u64>) -> Option<u64>
    ensures { result ≡ lesser least slack }
{
    match (least, slack) {
        (Some(a), Some(b)) => Some(a.min(b)),
        (Some(a), None) => Some(a),
        (None, b) => b,
    }
}
