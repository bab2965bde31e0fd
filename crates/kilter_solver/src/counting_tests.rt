// How often the passes read curves that count their readings themselves: a counter of a pass's own would not escape them.
ghost use Rattle.std.specs.Prelude.{◌≡◌, ◌<◌};

use crate::solve_tests::grounded_of;
use crate::tests::net_of;
use crate::{Balanced, Kind, balance, prepare, solve_in};
use feasible_flow::{FlowAns, feasible_flow};
use feasible_tension::{TensionAns, feasible_tension};
use ground_net::Grounded;
use mono_curve::{Curve, Ext, Monotone, Steps};
use net_incidence::Net;
use painted_search::Work;
use std::cell::Cell;
use std::marker::Brand;
use std::process::Abort;
use std::sync::ledger::{Blank, Ledger};
use std::test::Fail;

/// A curve that counts its readings.
#[derive(Drop)]
struct Watched<'a> {
    curve: &'a Curve,
    readings: &'a Cell<u64>,
}

impl Watched<'_> {
    fn count(&self) {
        self.readings.set(self.readings.get().saturating_add(1));
    }
}

impl Monotone for Watched<'_> {
    ghost use Rattle.std.proofs.Common.{lit≤};
    ghost use Rattle.mono_curve.specs.CurveFacts.{short_list};
    ghost use Rattle.theory.proofs.ReadingLaws.{slopes_law, range_law, rise_law};
    ghost use Rattle.theory.proofs.ReadingLaws.{tensions_law, flows_law};

    ghost items = { λ w. w.curve.now.listing.items };

    ghost weight = { λ w. 1 };

    ghost is_list = { λ w. w.curve.now.valid.is_list };

    ghost items_within = { λ w. w.curve.now.valid.items_within };

    ghost is_short = { λ w. short_list w.curve.now };

    ghost weighs = { λ w. lit≤ tt };

    ghost between_slopes = { λ w. slopes_law w.curve.now.listing.items };

    ghost between_ends = { λ w. range_law w.curve.now.listing.items };

    ghost pairs_rise = { λ w. rise_law w.curve.now.listing.items w.curve.now.valid.is_list };

    ghost flows_have_tensions = { λ w. tensions_law w.curve.now.listing.items w.curve.now.valid.is_list };

    ghost tensions_have_flows = { λ w. flows_law w.curve.now.listing.items w.curve.now.valid.is_list };

    fn domain<L: Ledger>(&self, steps: &mut Steps<L>) -> (Ext, Ext) {
        self.count();
        self.curve.domain(steps)
    }

    fn span<L: Ledger>(&self, steps: &mut Steps<L>) -> (Ext, Ext) {
        self.count();
        self.curve.span(steps)
    }

    fn slopes_at<L: Ledger>(&self, x: i64, steps: &mut Steps<L>) -> (Ext, Ext) {
        self.count();
        self.curve.slopes_at(x, steps)
    }

    fn range_at<L: Ledger>(&self, v: i64, steps: &mut Steps<L>) -> (Ext, Ext) {
        self.count();
        self.curve.range_at(v, steps)
    }
}

/// The three passes in turn: what balancing found, if they come so far, and the room after it.
fn passed<L: Ledger>(
    rt: &(impl Abort + AllocGlobal),
    net: &Net,
    curves: &[Watched],
    blank: Blank,
) -> Result<(Option<Balanced>, Work), Fail>
    requires name { blank.name ≡ L.name }
    requires parts { blank.parts ≡ L.parts }
    requires some { 0 < blank.parts }
{
    let mut steps = Steps::<L>::open(blank);
    let (nodes, arcs) = (net.nodes(), net.arcs());
    assert!(rt; nodes >= 1 && nodes < 10 && arcs < 10 && curves.len() == arcs);
    let mut work = Work::take(rt.alloc(), nodes, arcs)?;
    match feasible_flow(net, curves, &mut work, &mut steps) {
        FlowAns::Flow => {}
        FlowAns::Cut => return Ok((None, work)),
    }
    match feasible_tension(net, curves, &mut work, &mut steps) {
        TensionAns::Potential => {}
        TensionAns::Circuit => return Ok((None, work)),
    }
    let found = balance(net, curves, &mut work, &mut steps);
    Ok((Some(found), work))
}

/// The kind of what is found for these curves, in room that is taken first.
fn solved<L: Ledger>(
    rt: &(impl Abort + AllocGlobal),
    g: &Grounded,
    curves: &[Watched],
    blank: Blank,
) -> Result<Kind, Fail>
    requires name { blank.name ≡ L.name }
    requires parts { blank.parts ≡ L.parts }
    requires some { 0 < blank.parts }
{
    let mut steps = Steps::<L>::open(blank);
    assert!(rt; curves.len() == g.net().arcs());
    let mut prepared = prepare(rt.alloc(), g)?;
    Ok(solve_in(g.net(), curves, &mut prepared, &mut steps))
}

#[test]
fn a_whole_solve_takes_few_readings(rt: HostRuntime) -> Result<(), Fail> {
    let text = b"network 1\nnode s 1000000\nnode t -1000000\narc a s t 0 1 1000000\n";
    let g = grounded_of(&rt, text.as_slice())?;
    let readings = Cell::new(0);
    let mut curves = Vec::new(rt.alloc());
    for curve in g.curves() {
        curves.push(Watched {
            curve,
            readings: &readings,
        })?;
    }
    let kind = solved::<Brand>(&rt, &g, curves.as_slice(), Blank::new(1))?;
    assert!(rt; kind == Kind::Optimal);
    let count = readings.get();
    assert!(rt; 0 < count && count <= 35_712, "{} readings", count);
    Ok(())
}

#[test]
fn a_million_units_take_few_readings(rt: HostRuntime) -> Result<(), Fail> {
    // A supply of a million, and an arc for so many at a price of 1.
    let million = Ext::At(1_000_000);
    let net = net_of(&rt, 3, [(0, 1), (0, 2), (1, 2)].as_slice())?;
    let supply = Curve::of_list(rt.alloc(), [million].as_slice(), 0)?;
    let demand = Curve::of_list(rt.alloc(), [Ext::At(-1_000_000)].as_slice(), 0)?;
    let road = Curve::of_list(rt.alloc(), [Ext::At(0), Ext::At(1), million].as_slice(), 0)?;
    let readings = Cell::new(0);
    let mut curves = Vec::new(rt.alloc());
    for curve in [&supply, &demand, &road] {
        curves.push(Watched {
            curve,
            readings: &readings,
        })?;
    }
    let (found, work) = passed::<Brand>(&rt, &net, curves.as_slice(), Blank::new(1))?;
    assert!(rt; found == Some(Balanced::InKilter));
    assert_eq!(rt; work.flows(), [1_000_000, -1_000_000, 1_000_000].as_slice());
    let count = readings.get();
    assert!(rt; 0 < count && count <= 35_712, "{} readings", count);
    Ok(())
}
