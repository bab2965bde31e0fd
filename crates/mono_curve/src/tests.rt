// Curves worked by hand: the cost and every reading, and each fault with its text.
ghost use Rattle.std.specs.Prelude.{◌≡◌, ◌↔◌, ◌+◌, ◌^◌, ◌<◌, ◌≤◌, IsTrue, length};
ghost use Rattle.theory.specs.Domain.{InDomain};
ghost use Rattle.theory.specs.Limits.{arg_most, flow_most, IsWithin};

use crate::{
    ARG_MOST, BASE_MOST, Curve, CurveFault, FLOW_MOST, Listed, Monotone, Steps, cost_at, domain_of,
    on_curve, price, span_of, to_curve,
};
use std::alloc::Global;
use std::marker::Brand;
use std::process::Abort;
use std::sync::ledger::{Blank, Ledger};
use std::test::Fail;
use theory::Ext::{self, At, MinusInf, PlusInf};
use theory::pricing::is_between;

/// A curve with a flow and a tension, and what is read there. Outside the domain there is no cost.
#[derive(Clone, Copy)]
struct Row {
    items: &'static [Ext],
    base: i128,
    domain: (Ext, Ext),
    span: (Ext, Ext),
    flow: i64,
    cost: Option<i128>,
    slopes: (Ext, Ext),
    tension: i64,
    range: (Ext, Ext),
    // Whether the flow and the tension are a pair.
    pair: bool,
}

#[derive(Clone, Copy, PartialEq, Eq, Debug)]
struct Readings {
    domain: (Ext, Ext),
    span: (Ext, Ext),
    slopes: (Ext, Ext),
    range: (Ext, Ext),
}

fn is_argument(number: i64) -> bool
    ensures { IsTrue result ↔ IsWithin arg_most number }
{
    -ARG_MOST <= number && number <= ARG_MOST
}

/// All readings at the row's flow and tension, if they may be arguments.
fn readings_of<C: Monotone, L: Ledger>(curve: &C, row: &Row, blank: Blank) -> Option<Readings>
    requires name { blank.name ≡ L.name }
    requires parts { blank.parts ≡ L.parts }
    requires some { 0 < blank.parts }
{
    let mut steps = Steps::<L>::open(blank);
    let (flow, tension) = (row.flow, row.tension);
    if !is_argument(flow) || !is_argument(tension) {
        return None;
    }
    Some(Readings {
        domain: curve.domain(&mut steps),
        span: curve.span(&mut steps),
        slopes: curve.slopes_at(flow, &mut steps),
        range: curve.range_at(tension, &mut steps),
    })
}

fn cost_inside<C: Listed>(curve: &C, flow: i64) -> Option<i128> {
    let (low, high) = domain_of(curve);
    let small = -FLOW_MOST <= flow && flow <= FLOW_MOST;
    if small && is_between(low, high, flow) {
        Some(cost_at(curve, flow))
    } else {
        None
    }
}

const NOWHERE_BELOW: (Ext, Ext) = (MinusInf, MinusInf);

const NOWHERE_ABOVE: (Ext, Ext) = (PlusInf, PlusInf);

const EVERYWHERE: (Ext, Ext) = (MinusInf, PlusInf);

/// Slope 2 from 0 to 4, slope 5 from 4 to 10.
const BENT: Row = Row {
    items: &[At(0), At(2), At(4), At(5), At(10)],
    base: 0,
    domain: (At(0), At(10)),
    span: EVERYWHERE,
    flow: 5,
    cost: Some(13),
    slopes: (At(5), At(5)),
    tension: 3,
    range: (At(4), At(4)),
    pair: false,
};

/// The flow 5 alone.
const FIXED: Row = Row {
    items: &[At(5)],
    base: 7,
    domain: (At(5), At(5)),
    span: EVERYWHERE,
    flow: 5,
    cost: Some(7),
    slopes: EVERYWHERE,
    tension: -100,
    range: (At(5), At(5)),
    pair: true,
};

/// Slope -1 from -4 on.
const FALLING: Row = Row {
    items: &[At(-4), At(-1), PlusInf],
    base: 0,
    domain: (At(-4), PlusInf),
    span: (MinusInf, At(-1)),
    flow: 3,
    cost: Some(-3),
    slopes: (At(-1), At(-1)),
    tension: -1,
    range: (At(-4), PlusInf),
    pair: true,
};

/// Slope 3 everywhere.
const LINE: Row = Row {
    items: &[MinusInf, At(3), PlusInf],
    base: 0,
    domain: EVERYWHERE,
    span: (At(3), At(3)),
    flow: -2,
    cost: Some(-6),
    slopes: (At(3), At(3)),
    tension: 3,
    range: EVERYWHERE,
    pair: true,
};

/// Slope 3 from 2 to 6, at the cost 10 where it rests, at 2.
const AWAY: Row = Row {
    items: &[At(2), At(3), At(6)],
    base: 10,
    domain: (At(2), At(6)),
    span: EVERYWHERE,
    flow: 5,
    cost: Some(19),
    slopes: (At(3), At(3)),
    tension: 3,
    range: (At(2), At(6)),
    pair: true,
};

const ROWS: [Row; 15] = [
    BENT,
    Row {
        flow: 4,
        cost: Some(8),
        slopes: (At(2), At(5)),
        tension: 2,
        range: (At(0), At(4)),
        pair: true,
        ..BENT
    },
    Row {
        flow: 0,
        cost: Some(0),
        slopes: (MinusInf, At(2)),
        tension: 5,
        range: (At(4), At(10)),
        ..BENT
    },
    Row {
        flow: 10,
        cost: Some(38),
        slopes: (At(5), PlusInf),
        tension: 6,
        range: (At(10), At(10)),
        pair: true,
        ..BENT
    },
    Row {
        flow: -1,
        cost: None,
        slopes: NOWHERE_BELOW,
        tension: 1,
        range: (At(0), At(0)),
        ..BENT
    },
    Row {
        flow: 11,
        cost: None,
        slopes: NOWHERE_ABOVE,
        ..BENT
    },
    FIXED,
    Row {
        flow: 6,
        cost: None,
        slopes: NOWHERE_ABOVE,
        pair: false,
        ..FIXED
    },
    FALLING,
    Row {
        flow: -4,
        cost: Some(4),
        slopes: (MinusInf, At(-1)),
        tension: -2,
        range: (At(-4), At(-4)),
        ..FALLING
    },
    Row {
        tension: 0,
        range: NOWHERE_ABOVE,
        pair: false,
        ..FALLING
    },
    LINE,
    Row {
        tension: 2,
        range: NOWHERE_BELOW,
        pair: false,
        ..LINE
    },
    AWAY,
    Row {
        flow: 2,
        cost: Some(10),
        slopes: (MinusInf, At(3)),
        tension: 7,
        range: (At(6), At(6)),
        pair: false,
        ..AWAY
    },
];

#[test]
fn worked_curves(rt: HostRuntime) -> Result<(), Fail> {
    for row in &ROWS {
        compare(&rt, rt.alloc(), row)?;
    }
    Ok(())
}

fn compare(rt: &impl Abort, alloc: Global, row: &Row) -> Result<(), Fail> {
    let curve = Curve::of_list(alloc, row.items, row.base)?;
    let kept = to_curve(alloc, &curve)?;
    let read = readings_of::<Curve, Brand>(&kept, row, Blank::new(1));
    let want = Readings {
        domain: row.domain,
        span: row.span,
        slopes: row.slopes,
        range: row.range,
    };
    assert_eq!(rt;
        read,
        Some(want),
        "of {:?} at {} and {}",
        row.items,
        row.flow,
        row.tension
    );
    assert_eq!(rt; cost_inside(&kept, row.flow), row.cost);
    assert_eq!(rt; on_curve(&kept, row.flow, row.tension), row.pair);
    assert_eq!(rt; domain_of(&kept), row.domain);
    assert_eq!(rt; span_of(&kept), row.span);
    Ok(())
}

// ---- by looks

/// A list of fewer than 2 ^ 12 items takes 20 looks at most.
fn price_by_few_looks<L: Ledger>(curve: &Curve, flow: i64, looks: &mut Steps<L>) -> i128
    requires short { length curve.now.listing.items < 2 ^ 12 }
    requires inside { InDomain 1 curve.now.listing.items flow }
    requires small { IsWithin flow_most flow }
    ensures counted { looks.new ≤ looks.old + 20 }
{
    price(curve, flow, looks)
}

fn price_inside<L: Ledger>(curve: &Curve, flow: i64, blank: Blank) -> Option<i128>
    requires name { blank.name ≡ L.name }
    requires parts { blank.parts ≡ L.parts }
    requires some { 0 < blank.parts }
{
    let mut looks = Steps::<L>::open(blank);
    let (low, high) = domain_of(curve);
    let small = -FLOW_MOST <= flow && flow <= FLOW_MOST;
    if Listed::len(curve) < 4096 && small && is_between(low, high, flow) {
        Some(price_by_few_looks(curve, flow, &mut looks))
    } else {
        None
    }
}

fn compare_price(
    rt: &impl Abort,
    alloc: Global,
    items: &[Ext],
    flow: i64,
    want: i128,
) -> Result<(), Fail> {
    let curve = Curve::of_list(alloc, items, 0)?;
    let priced = price_inside::<Brand>(&curve, flow, Blank::new(1));
    assert_eq!(rt; priced, Some(want), "of {:?} at {}", items, flow);
    Ok(())
}

#[test]
fn prices(rt: HostRuntime) -> Result<(), Fail> {
    let line = [MinusInf, At(3), PlusInf];
    compare_price(&rt, rt.alloc(), BENT.items, 5, 13)?;
    compare_price(&rt, rt.alloc(), &line, -4, -12)?;
    let mut parabola = Vec::new(rt.alloc());
    for number in -2000..2001 {
        parabola.push(At(number))?;
    }
    // Half the square of the flow, at even flows.
    compare_price(&rt, rt.alloc(), &parabola, 0, 0)?;
    compare_price(&rt, rt.alloc(), &parabola, 1000, 500_000)?;
    compare_price(&rt, rt.alloc(), &parabola, -1999, 1_998_001)
}

const LARGE: i128 = BASE_MOST + 1;

/// A list, a base, the fault and its text.
const FAULTS: [(&[Ext], i128, CurveFault, &str); 6] = [
    (
        &[],
        0,
        CurveFault::Even,
        "a curve has an odd number of items",
    ),
    (
        &[PlusInf; 4005],
        LARGE,
        CurveFault::Long,
        "a list of too many items",
    ),
    (
        &[At(2_000_000_000), At(1), MinusInf],
        0,
        CurveFault::Infinite(2),
        "item 2 may not be infinite",
    ),
    (
        &[At(0), At(-1_000_000_001), At(0)],
        LARGE,
        CurveFault::Magnitude(1),
        "item 1 is too large",
    ),
    (
        &[At(0), At(1), At(0)],
        LARGE,
        CurveFault::Magnitude(3),
        "item 3 is too large",
    ),
    (
        &[At(0), At(1), At(0)],
        0,
        CurveFault::Order(2),
        "item 2 is not greater than the item two places before it",
    ),
];

#[test]
fn faults(rt: HostRuntime) -> Result<(), Fail> {
    for (items, base, fault, text) in FAULTS {
        assert_eq!(rt; Curve::of_list(rt.alloc(), items, base).err(), Some(fault));
        assert_eq!(rt; format!(in rt.alloc(); "{fault}")?.as_str(), text);
    }
    Ok(())
}
