// Prices of views worked by hand, and how many calls a search in a long list makes.
ghost use Rattle.std.specs.Prelude.{◌≡◌, ◌<◌};

use crate::{Conjugate, Reversed, dual_at};
use mono_curve::{Curve, FLOW_MOST, Listed, Looked, Steps, cost_at, domain_of, price, span_of};
use std::alloc::Global;
use std::cell::Cell;
use std::marker::Brand;
use std::process::Abort;
use std::sync::ledger::{Blank, Ledger};
use std::test::Fail;
use theory::Ext::{self, At, MinusInf, PlusInf};
use theory::pricing::is_between;

// ---- by looks

/// The price by looks, if the flow is inside.
fn price_inside<C: Looked, L: Ledger>(curve: &C, flow: i64, blank: Blank) -> Option<i128>
    requires name { blank.name ≡ L.name }
    requires parts { blank.parts ≡ L.parts }
    requires some { 0 < blank.parts }
{
    let mut looks = Steps::<L>::open(blank);
    let low = curve.look(0, &mut looks);
    let high = curve.look(curve.len() - 1, &mut looks);
    let small = -FLOW_MOST <= flow && flow <= FLOW_MOST;
    if small && is_between(low, high, flow) {
        Some(price(curve, flow, &mut looks))
    } else {
        None
    }
}

/// A curve, a flow of its conjugate with the price there, and a flow of its reversed curve.
struct Row {
    items: &'static [Ext],
    base: i128,
    conjugate: (i64, i128),
    reversed: (i64, i128),
}

const ROWS: [Row; 5] = [
    Row {
        items: &[At(0), At(2), At(4), At(5), At(10)],
        base: 0,
        conjugate: (5, 12),
        reversed: (-5, 13),
    },
    Row {
        items: &[At(0), At(2), At(4), At(5), At(10)],
        base: 1,
        conjugate: (7, 31),
        reversed: (0, 1),
    },
    // The conjugate is the one point 3: its piece has no end.
    Row {
        items: &[MinusInf, At(3), PlusInf],
        base: 7,
        conjugate: (3, -7),
        reversed: (4, -5),
    },
    // The piece of -1 ends at -4 alone, where the cost is 4.
    Row {
        items: &[At(-4), At(-1), PlusInf],
        base: 0,
        conjugate: (-2, 4),
        reversed: (4, 4),
    },
    // That of 1 ends at 4 alone, where the cost is 4.
    Row {
        items: &[MinusInf, At(1), At(4)],
        base: 0,
        conjugate: (3, 8),
        reversed: (-4, 4),
    },
];

fn compare(rt: &impl Abort, alloc: Global, row: &Row) -> Result<(), Fail> {
    let curve = Curve::of_list(alloc, row.items, row.base)?;
    let conjugate = Conjugate::of(&curve);
    let (flow, price) = row.conjugate;
    let priced = price_inside::<Conjugate<Curve>, Brand>(&conjugate, flow, Blank::new(1));
    assert_eq!(rt; priced, Some(price), "of the conjugate of {:?}", row.items);
    assert_eq!(rt; cost_inside(&conjugate, flow), Some(price));
    let reversed = Reversed::of(&curve);
    let (flow, price) = row.reversed;
    let priced = price_inside::<Reversed<Curve>, Brand>(&reversed, flow, Blank::new(1));
    assert_eq!(rt; priced, Some(price), "of the reversed {:?}", row.items);
    assert_eq!(rt; cost_inside(&reversed, flow), Some(price));
    Ok(())
}

#[test]
fn prices_of_views(rt: HostRuntime) -> Result<(), Fail> {
    for row in &ROWS {
        compare(&rt, rt.alloc(), row)?;
    }
    Ok(())
}

// ---- by calls

/// A curve that counts the calls at it.
#[derive(Drop)]
struct Watched<'a> {
    curve: &'a Curve,
    calls: &'a Cell<u64>,
}

impl Watched<'_> {
    fn count(&self) {
        self.calls.set(self.calls.get().saturating_add(1));
    }
}

impl Listed for Watched<'_> {
    ghost use Rattle.mono_curve.specs.CurveFacts.{short_list, small_base, small_conjugate_base};

    ghost listing = { λ w. w.curve.now.listing };

    ghost is_list = { λ w. w.curve.now.valid.is_list };

    ghost items_within = { λ w. w.curve.now.valid.items_within };

    ghost is_short = { λ w. short_list w.curve.now };

    ghost base_within = { λ w. small_base w.curve.now };

    ghost conjugate_base_within = { λ w. small_conjugate_base w.curve.now };

    fn len(&self) -> usize {
        self.count();
        Listed::len(self.curve)
    }

    fn item(&self, i: usize) -> Ext {
        self.count();
        self.curve.item(i)
    }

    fn base(&self) -> i128 {
        self.count();
        Listed::base(self.curve)
    }

    fn cost_here(&self, i: usize) -> i128 {
        self.count();
        self.curve.cost_here(i)
    }
}

fn cost_inside<C: Listed>(curve: &C, flow: i64) -> Option<i128> {
    let (low, high) = domain_of(curve);
    let small = -FLOW_MOST <= flow && flow <= FLOW_MOST;
    if small && is_between(low, high, flow) {
        Some(cost_at(curve, flow))
    } else {
        None
    }
}

fn dual_inside<C: Listed>(curve: &C, tension: i64) -> Option<i128> {
    let (low, high) = span_of(curve);
    let small = -FLOW_MOST <= tension && tension <= FLOW_MOST;
    if small && is_between(low, high, tension) {
        Some(dual_at(curve, tension))
    } else {
        None
    }
}

/// The list of 4,001 items from -2000 to 2000: walking over it takes thousands of calls.
#[test]
fn a_long_list_takes_few_calls(rt: HostRuntime) -> Result<(), Fail> {
    let mut items = Vec::new(rt.alloc());
    for number in -2000..2001 {
        items.push(At(number))?;
    }
    let curve = Curve::of_list(rt.alloc(), &items, 0)?;
    let calls = Cell::new(0);
    let watched = Watched {
        curve: &curve,
        calls: &calls,
    };
    assert_eq!(&rt; cost_inside(&watched, 0), Some(0));
    assert!(&rt; calls.get() <= 200, "{} calls for a cost", calls.get());
    calls.set(0);
    assert_eq!(&rt; dual_inside(&watched, 0), Some(0));
    assert!(&rt;
        calls.get() <= 200,
        "{} calls for a conjugate cost",
        calls.get()
    );
    Ok(())
}
