// Views of curves worked by hand: their lists and bases, the conjugate cost, and readings.
ghost use Rattle.std.specs.Prelude.{◌≡◌, ◌<◌, ◌≤◌};
ghost use Rattle.theory.specs.Limits.{arg_most, IsWithin};
ghost use Rattle.curve_views.specs.Levels.{coarsest};

use crate::{Conjugate, Level, Reversed, ZeroCost, dual_at};
use mono_curve::{Curve, Listed, Monotone, Steps, span_of};
use std::alloc::{AllocError, Global};
use std::marker::Brand;
use std::process::Abort;
use std::sync::ledger::{Blank, Ledger};
use std::test::Fail;
use theory::Ext::{self, At, MinusInf, PlusInf};
use theory::pricing::is_between;

/// A curve with the lists of its conjugate and its reversed curve, and a tension with its conjugate
/// cost.
struct Row {
    items: &'static [Ext],
    base: i128,
    conjugate: &'static [Ext],
    conjugate_base: i128,
    reversed: &'static [Ext],
    tension: i64,
    dual: Option<i128>,
}

const ROWS: [Row; 6] = [
    Row {
        items: &[At(0), At(2), At(4), At(5), At(10)],
        base: 0,
        conjugate: &[MinusInf, At(0), At(2), At(4), At(5), At(10), PlusInf],
        conjugate_base: 0,
        reversed: &[At(-10), At(-5), At(-4), At(-2), At(0)],
        tension: 5,
        dual: Some(12),
    },
    Row {
        items: &[At(5)],
        base: 7,
        conjugate: &[MinusInf, At(5), PlusInf],
        conjugate_base: -7,
        reversed: &[At(-5)],
        tension: -3,
        dual: Some(-22),
    },
    Row {
        items: &[At(-4), At(-1), PlusInf],
        base: 0,
        conjugate: &[MinusInf, At(-4), At(-1)],
        conjugate_base: 0,
        reversed: &[MinusInf, At(1), At(4)],
        tension: -2,
        dual: Some(4),
    },
    Row {
        items: &[MinusInf, At(3), PlusInf],
        base: 0,
        conjugate: &[At(3)],
        conjugate_base: 0,
        reversed: &[MinusInf, At(-3), PlusInf],
        tension: 2,
        dual: None,
    },
    Row {
        items: &[At(2), At(3), At(6)],
        base: 10,
        conjugate: &[MinusInf, At(2), At(3), At(6), PlusInf],
        conjugate_base: -10,
        reversed: &[At(-6), At(-3), At(-2)],
        tension: 4,
        dual: Some(2),
    },
    Row {
        items: &[At(-5), At(1), At(-3), At(2), At(7)],
        base: 0,
        conjugate: &[MinusInf, At(-5), At(1), At(-3), At(2), At(7), PlusInf],
        conjugate_base: 8,
        reversed: &[At(-7), At(-2), At(3), At(-1), At(5)],
        tension: 2,
        dual: Some(0),
    },
];

fn list_of<C: Listed>(alloc: Global, curve: &C) -> Result<Vec<Ext>, AllocError> {
    let mut items = Vec::new(alloc);
    for k in 0..curve.len() {
        items.push(curve.item(k))?;
    }
    Ok(items)
}

fn dual_inside<C: Listed>(curve: &C, tension: i64) -> Option<i128> {
    let (low, high) = span_of(curve);
    let small = -1_000 <= tension && tension <= 1_000;
    if small && is_between(low, high, tension) {
        Some(dual_at(curve, tension))
    } else {
        None
    }
}

#[test]
fn worked_views(rt: HostRuntime) -> Result<(), Fail> {
    for row in &ROWS {
        compare(&rt, rt.alloc(), row)?;
    }
    Ok(())
}

fn compare(rt: &impl Abort, alloc: Global, row: &Row) -> Result<(), Fail> {
    let curve = Curve::of_list(alloc, row.items, row.base)?;
    let conjugate = Conjugate::of(&curve);
    let reversed = Reversed::of(&curve);
    assert_eq!(rt; list_of(alloc, &conjugate)?.as_slice(), row.conjugate);
    assert_eq!(rt; conjugate.base(), row.conjugate_base);
    assert_eq!(rt; list_of(alloc, &reversed)?.as_slice(), row.reversed);
    assert_eq!(rt; reversed.base(), row.base);
    assert_eq!(rt;
        list_of(alloc, &Conjugate::of(&conjugate))?.as_slice(),
        row.items
    );
    assert_eq!(rt; Conjugate::of(&conjugate).base(), row.base);
    assert_eq!(rt; dual_inside(&curve, row.tension), row.dual);
    Ok(())
}

#[derive(Clone, Copy, PartialEq, Eq, Debug)]
struct Readings {
    domain: (Ext, Ext),
    span: (Ext, Ext),
    slopes: (Ext, Ext),
    range: (Ext, Ext),
}

/// All readings at a flow and a tension.
fn readings_of<C: Monotone, L: Ledger>(curve: &C, flow: i64, tension: i64, blank: Blank) -> Readings
    requires name { blank.name ≡ L.name }
    requires parts { blank.parts ≡ L.parts }
    requires some { 0 < blank.parts }
    requires flow { IsWithin arg_most flow }
    requires tension { IsWithin arg_most tension }
{
    let mut steps = Steps::<L>::open(blank);
    Readings {
        domain: curve.domain(&mut steps),
        span: curve.span(&mut steps),
        slopes: curve.slopes_at(flow, &mut steps),
        range: curve.range_at(tension, &mut steps),
    }
}

const EVERYWHERE: (Ext, Ext) = (MinusInf, PlusInf);

#[test]
fn conjugate_readings(rt: HostRuntime) -> Result<(), Fail> {
    let items = [At(0), At(2), At(4), At(5), At(10)];
    let curve = Curve::of_list(rt.alloc(), &items, 0)?;
    let conjugate = Conjugate::of(&curve);
    let read = readings_of::<Conjugate<Curve>, Brand>(&conjugate, 5, 4, Blank::new(1));
    let want = Readings {
        domain: EVERYWHERE,
        span: (At(0), At(10)),
        slopes: (At(4), At(10)),
        range: (At(2), At(5)),
    };
    assert_eq!(rt; read, want);
    Ok(())
}

#[test]
fn reversed_readings(rt: HostRuntime) -> Result<(), Fail> {
    let items = [At(0), At(2), At(4), At(5), At(10)];
    let curve = Curve::of_list(rt.alloc(), &items, 0)?;
    let reversed = Reversed::of(&curve);
    let read = readings_of::<Reversed<Curve>, Brand>(&reversed, -4, -2, Blank::new(1));
    let want = Readings {
        domain: (At(-10), At(0)),
        span: EVERYWHERE,
        slopes: (At(-5), At(-2)),
        range: (At(-4), At(0)),
    };
    assert_eq!(rt; read, want);
    Ok(())
}

/// The zero-cost list of `0 2 4 5 10` is `0 0 10`.
#[test]
fn zero_cost_readings(rt: HostRuntime) -> Result<(), Fail> {
    let items = [At(0), At(2), At(4), At(5), At(10)];
    let curve = Curve::of_list(rt.alloc(), &items, 0)?;
    let flat = ZeroCost::of(&curve);
    let read = readings_of::<ZeroCost<Curve>, Brand>(&flat, 10, 0, Blank::new(1));
    let want = Readings {
        domain: (At(0), At(10)),
        span: EVERYWHERE,
        slopes: (At(0), PlusInf),
        range: (At(0), At(10)),
    };
    assert_eq!(rt; read, want);
    Ok(())
}

/// The readings of a curve at level `k` at a flow and a tension.
fn compare_level(
    rt: &impl Abort,
    alloc: Global,
    items: &[Ext],
    k: u32,
    at: (i64, i64),
    want: Readings,
) -> Result<(), Fail>
    requires few { k ≤ coarsest }
    requires flow { IsWithin arg_most at.0 }
    requires tension { IsWithin arg_most at.1 }
{
    let curve = Curve::of_list(alloc, items, 0)?;
    let level = Level::of(&curve, k);
    let read = readings_of::<Level<Curve>, Brand>(&level, at.0, at.1, Blank::new(1));
    assert_eq!(rt; read, want);
    Ok(())
}

/// The levels are `0 2 1 5 3`, `0 5 2` without the piece that became a point, and `0 5 1`.
#[test]
fn level_readings(rt: HostRuntime) -> Result<(), Fail> {
    let items = [At(0), At(2), At(4), At(5), At(10)];
    let level_2 = Readings {
        domain: (At(0), At(3)),
        span: EVERYWHERE,
        slopes: (At(2), At(5)),
        range: (At(1), At(3)),
    };
    compare_level(&rt, rt.alloc(), &items, 2, (1, 5), level_2)?;
    let level_3 = Readings {
        domain: (At(0), At(2)),
        span: EVERYWHERE,
        slopes: (MinusInf, At(5)),
        range: (At(0), At(0)),
    };
    compare_level(&rt, rt.alloc(), &items, 3, (0, 2), level_3)?;
    let level_40 = Readings {
        domain: (At(0), At(1)),
        span: EVERYWHERE,
        slopes: (PlusInf, PlusInf),
        range: (At(0), At(1)),
    };
    compare_level(&rt, rt.alloc(), &items, 40, (1 << 62, 5), level_40)
}

/// A single point `5` is `0 0 1` at level 3; `-5 1 -3 2 7` is `-2 1 -1 2 2` at level 2, and
/// `-4 -1 inf` is `-2 -1 inf` at level 1.
#[test]
fn level_readings_of_other_lists(rt: HostRuntime) -> Result<(), Fail> {
    let point = Readings {
        domain: (At(0), At(1)),
        span: EVERYWHERE,
        slopes: (MinusInf, At(0)),
        range: (At(0), At(1)),
    };
    compare_level(&rt, rt.alloc(), &[At(5)], 3, (0, 0), point)?;
    let uneven = Readings {
        domain: (At(-2), At(2)),
        span: EVERYWHERE,
        slopes: (At(1), At(2)),
        range: (At(-1), At(2)),
    };
    let items = [At(-5), At(1), At(-3), At(2), At(7)];
    compare_level(&rt, rt.alloc(), &items, 2, (-1, 2), uneven)?;
    let half_line = Readings {
        domain: (At(-2), PlusInf),
        span: (MinusInf, At(-1)),
        slopes: (MinusInf, MinusInf),
        range: (At(-2), PlusInf),
    };
    compare_level(
        &rt,
        rt.alloc(),
        &[At(-4), At(-1), PlusInf],
        1,
        (-3, -1),
        half_line,
    )
}
