// The costs at the points of a list, as a curve keeps them. They are kept less the base: since points and slopes are
// within the limit, they fit in 64 bits then.
ghost use Rattle.std.specs.Prelude.{◌≡◌, ◌+◌, ◌*◌, ◌/◌, ◌<◌, pos, IfOk, length};
ghost use Rattle.theory.specs.Ends.{whole, IsFinite};
ghost use Rattle.theory.specs.CurveList.{IsCurveList, item};
ghost use Rattle.theory.specs.Cost.{cost, rise};
ghost use Rattle.theory.specs.PieceAt.{piece_at};
ghost use Rattle.theory.specs.Limits.{AreWithin, number_most, IsWithin};
ghost use Rattle.mono_curve.specs.PointCosts.{IsFinitePoint, AreKept, IsPriced, bare, point_cost};

use crate::piece_price::along;
use std::alloc::{AllocError, Global};
use theory::Ext;
use theory::pricing::{clip_to, domain_of, is_finite_end, rise_of, whole_of};

/// The longest list without kept costs: two pieces are added up as soon as a kept cost is found, and need no place in memory.
const SHORT: usize = 5;

/// The costs at all points, or none for a short list.
pub fn costs_of(alloc: Global, items: &[Ext]) -> Result<Vec<i64>, AllocError>
    requires list { IsCurveList items.now }
    requires within { AreWithin number_most items.now }
    ensures kept { IfOk result (λ costs. AreKept items.now costs.items) }
    ensures all { 5 < length items.now → IfOk result (λ costs. length costs.items ≡ length items.now / 2 + 1) }
{
    if items.len() <= SHORT {
        return Ok(Vec::new(alloc));
    }
    let mut costs = Vec::with_capacity(alloc, items.len() / 2 + 1)?;
    let mut here = first_flow(items);
    costs.push(here.price)?;
    for k in 0..items.len() / 2 {
        here = end_of_piece(items, k, here);
        costs.push(here.price)?;
    }
    Ok(costs)
}

/// The costs at all points, or none where there is no memory for them.
pub fn costs_if_room(alloc: Global, items: &[Ext]) -> Vec<i64>
    requires list { IsCurveList items.now }
    requires within { AreWithin number_most items.now }
    ensures { AreKept items.now result.items }
{
    match costs_of(alloc, items) {
        Ok(costs) => costs,
        Err(AllocError) => Vec::new(alloc),
    }
}

/// The cost at a finite point: the kept one, or where none is kept by all pieces.
pub fn cost_at_point(items: &[Ext], costs: &[i64], i: usize) -> i64
    requires list { IsCurveList items.now }
    requires within { AreWithin number_most items.now }
    requires kept { AreKept items.now costs.now }
    requires point { IsFinitePoint items.now i }
    ensures { result ≡ point_cost (bare items.now) i }
{
    if i / 2 < costs.len() {
        costs[i / 2]
    } else {
        cost_of(items, whole_of(items[i]))
    }
}

// ---- from point to point

/// A flow of the domain and its cost.
#[derive(Clone, Copy)]
struct Priced {
    flow: i64,
    price: i64,
}

/// The first finite point, or 0 where there is none.
fn first_flow(items: &[Ext]) -> Priced
    requires list { IsCurveList items.now }
    requires within { AreWithin number_most items.now }
    ensures priced { IsPriced items.now 0 result.flow result.price }
    ensures flow_within { IsWithin number_most result.flow }
    ensures at_point { IsFinite (item items.now 0) → result.flow ≡ whole (item items.now 0) }
{
    let flow = if is_finite_end(items[0]) {
        whole_of(items[0])
    } else {
        whole_of(items[2])
    };
    Priced {
        flow,
        price: cost_of(items, flow),
    }
}

/// From a flow on piece `k` to its right end, where that is finite.
fn end_of_piece(items: &[Ext], k: usize, here: Priced) -> Priced
    requires list { IsCurveList items.now }
    requires within { AreWithin number_most items.now }
    requires piece { k < length items.now / 2 }
    requires priced { IsPriced items.now k here.flow here.price }
    requires flow_within { IsWithin number_most here.flow }
    ensures priced { IsPriced items.now (k + 1) result.flow result.price }
    ensures flow_within { IsWithin number_most result.flow }
    ensures at_point { IsFinite (item items.now (2 * (k + 1))) → result.flow ≡ whole (item items.now (2 * (k + 1))) }
{
    if !is_finite_end(items[2 * k + 2]) {
        return here;
    }
    let flow = whole_of(items[2 * k + 2]);
    let slope = whole_of(items[2 * k + 1]);
    let price = along(i128::from(here.price), slope, here.flow, flow);
    Priced {
        flow,
        price: narrowed(price),
    }
}

// ---- by all pieces

/// The cost of the flow `x` less the base.
fn cost_of(items: &[Ext], x: i64) -> i64
    requires list { IsCurveList items.now }
    requires within { AreWithin number_most items.now }
    requires flow_within { IsWithin number_most x }
    ensures { result ≡ cost 1 (bare items.now) x }
{
    narrowed(cost_by_pieces(items, x))
}

fn cost_by_pieces(items: &[Ext], x: i64) -> i128
    requires list { IsCurveList items.now }
    requires within { AreWithin number_most items.now }
    requires flow_within { IsWithin number_most x }
    ensures { result ≡ cost 1 (bare items.now) x }
{
    let (low, high) = domain_of(items);
    let rest = clip_to(low, high, 0);
    let mut total: i128 = 0;
    for k in 0..items.len() / 2 {
        total += rise_at(items, k, rest, x);
    }
    total
}

fn rise_at(items: &[Ext], k: usize, from: i64, to: i64) -> i128
    requires list { IsCurveList items.now }
    requires piece { k < length items.now / 2 }
    requires within { AreWithin number_most items.now }
    ensures { result ≡ rise 1 from to (piece_at items.now k) }
{
    rise_of(items[2 * k], items[2 * k + 1], items[2 * k + 2], from, to)
}

/// A cost less the base, in 64 bits.
fn narrowed(cost: i128) -> i64
    requires { IsWithin (number_most * (2 * number_most)) cost }
    ensures { result ≡ cost }
{
    cost as i64
}
