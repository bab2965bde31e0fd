// Whether a certificate stays under a change of one curve, and its number then. Only the changed arc is looked at.
ghost use Rattle.std.specs.Prelude.{◌≡◌, ◌≢◌, ℕ, ◌<◌, ℤ, length, IfSome, IfNone};
ghost use Rattle.theory.specs.Cut.{IsNegativeCut};
ghost use Rattle.theory.specs.Circuit.{step, IsNegativeCircuit};
ghost use Rattle.theory.specs.Certificate.{IsOptimalPair, Shows, IsValid, bare};
ghost use Rattle.theory.specs.Certificate.Certificate.{optimal, cut, circuit};
ghost use Rattle.theory.specs.Feasible.{IsFeasibleFlow};
ghost use Rattle.ground_net.specs.Ground.{replaced};
ghost use Rattle.cert_text.specs.Shown.{shown};
ghost use Rattle.warm_solve.specs.Renumbered.{with_number};

use crate::part::{crossing_part, moved, passing_part, sum_with};
use cert_text::Certificate;
use ground_net::Grounded;
use mono_curve::{Curve, cost_at, domain_of, on_curve};
use net_incidence::{ArcId, Step};
use theory::pricing::is_between;

/// The number of a certificate that was valid while the arc had the curve `before`, if it stays.
pub(crate) fn number_anew(
    g: &Grounded,
    arc: ArcId,
    before: &Curve,
    kept: &Certificate,
) -> Option<i128>
    requires there { arc.0 < length g.now.network.arcs }
    requires valid { IsValid (replaced g.now.network arc.0 before.now.listing) (shown kept.now) }
    ensures stays { IfSome result (λ number. IsValid g.now.network (with_number (shown kept.now) number)) }
    ensures goes { IfNone result (¬ Shows g.now.network (bare (shown kept.now))) }
{
    match kept {
        Certificate::Optimal { x, u, cost, .. } => {
            cost_anew(g, arc, before, x.as_slice(), u.as_slice(), *cost)
        }
        Certificate::Cut { side, capacity } => {
            capacity_anew(g, arc, before, side.as_slice(), *capacity)
        }
        Certificate::Circuit { x, walk, span } => {
            span_anew(g, arc, before, x.as_slice(), walk.as_slice(), *span)
        }
    }
}

/// The cost of a pair, if it is still optimal.
fn cost_anew(
    g: &Grounded,
    arc: ArcId,
    before: &Curve,
    x: &[i64],
    u: &[i64],
    cost: i128,
) -> Option<i128>
    requires there { arc.0 < length g.now.network.arcs }
    requires valid { (value : ℤ) × IsValid (replaced g.now.network arc.0 before.now.listing) (optimal x.now u.now cost value) }
    ensures stays { IfSome result (λ number. IsValid g.now.network (optimal x.now u.now number number)) }
    ensures goes { IfNone result (¬ IsOptimalPair g.now.network x.now u.now) }
{
    let flow = x[arc.0 as usize];
    if on_curve(g.curve(arc), flow, g.net().tension(u, arc)) {
        let now = cost_at(g.curve(arc), flow);
        Some(moved(cost, cost_at(before, flow), now))
    } else {
        None
    }
}

/// The capacity of a cut, if it is still negative.
fn capacity_anew(
    g: &Grounded,
    arc: ArcId,
    before: &Curve,
    side: &[bool],
    capacity: i128,
) -> Option<i128>
    requires there { arc.0 < length g.now.network.arcs }
    requires valid { IsValid (replaced g.now.network arc.0 before.now.listing) (cut side.now capacity) }
    ensures stays { IfSome result (λ number. IsValid g.now.network (cut side.now number)) }
    ensures goes { IfNone result (¬ IsNegativeCut g.now.network side.now) }
{
    let at_tail = side[g.net().from(arc).0 as usize];
    let at_head = side[g.net().to(arc).0 as usize];
    sum_with(
        capacity,
        crossing_part(before, at_tail, at_head),
        crossing_part(g.curve(arc), at_tail, at_head),
    )
}

/// The span of a circuit, if it is still negative and the flow feasible.
fn span_anew(
    g: &Grounded,
    arc: ArcId,
    before: &Curve,
    x: &[i64],
    walk: &[Step],
    span: i128,
) -> Option<i128>
    requires there { arc.0 < length g.now.network.arcs }
    requires valid { IsValid (replaced g.now.network arc.0 before.now.listing) (circuit x.now walk.now span) }
    ensures stays { IfSome result (λ number. IsValid g.now.network (circuit x.now walk.now number)) }
    ensures goes { IfNone result (¬ (IsFeasibleFlow 1 g.now.network x.now × IsNegativeCircuit g.now.network walk.now)) }
{
    let (low, high) = domain_of(g.curve(arc));
    if !is_between(low, high, x[arc.0 as usize]) {
        return None;
    }
    match step_over(walk, arc) {
        Some(k) => sum_with(
            span,
            passing_part(before, walk[k].forward),
            passing_part(g.curve(arc), walk[k].forward),
        ),
        None => Some(span),
    }
}

/// The place of the first step over the arc.
fn step_over(walk: &[Step], arc: ArcId) -> Option<usize>
    ensures there { IfSome result (λ k. k < length walk.now) }
    ensures over { IfSome result (λ k. (step walk.now k).arc.0 ≡ arc.0) }
    ensures none { IfNone result ((k : ℕ) → k < length walk.now → (step walk.now k).arc.0 ≢ arc.0) }
{
    for k in 0..walk.len() {
        if walk[k].arc == arc {
            return Some(k);
        }
    }
    None
}
