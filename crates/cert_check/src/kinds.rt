// The verdict on a certificate, by its kind.
ghost use Rattle.std.specs.Prelude.{◌≡◌, ◌↔◌, length};
ghost use Rattle.theory.specs.Certificate.{AreNumbers, IsPotentialOf, IsWalkOf, Fits, IsValid};
ghost use Rattle.cert_text.specs.Shown.{shown};
ghost use Rattle.cert_check.specs.Verdict.{OnPair, OnCut, OnCircuit, IsVerdict};
ghost use Rattle.cert_check.specs.SumVerdict.{OnSum};

use crate::judged::Judged;
use crate::pricing::total_value;
use crate::scan::{first_off_curve, first_out_of_capacity, first_unbalanced};
use cert_text::Certificate;
use ground_net::{Grounded, total_cost};
use net_incidence::{Step, Sum};

/// Tests the certificate from its parts alone, whoever made it. It takes no memory. Beside `is_circuit` it costs a fixed
/// number of passes over the nodes, the arcs and the lists of their curves.
pub fn verdict(g: &Grounded, c: &Certificate) -> Judged
    requires { Fits g.now.network (shown c.now) }
    ensures first { IsVerdict g.now.network (shown c.now) result }
    ensures accepted { result ≡ Judged.Accepted ↔ IsValid g.now.network (shown c.now) }
{
    match c {
        Certificate::Optimal { x, u, cost, value } => {
            judge_pair(g, x.as_slice(), u.as_slice(), *cost, *value)
        }
        Certificate::Cut { side, capacity } => judge_cut(g, side.as_slice(), *capacity),
        Certificate::Circuit { x, walk, span } => {
            judge_circuit(g, x.as_slice(), walk.as_slice(), *span)
        }
    }
}

/// A flow with a potential.
fn judge_pair(g: &Grounded, x: &[i64], u: &[i64], cost: i128, value: i128) -> Judged
    requires flows { AreNumbers (length g.now.network.arcs) x.now }
    requires potentials { IsPotentialOf g.now.network u.now }
    ensures { OnPair g.now.network x.now u.now cost value result }
{
    if let Some(node) = first_unbalanced(g, x) {
        return Judged::NotConserved(node);
    }
    if let Some(arc) = first_off_curve(g, x, u) {
        return Judged::OffCurve(arc);
    }
    let right = total_cost(g, x);
    if cost != right {
        return Judged::WrongNumber {
            stated: cost,
            right,
        };
    }
    let right = total_value(g, u);
    if value != right {
        return Judged::WrongNumber {
            stated: value,
            right,
        };
    }
    Judged::Accepted
}

/// A set of nodes.
fn judge_cut(g: &Grounded, side: &[bool], capacity: i128) -> Judged
    requires { length side.now ≡ g.now.network.nodes }
    ensures { OnCut g.now.network side.now capacity result }
{
    judge_sum(g.net().cut_sum(g.curves(), side), capacity)
}

/// A flow with a walk.
fn judge_circuit(g: &Grounded, x: &[i64], walk: &[Step], span: i128) -> Judged
    requires flows { AreNumbers (length g.now.network.arcs) x.now }
    requires steps { IsWalkOf g.now.network walk.now }
    ensures { OnCircuit g.now.network x.now walk.now span result }
{
    if let Some(node) = first_unbalanced(g, x) {
        return Judged::NotConserved(node);
    }
    if let Some(arc) = first_out_of_capacity(g, x) {
        return Judged::OutOfCapacity(arc);
    }
    if let Some(number) = g.net().is_circuit(walk) {
        return Judged::NotCircuit(number);
    }
    judge_sum(g.net().circuit_sum(g.curves(), walk), span)
}

/// A sum that is to be the stated number, and below 0.
fn judge_sum(sum: Sum, stated: i128) -> Judged
    ensures { OnSum sum stated result }
{
    match sum {
        Sum::Endless(arc) => Judged::Endless(arc),
        Sum::Whole(right) if stated != right => Judged::WrongNumber { stated, right },
        Sum::Whole(right) if right >= 0 => Judged::NotNegative,
        Sum::Whole(_) => Judged::Accepted,
    }
}
