// Moving flow along steps.
ghost use Rattle.std.specs.Prelude.{◌≡◌, ℕ, ◌*◌, ◌^◌, ◌<◌, ◌≤◌, pos, ◌+ℤ◌, FitsSigned, ◌∷◌, length};
ghost use Rattle.std.specs.Int.{w64};
ghost use Rattle.theory.specs.Limits.{IsWithin};
ghost use Rattle.theory.specs.Network.{«at»};
ghost use Rattle.theory.specs.Circuit.{step as step_of};
ghost use Rattle.theory.specs.Sent.{sends, sent, sent_round};
ghost use Rattle.painted_search.specs.Writes.{with_flow};
ghost use Rattle.feasible_flow.specs.Violations.{movable_most, AreNear};
ghost use Rattle.feasible_flow.specs.UnderWay.{ArcsDiffer, IsSameButFlows};
ghost use Rattle.feasible_flow.specs.ByLevels.{IsDoubled};

use net_incidence::{ArcId, Step};
use painted_search::Work;

/// Every flow becomes 0.
pub(crate) fn clear_flows(work: &mut Work)
    ensures zero { (j : ℕ) → «at» work.new.flows j ≡ pos 0 }
    ensures same { IsSameButFlows work.old work.new }
{
    for j in 0..work.arcs() {
        work.set_flow(ArcId(j as u32), 0);
    }
}

/// Every flow becomes twice as great.
pub(crate) fn double_flows(work: &mut Work)
    requires { AreNear movable_most work.old.flows }
    ensures { IsDoubled work.old work.new }
{
    for j in 0..work.arcs() {
        let arc = ArcId(j as u32);
        let flow = work.flow(arc);
        work.set_flow(arc, 2 * flow);
    }
}

/// Moves the amount over the step and along the walk.
pub fn send_around(work: &mut Work, step: Step, amount: u64)
    requires step_there { step.arc.0 < work.old.arcs }
    requires walk_there { (k : ℕ) → k < length work.old.walk → (step_of work.old.walk k).arc.0 < work.old.arcs }
    requires arcs_differ { ArcsDiffer (step ∷ work.old.walk) }
    requires near { AreNear movable_most work.old.flows }
    requires amount_near { amount ≤ movable_most }
    ensures flows { work.new.flows ≡ sent_round amount (step ∷ work.old.walk) work.old.flows }
    ensures same { IsSameButFlows work.old work.new }
{
    send(work, step, amount);
    send_along(work, amount);
}

/// Moves the amount along the walk.
fn send_along(work: &mut Work, amount: u64)
    requires there { (k : ℕ) → k < length work.old.walk → (step_of work.old.walk k).arc.0 < work.old.arcs }
    requires arcs_differ { ArcsDiffer work.old.walk }
    requires near { (k : ℕ) → k < length work.old.walk → IsWithin movable_most («at» work.old.flows (step_of work.old.walk k).arc.0) }
    requires amount_near { amount ≤ movable_most }
    ensures flows { work.new.flows ≡ sent_round amount work.old.walk work.old.flows }
    ensures same { IsSameButFlows work.old work.new }
{
    for k in 0..work.walk_len() {
        let step = work.walk_step(k);
        send(work, step, amount);
    }
}

/// Moves the amount over the step's arc, in the direction of the step.
fn send(work: &mut Work, step: Step, amount: u64)
    requires there { step.arc.0 < work.old.arcs }
    requires small { amount < 2 ^ 63 }
    requires fits { FitsSigned w64 («at» work.old.flows step.arc.0 +ℤ sends amount step.forward) }
    ensures { work.new ≡ with_flow work.old step.arc.0 («at» work.old.flows step.arc.0 +ℤ sends amount step.forward) }
{
    let flow = work.flow(step.arc);
    let amount = amount as i64;
    let moved = if step.forward {
        flow + amount
    } else {
        flow - amount
    };
    work.set_flow(step.arc, moved);
}
