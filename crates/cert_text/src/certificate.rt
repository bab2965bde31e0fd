// The certificate that a solve ends with.

use net_incidence::{Flows, Marks, Walk};

/// The greatest magnitude of a cost, a value, a capacity or a span.
pub const SUM_MOST: i128 = 1_000_000_000_000_000_000_000_000_000_000;

/// The evidence of an answer and its numbers. `x` is by grounded arc, `u` and `side` are by grounded node.
#[derive(Drop)]
pub enum Certificate {
    /// A flow with a potential, every pair on its curve: the plan is optimal.
    Optimal {
        x: Flows,
        u: Flows,
        cost: i128,
        value: i128,
    },
    /// A set of nodes with a capacity below 0: there is no feasible flow.
    Cut {
        side: Marks,
        capacity: i128,
    },
    /// A feasible flow with a circuit whose span is below 0: no plan is bounded.
    Circuit {
        x: Flows,
        walk: Walk,
        span: i128,
    },
}
