// The kinds of what a solve ends with.

/// What a solve ends with.
#[derive(Clone, Copy, PartialEq, Eq, Debug)]
pub enum Kind {
    /// A flow and a potential that are an optimal pair.
    Optimal,
    /// A negative cut: no flow is feasible.
    Cut,
    /// A feasible flow and a negative circuit: no plan is bounded.
    Circuit,
}
