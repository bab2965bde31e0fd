// The verdicts.

use net_incidence::{ArcId, NodeId};

/// What is found of a certificate: that it is valid, or the first of its tests that fails.
#[derive(Clone, Copy, PartialEq, Eq, Debug)]
pub enum Judged {
    Accepted,
    /// What leaves this node isn't what enters it.
    NotConserved(NodeId),
    /// The flow of this arc and its tension are no pair of its curve.
    OffCurve(ArcId),
    /// The flow of this arc isn't in its domain.
    OutOfCapacity(ArcId),
    /// The number of the first bad step, counted from 1, or the number of steps plus 1 where the walk isn't closed.
    NotCircuit(u32),
    /// The first arc of the sum whose end is infinite.
    Endless(ArcId),
    WrongNumber { stated: i128, right: i128 },
    /// The sum is 0 or more.
    NotNegative,
}
