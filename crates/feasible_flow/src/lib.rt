// Feasible flows: a flow that is conserved and in all domains, or a negative cut. The method is that of augmenting paths, as
// for greatest flows (L. R. Ford and D. R. Fulkerson, Flows in Networks, 1962), for flows between bounds: while an arc's
// flow is outside its domain, a path of free steps closes a circuit over this arc, and flow is moved round it. The painted
// search is that of R. T. Rockafellar, Network Flows and Monotropic Optimization, 1984. The pass goes down level by level, as scaling
// methods do (J. Edmonds and R. M. Karp, Theoretical improvements in algorithmic efficiency for network flow problems, 1972): with the
// domains divided by a power of two at most a unit is lacking on each arc, and so again after each doubling.
#![tactic(auto)]

mod domains;
mod moving;
mod passing;
mod settling;
mod starting;

pub use domains::{distance, shade};
pub use moving::send_around;
pub use passing::{FlowAns, feasible_flow};

#[cfg(test)]
mod tests;
