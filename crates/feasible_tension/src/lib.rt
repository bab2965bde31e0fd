// The second pass of a solve: a feasible potential, or a negative circuit that refuses every tension. The method is that of
// R. Bellman (On a routing problem, 1958) and L. R. Ford, with the alternating sweeps of J. Y. Yen (An algorithm for finding
// shortest routes from all source nodes to a given destination in general networks, 1970): the upper end of an arc's span is
// the length of the step over it, the negated lower end that of the step back.
#![tactic(auto)]

mod circuit;
mod passing;
mod relaxing;

pub use passing::{TensionAns, feasible_tension};

#[cfg(test)]
mod tests;
