// A whole solve: a draw and its test; else the two feasibility passes, then an optimal pair by cheapest routes from surplus to deficit.
#![tactic(auto)]

mod balancing;
mod bundle;
mod certifying;
mod clamp;
mod cut_test;
mod evidence;
mod feasible;
mod gaps;
mod heap;
mod judging;
mod kilter_test;
mod kind;
mod levels;
mod prepared;
mod routes;
mod solving;
mod spread;
mod words;

pub use balancing::{Balanced, balance};
pub use bundle::{Bundle, Plain};
pub use cut_test::is_negative_cut;
pub use feasible::{FeasibleParts, feasibility};
pub use gaps::close_gaps;
pub use kilter_test::is_in_kilter;
pub use kind::Kind;
pub use levels::Levels;
pub use prepared::{Prepared, prepare, resolve_in, solve_in};
pub use routes::{Routed, route};
pub use solving::{resolve_kept, solve, solve_kept};

#[cfg(test)]
mod counting_tests;
#[cfg(test)]
mod solve_tests;
#[cfg(test)]
mod tests;
