// The tableau of a spanning tree of a grounded network (Rockafellar: Tucker tableau), its pivots, and the pivots that
// bring the model's arcs into the tree.
#![tactic(auto)]

mod entries;
mod examples;
mod fault;
mod first;
mod lead;
mod pivot;
mod places;
mod tableau;

pub use fault::{TabFault, ZeroEntry};
pub use tableau::Tableau;
