// A conserved flow as a sum of circuits, none of which goes against it.
#![tactic(auto)]

mod circuits;
mod laws;
mod list;
mod splitting;
mod walker;

pub use laws::sum_of_pieces;
pub use list::PieceList;
pub use splitting::{PieceFault, pieces};

#[cfg(test)]
mod tests;
