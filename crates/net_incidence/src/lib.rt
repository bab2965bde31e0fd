// Networks by their incidence lists, with the lists of flows, marks and steps that belong to them.
#![tactic(auto)]

mod circuit;
mod flow;
mod incidence;
mod laws;
mod lists;
mod net;
mod sums;

pub use lists::{Flows, Marks, Walk};
pub use net::{Net, NetFault};
pub use sums::Sum;
pub use theory::{Arc, ArcId, NodeId, Step};

#[cfg(test)]
mod tests;
