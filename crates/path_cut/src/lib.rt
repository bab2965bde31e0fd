// Greatest flow and greatest tension between two nodes, each with what shows that it is greatest or that none is.
#![tactic(auto)]

mod capacities;
mod drawing;
mod endless;
mod flow;
mod flow_found;
mod keeping;
pub mod laws;
mod raising;
mod returned;
mod tension;
mod tension_found;
mod tight;

pub use flow::{FlowTop, greatest_flow};
pub use flow_found::{FlowFound, flow_between};
pub use returned::{Returned, with_return};
pub use tension::{TensionTop, greatest_tension};
pub use tension_found::{TensionFound, tension_between};

#[cfg(test)]
mod tests;
