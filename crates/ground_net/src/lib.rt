// The grounded network of a model: the ground and its arcs are added, so that a supply is a flow.
#![tactic(auto)]

mod build;
mod grounded;
mod pricing;

pub use build::ground;
pub use grounded::Grounded;
pub use pricing::total_cost;

#[cfg(test)]
mod tests;
