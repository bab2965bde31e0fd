// The quick start: a proposal of an optimal pair or of a negative cut, which nothing has to believe.
#![tactic(auto)]

mod feed;
mod fuel;
mod hanging;
mod lanes;
mod pivoting;
mod pricing;
mod resuming;
mod setting;
mod sketch;
mod tables;
mod tree;
mod waiting;
mod writing;

pub use fuel::fuel_of;
pub use sketch::{Proposal, Sketch};

#[cfg(test)]
mod tests;
