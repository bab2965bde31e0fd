//! Trial models: one for each number, drawn by a generator, every one the same wherever it is made.
#![tactic(auto)]

mod chords;
mod draws;
mod entries;
mod making;
mod nodes;
mod ring;
#[cfg(test)]
mod tests;
pub mod trial_laws;

pub use making::trial;
