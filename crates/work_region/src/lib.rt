// One region of words, and the blocks that are carved from it.
#![tactic(auto)]

mod block;
mod region;

pub use block::Block;
pub use region::{REGION_MOST, Region};

#[cfg(test)]
mod tests;
