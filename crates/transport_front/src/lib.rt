//! Tables of plants, shops and lanes: reading one, the model that it stands for, and what a certificate of that model says.
#![tactic(auto)]

mod compiling;
mod entry;
mod fault;
mod pair;
mod pairs;
mod parts;
mod read;
mod table;
#[cfg(test)]
mod tests;
pub mod text_laws;
pub mod transport_laws;

pub use compiling::compile;
pub use fault::TableWord;
pub use pair::Pair;
pub use read::{TableError, read_table};
pub use table::{PAIRS_MOST, Table};
