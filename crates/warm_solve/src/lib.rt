//! A solution that is kept while single curves of its network change, and the text that lists such changes.
#![tactic(auto)]

mod anew;
mod change_line;
mod changes;
pub mod changes_laws;
mod kind;
mod part;
mod reading;
mod warm;

pub use changes::{CHANGES_MOST, Change, Changes};
pub use kind::Kind;
pub use reading::{ChangesError, read_changes};
pub use warm::Warm;

#[cfg(test)]
mod changes_tests;
#[cfg(test)]
mod tests;
