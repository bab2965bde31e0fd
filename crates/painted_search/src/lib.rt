// The working room of a solve, painters, and the search over free steps.
#![tactic(auto)]

mod grow;
mod layout;
mod painter;
mod searching;
mod trace;
mod words;
mod work;

pub use painter::Painter;
pub use searching::{Found, search};
pub use theory::Colour;
pub use work::Work;

#[cfg(test)]
mod tests;
