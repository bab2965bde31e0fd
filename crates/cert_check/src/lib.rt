// The verdict on a certificate, from anywhere: valid, or the first test that fails.
#![tactic(auto)]

mod judged;
mod kinds;
mod pricing;
mod scan;
mod tensions;
mod verdict_laws;

pub use judged::Judged;
pub use kinds::verdict;
pub use verdict_laws::one_verdict;

#[cfg(test)]
mod tests;
