// Curves derived from a curve: each view borrows the curve and takes no memory.
#![tactic(auto)]

mod conjugate;
mod dual;
mod ends;
mod level;
mod reversed;
mod turned;
mod zero_cost;

pub use conjugate::Conjugate;
pub use dual::dual_at;
pub use level::Level;
pub use reversed::Reversed;
pub use zero_cost::ZeroCost;

#[cfg(test)]
mod price_tests;
#[cfg(test)]
mod tests;
