// Curves: convex piecewise-linear costs, read flow by flow and tension by tension.
#![tactic(auto)]

mod curve;
mod fault;
mod faults;
mod halving;
mod kept;
mod limits;
mod listed;
mod looked;
mod monotone;
mod piece_price;
mod pricing;
pub mod reading_laws;
mod steps;

pub use curve::{Curve, to_curve};
pub use fault::CurveFault;
pub use limits::{ARG_MOST, BASE_MOST, FLOW_MOST, ITEMS_MOST, LEVELS, NUMBER_MOST};
pub use listed::Listed;
pub use looked::{Looked, Uncounted};
pub use monotone::Monotone;
pub use piece_price::{count_below, price};
pub use pricing::{cost_at, domain_of, on_curve, span_of};
pub use steps::Steps;
pub use theory::Ext;

#[cfg(test)]
mod tests;
