// Why a list is no curve.
use thiserror::Error;

/// Why a list of items with a base makes no curve. Places are counted from 0.
#[derive(Clone, Copy, PartialEq, Eq, Debug, Error)]
pub enum CurveFault {
    #[error("a curve has an odd number of items")]
    Even,
    #[error("a list of too many items")]
    Long,
    #[error("item {0} may not be infinite")]
    Infinite(usize),
    /// The place of the item; the length where it is the base.
    #[error("item {0} is too large")]
    Magnitude(usize),
    #[error("item {0} is not greater than the item two places before it")]
    Order(usize),
    #[error("out of memory")]
    NoMemory,
}
