// Why there is no tableau, and why there is no pivot.
use thiserror::Error;

/// Why a tableau was not made.
#[derive(Clone, Copy, PartialEq, Eq, Debug, Error)]
pub enum TabFault {
    #[error("a network of too many nodes or arcs for its tableau")]
    TooBig,
    #[error("out of memory")]
    NoMemory,
}

/// A pivot on an entry that is 0.
#[derive(Clone, Copy, PartialEq, Eq, Debug, Error)]
#[error("the entry is 0")]
pub struct ZeroEntry;
