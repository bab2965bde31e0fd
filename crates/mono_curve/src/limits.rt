// Limits of the numbers of a curve.

/// The greatest magnitude of a point and of a slope.
pub const NUMBER_MOST: i64 = 1_000_000_000;

/// The greatest magnitude of a base.
pub const BASE_MOST: i128 = 1_000_000_000_000_000_000_000_000;

/// The greatest magnitude of a flow in a certificate. Costs are priced up to twice that.
pub const FLOW_MOST: i64 = 1_000_000_000_000_000;

/// The greatest magnitude of a flow or a tension that a curve is read at.
pub const ARG_MOST: i64 = 1 << 62;

/// The number of the top level.
pub const LEVELS: u32 = 30;

/// The most items of a curve's list: those of a model's list, and one more at either end, as the
/// conjugate may have.
pub const ITEMS_MOST: usize = 4_003;
