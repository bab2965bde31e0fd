// A size and its price.

/// An amount that can be had at one price, and that price for each unit of it.
#[derive(Clone, Copy, PartialEq, Eq, Debug)]
pub struct Pair {
    pub size: u32,
    pub price: i64,
}
