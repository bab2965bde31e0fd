// Numbers with the two infinities: what the items of a curve list are.

/// A whole number or an infinity: an end of a domain or span, a breakpoint, a slope.
/// The order is that of the variants, with the numbers by value.
#[derive(Clone, Copy, PartialEq, Eq, PartialOrd, Ord, Debug)]
pub enum Ext {
    MinusInf,
    At(i64),
    PlusInf,
}
