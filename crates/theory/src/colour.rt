// The colours of a painted network, which say how an arc may be passed.

/// How an arc may be passed: both ways, forward only, backward only, not at all.
#[derive(Clone, Copy, PartialEq, Eq, Debug)]
pub enum Colour {
    Green,
    White,
    Black,
    Red,
}
