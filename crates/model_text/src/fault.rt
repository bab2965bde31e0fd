// What can be wrong with a line of a model text.

/// The word for the first test that a line fails. The tests are made in this order; docs/FORMATS.md has them.
#[derive(Clone, Copy, PartialEq, Eq, Debug)]
pub enum FaultWord {
    Utf8,
    Header,
    Keyword,
    Name,
    Number,
    Limit,
    Shape,
    Order,
    Twice,
    Unknown,
    Loop,
}

/// Why a line, or a part of one, was not read.
#[derive(Clone, Copy, PartialEq, Eq, Debug)]
pub enum PartFault {
    Word(FaultWord),
    NoMemory,
}
