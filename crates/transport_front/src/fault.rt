// What can be wrong with a line of a table.

/// The word for the first test that a line fails. The tests are made in this order; docs/FORMATS.md has them.
#[derive(Clone, Copy, PartialEq, Eq, Debug)]
pub enum TableWord {
    Utf8,
    Header,
    Keyword,
    Name,
    Number,
    Limit,
    Order,
    Twice,
    Unknown,
}

/// Why a line was not read.
#[derive(Clone, Copy, PartialEq, Eq)]
pub(crate) enum Refusal {
    Fault(TableWord),
    NoMemory,
}
