// How a call ended, and the exit code that says so.
ghost use Rattle.std.specs.Prelude.{◌≡◌};
ghost use Rattle.mono_top.specs.Status.{code_of};

use model_text::FaultWord;
use transport_front::TableWord;

#[derive(Clone, Copy, PartialEq, Eq, Debug)]
pub enum Status {
    Done,
    Cut,
    Circuit,
    /// The second file is not the text of a valid certificate of the model.
    Rejected,
    Usage,
    /// The first bad line of the model text, counted from 1, and the word for its first fault.
    ModelRefused { line: u32, word: FaultWord },
    Missing,
    ReadFault,
    WriteFault,
    NoMemory,
    TooLong,
    /// The network is too big for the command.
    TooBig,
    UnknownArc,
    /// A number of the model isn't whole at the scale that was asked for, or too great.
    NotConverted,
    /// The certificate is valid, and there is no flow in it.
    NoFlow,
    /// There are feasible flows, or potentials, and none is greatest.
    Unbounded,
    UnknownNode,
    /// The first bad line of the table, counted from 1, and the word for its first fault.
    TableRefused { line: u32, word: TableWord },
    /// The first bad line of the changes text, counted from 1, and the word for its first fault.
    ChangesRefused { line: u32, word: FaultWord },
}

impl Status {
    /// The exit code of the program.
    pub fn code(&self) -> u8
        ensures { result ≡ code_of self.now }
    {
        match self {
            Status::Done => 0,
            Status::Cut => 1,
            Status::Circuit => 2,
            Status::Rejected => 3,
            Status::Usage => 4,
            Status::ModelRefused { .. } => 5,
            Status::Missing => 6,
            Status::ReadFault => 7,
            Status::WriteFault => 8,
            Status::NoMemory => 9,
            Status::TooLong => 10,
            Status::TooBig => 11,
            Status::UnknownArc => 12,
            Status::NotConverted => 14,
            Status::NoFlow => 15,
            Status::Unbounded => 16,
            Status::UnknownNode => 17,
            Status::TableRefused { .. } => 18,
            Status::ChangesRefused { .. } => 19,
        }
    }
}
