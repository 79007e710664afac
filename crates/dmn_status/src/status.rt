//! How the program ends.

/// How the program ends.
#[derive(Clone, Copy, Debug, PartialEq, Eq)]
pub enum Status {
    /// The input was read to its end, and all that it asks for was done or answered; or the whole text was sent.
    Done,
    /// The words are in no form.
    Words,
    /// There was no memory to start.
    Memory,
    /// The disk failed.
    DiskFault,
    /// The line failed.
    LineFault,
    /// File 0 is no journal image: its first field that departs begins at this byte.
    NotJournal { at: u64 },
    /// The input is no start record: its first field that departs begins at this byte.
    StartForm { at: usize },
    /// The input ended within a frame.
    CutInput,
    /// As many frames were answered as one run answers.
    Enough,
    /// File 0 has two bytes or more, and the first of them is 1.
    AlreadyInit,
}

impl Status {
    ghost use Rattle.std.specs.Prelude.{◌≡◌};
    ghost use Rattle.dmn_status.specs.Codes.{code_of};

    /// The number with which the process ends.
    pub fn code(&self) -> u8
        ensures { result ≡ code_of self.now }
    {
        match self {
            Status::Done => 0,
            Status::Words => 2,
            Status::Memory => 3,
            Status::DiskFault => 4,
            Status::LineFault => 5,
            Status::NotJournal { at: _ } => 6,
            Status::StartForm { at: _ } => 6,
            Status::CutInput => 7,
            Status::Enough => 8,
            Status::AlreadyInit => 9,
        }
    }
}
