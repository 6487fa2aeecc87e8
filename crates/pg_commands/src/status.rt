//! The exit status of the program.

ghost use Rattle.std.specs.Prelude.{◌≡◌};
ghost use Rattle.pg_commands.specs.Statuses.{status_code};

/// How the program ended.
#[derive(Clone, Copy, Debug, PartialEq, Eq)]
pub enum Status {
    /// The whole text was written.
    Done,
    /// The words are no command.
    Usage,
    /// The program text is refused. The line that says why was written.
    ProgramRefused,
    /// The shelf failed.
    ShelfFault,
    /// The source failed.
    ReadFault,
    /// The sink failed.
    WriteFault,
    /// The source has more bytes than a session takes.
    InputLimit,
    /// There was no memory.
    OutOfMemory,
    /// The book is refused. The line that says why was written.
    BookRefused,
}

impl Status {
    /// The exit status of the process.
    pub fn code(self) -> u8
        ensures code { result ≡ status_code self }
    {
        match self {
            Status::Done => 0,
            Status::Usage => 2,
            Status::ProgramRefused => 3,
            Status::ShelfFault => 4,
            Status::ReadFault => 5,
            Status::WriteFault => 6,
            Status::InputLimit => 7,
            Status::OutOfMemory => 8,
            Status::BookRefused => 9,
        }
    }
}
