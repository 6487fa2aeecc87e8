//! The commands, with their values.

/// How a line that no entry admits is recorded.
#[derive(Clone, Copy, Debug, PartialEq, Eq)]
pub enum RecordingWay {
    /// In rotation, with so many steps of a thread's turn, from 1 to `pg_num::limits::QUANTUM_LIMIT`.
    Rotating(u32),
    /// By host threads, in the order in which they come to it.
    Free,
    /// In an order of threads that a generator with this seed picks.
    Seeded(u64),
}

/// The command `once`: one run in rotation, with this quantum, on these numbers.
#[derive(Drop)]
pub struct Once {
    /// The steps of a thread's turn, from 1 to `pg_num::limits::QUANTUM_LIMIT`.
    pub quantum: u32,
    /// The numbers of the run, at most `pg_num::limits::NUMBERS_LIMIT` of them.
    pub numbers: Vec<i64>,
}

/// The command `serve`: a session of a program.
#[derive(Drop)]
pub struct Serve {
    /// The name of the program's text.
    pub file: String,
    /// How lines are recorded.
    pub way: RecordingWay,
    /// The name of the book whose entries are the session's first ones. It isn't empty.
    pub book: Option<String>,
    /// Nothing is recorded: only lines that an entry of the book admits are run. There is a book then.
    pub only: bool,
    /// Each reply is a line of JSON.
    pub json: bool,
}

/// The command `book`: the entries that a session keeps at its end.
#[derive(Drop)]
pub struct Book {
    /// The name of the program's text.
    pub file: String,
    /// How lines are recorded.
    pub way: RecordingWay,
}

/// The command `show`: what is recorded of a program on these numbers.
#[derive(Drop)]
pub struct Show {
    /// The name of the program's text.
    pub file: String,
    /// How it is recorded.
    pub way: RecordingWay,
    /// The numbers of the run, at most `pg_num::limits::NUMBERS_LIMIT` of them.
    pub numbers: Vec<i64>,
}

/// The command `conditions`: the precondition of what is recorded of a program on these numbers.
#[derive(Drop)]
pub struct Conditions {
    /// The name of the program's text.
    pub file: String,
    /// How it is recorded.
    pub way: RecordingWay,
    /// The numbers of the run, at most `pg_num::limits::NUMBERS_LIMIT` of them.
    pub numbers: Vec<i64>,
}

/// What the program is to do.
#[derive(Drop)]
pub enum Command {
    /// One run.
    Once(Once),
    /// A session.
    Serve(Serve),
    /// The book of a session.
    Book(Book),
    /// What is recorded of one run.
    Show(Show),
    /// The precondition of what is recorded of one run.
    Conditions(Conditions),
    /// The trial that this number names, at most `pg_session_trial::TRIAL_LIMIT`.
    Trial(u64),
}
