//! The limits of programs, inputs and runs. Specifications name these constants, so a limit is defined here alone.

/// The longest program text, in bytes.
pub const PROGRAM_TEXT_LIMIT: usize = 1_048_576;

/// The most bytes of input lines that a session takes.
pub const SESSION_INPUT_LIMIT: usize = 16_777_216;

/// The longest input line, in bytes, without its line feed.
pub const LINE_LIMIT: usize = 4_096;

/// The most numbers on an input line, and of one run.
pub const NUMBERS_LIMIT: usize = 512;

/// The most threads that a run makes, main among them.
pub const THREAD_LIMIT: u32 = 64;

/// The most calls that are open in one thread, its first function among them.
pub const CALL_DEPTH_LIMIT: u32 = 256;

/// The most registers of all open calls of one thread together.
pub const THREAD_REGISTER_LIMIT: u32 = 16_384;

/// The most functions that a program defines.
pub const FUNCTION_LIMIT: u32 = 4_096;

/// The most globals of a program.
pub const GLOBAL_LIMIT: u32 = 4_096;

/// The most instructions of a program.
pub const INSTRUCTION_LIMIT: u32 = 65_536;

/// The most registers of one function, its parameters among them.
pub const FUNCTION_REGISTER_LIMIT: u32 = 4_096;

/// The largest size of a global or a type, in bytes.
pub const SIZE_LIMIT: u32 = 2_097_151;

/// The most brackets that are open at one place of a program text.
pub const NESTING_LIMIT: u32 = 64;

/// The most mutexes, condition variables and barriers that a run knows at one time.
pub const OBJECT_LIMIT: u32 = 4_096;

/// The most steps of a run that is recorded.
pub const RECORDING_STEP_LIMIT: u32 = 500_000;

/// The most steps of one thread in a run along a schedule.
pub const GUIDED_STEP_LIMIT: u32 = 5_000_000;

/// The most entries that a cache keeps, and that a book holds.
pub const CACHE_LIMIT: usize = 16;

/// The longest book, in bytes.
pub const BOOK_LIMIT: usize = 16_777_216;

/// The largest quantum of a rotation, in steps.
pub const QUANTUM_LIMIT: u32 = 10_000;
