//! How the words lie: the turn word, a word for each thread, a word for each granule of memory.
use pg_ir::pg_num::layout::GRANULE_COUNT;
use pg_ir::pg_num::limits::THREAD_LIMIT;

/// The word of the number of turns that are done.
pub const TURN_WORD: u32 = 0;

/// The word of thread 0; those of the other threads stand behind it.
pub const THREAD_WORDS: u32 = 1;

/// The word of granule 0; those of the other granules stand behind it.
pub const GRANULE_WORDS: u32 = THREAD_WORDS + THREAD_LIMIT;

/// How many words there are.
pub const WORD_COUNT: u32 = GRANULE_WORDS + GRANULE_COUNT;
