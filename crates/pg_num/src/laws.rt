//! What holds of pointers, of places and of the limits: each law is the clause of a function that does nothing.

ghost use Rattle.std.specs.Prelude.{◌≡◌, ℕ, ◌+◌, ◌*◌, ◌/◌, ◌%◌, ◌^◌, ◌≤◌, ◌<◌, ℤ, pos, ◌+ℤ◌, IfOk, IsTrue};
ghost use Rattle.pg_num.specs.Places.{ByteRange, IsPlace, IsWithinGranule, is_size};
ghost use Rattle.pg_num.specs.Pointers.{moved_by, offset_of, place_of, pointer_of, word_of};
ghost use Rattle.pg_num.specs.declared.layout.TheConstants.{GLOBALS_END, GRANULE_BYTES, GRANULE_COUNT, MEMORY_BYTES, THREAD_GRANULES};
ghost use Rattle.pg_num.specs.declared.limits.TheConstants.{BOOK_LIMIT, CACHE_LIMIT, CALL_DEPTH_LIMIT, FUNCTION_LIMIT, FUNCTION_REGISTER_LIMIT, GLOBAL_LIMIT, GUIDED_STEP_LIMIT};
ghost use Rattle.pg_num.specs.declared.limits.TheConstants.{INSTRUCTION_LIMIT, LINE_LIMIT, NESTING_LIMIT, NUMBERS_LIMIT, OBJECT_LIMIT, PROGRAM_TEXT_LIMIT, QUANTUM_LIMIT};
ghost use Rattle.pg_num.specs.declared.limits.TheConstants.{RECORDING_STEP_LIMIT, SESSION_INPUT_LIMIT, SIZE_LIMIT, THREAD_LIMIT, THREAD_REGISTER_LIMIT};

/// A move keeps the bounds, which are the start and the length, and adds the number to the offset, modulo two to the 21.
pub fn a_move_keeps_the_bounds()
    ensures start { (word : ℕ) (delta : ℤ) → (pointer_of (moved_by word delta)).start ≡ (pointer_of word).start }
    ensures length { (word : ℕ) (delta : ℤ) → (pointer_of (moved_by word delta)).length ≡ (pointer_of word).length }
    ensures offset { (word : ℕ) (delta : ℤ) → (pointer_of (moved_by word delta)).offset ≡ offset_of (pos (pointer_of word).offset +ℤ delta) }
    ensures word { (word : ℕ) (delta : ℤ) → word < 2 ^ 64 → moved_by word delta < 2 ^ 64 }
{}

/// A move and then another is the move by the sum, and a move by 0 is none.
pub fn moves_add()
    ensures sum { (word : ℕ) (a b : ℤ) → moved_by (moved_by word a) b ≡ moved_by word (a +ℤ b) }
    ensures zero { (word : ℕ) → moved_by word (pos 0) ≡ word }
{}

/// An access that has a place has as many bytes as it asks for, at a multiple of their number, within one granule,
/// within memory and within the pointer's bounds; and each place is that of an access.
pub fn an_access_is_in_one_granule()
    ensures place { (word bytes : ℕ) → IsTrue (is_size bytes) → IfOk (place_of word bytes) (λ r. IsPlace r) }
    ensures granule { (word bytes : ℕ) → IsTrue (is_size bytes) → IfOk (place_of word bytes) (λ r. IsWithinGranule (r.start / 8) (r.start % 8) r.bytes) }
    ensures bytes { (word bytes : ℕ) → IfOk (place_of word bytes) (λ r. r.bytes ≡ bytes) }
    ensures start { (word bytes : ℕ) → IfOk (place_of word bytes) (λ r. r.start ≡ 8 * (pointer_of word).start + (pointer_of word).offset) }
    ensures bounds { (word bytes : ℕ) → IfOk (place_of word bytes) (λ r. r.start + r.bytes ≤ 8 * (pointer_of word).start + (pointer_of word).length) }
    ensures each { (r : ByteRange) → IsPlace r
        → place_of (word_of (record { start = r.start / 8; length = 8; offset = r.start % 8 })) r.bytes ≡ Ok r }
{}

/// How memory is laid out, as numbers: the memory of all threads fills what lies behind the globals' part.
pub fn the_layout_is_these_numbers()
    ensures granule { GRANULE_BYTES ≡ 8 }
    ensures granules { GRANULE_COUNT ≡ 2 ^ 22 }
    ensures memory { MEMORY_BYTES ≡ 2 ^ 25 }
    ensures globals { GLOBALS_END ≡ 2 ^ 21 }
    ensures region { THREAD_GRANULES ≡ 2 ^ 15 }
    ensures regions { GLOBALS_END + THREAD_LIMIT * THREAD_GRANULES ≡ GRANULE_COUNT }
{}

/// The limits of a program, as numbers.
pub fn the_limits_of_programs_are_these_numbers()
    ensures text { PROGRAM_TEXT_LIMIT ≡ 1048576 }
    ensures functions { FUNCTION_LIMIT ≡ 4096 }
    ensures globals { GLOBAL_LIMIT ≡ 4096 }
    ensures instructions { INSTRUCTION_LIMIT ≡ 65536 }
    ensures registers { FUNCTION_REGISTER_LIMIT ≡ 4096 }
    ensures size { SIZE_LIMIT ≡ 2097151 }
    ensures nesting { NESTING_LIMIT ≡ 64 }
{}

/// The limits of a run, as numbers.
pub fn the_limits_of_runs_are_these_numbers()
    ensures threads { THREAD_LIMIT ≡ 64 }
    ensures depth { CALL_DEPTH_LIMIT ≡ 256 }
    ensures registers { THREAD_REGISTER_LIMIT ≡ 16384 }
    ensures objects { OBJECT_LIMIT ≡ 4096 }
    ensures recorded { RECORDING_STEP_LIMIT ≡ 500000 }
    ensures guided { GUIDED_STEP_LIMIT ≡ 5000000 }
    ensures quantum { QUANTUM_LIMIT ≡ 10000 }
{}

/// The limits of a session, as numbers.
pub fn the_limits_of_sessions_are_these_numbers()
    ensures input { SESSION_INPUT_LIMIT ≡ 16777216 }
    ensures line { LINE_LIMIT ≡ 4096 }
    ensures numbers { NUMBERS_LIMIT ≡ 512 }
    ensures entries { CACHE_LIMIT ≡ 16 }
    ensures book { BOOK_LIMIT ≡ 16777216 }
{}
