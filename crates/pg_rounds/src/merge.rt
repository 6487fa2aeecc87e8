//! The numbers that workers printed, as the text of the run, in the order of its turns.

ghost use Rattle.std.specs.Prelude.{◌≡◌, ◌<◌, ◌≤◌, ◌*◌, ◌+◌, ◌++◌, [], IfOk, IfSome, length, slice_get, slice_index, vec_capacity, ℕ};
ghost use Rattle.pg_room.specs.pg_num.declared.limits.TheConstants.{THREAD_LIMIT};
ghost use Rattle.pg_room.specs.pg_ir.declared.request.Request.TheVariants as requests;
ghost use Rattle.pg_room.specs.pg_run.Texts.{printed_by};
ghost use Rattle.pg_room.specs.pg_law_course.Prints.{ends_line, is_print, output_along, text_of, without_first};
ghost use Rattle.pg_rounds.specs.Prints.{added, left_behind, numbers_left, numbers_of};
ghost use Rattle.pg_rounds.specs.declared.merge.TheConstants.{TEXT_LIMIT};

use itoa::Buffer;
use pg_room::pg_ir::{InstrId, LibraryCall, Op, Program, ThreadNo};
use pg_room::pg_num::limits::THREAD_LIMIT;
use pg_room::pg_num::{Width, to_signed};
use pg_room::pg_run_trace::{Turn, TurnKind};
use pg_room::pg_worker::Worker;
use std::alloc::{AllocError, Global};

/// The most bytes that a turn prints: a sign, nineteen digits and a line feed.
pub const TEXT_LIMIT: u32 = 21;

/// Room for what a run along these turns prints.
///
/// # Errors
///
/// Where no memory is left.
pub fn reserve(alloc: Global, turns: &[Turn]) -> Result<Vec<u8>, AllocError>
    ensures { IfOk result (λ v. (v.items ≡ []) × (TEXT_LIMIT * length turns.now ≤ vec_capacity v)) }
{
    Vec::with_capacity(alloc, turns.len().saturating_mul(TEXT_LIMIT as usize))
}

/// Whether a turn prints.
fn prints(kind: TurnKind) -> bool
    ensures { result ≡ is_print kind }
{
    matches!(kind, TurnKind::Out | TurnKind::Putchar)
}

/// Whether the print at an instruction ends its line.
fn ends_line(p: &Program, at: InstrId) -> bool
    ensures { result ≡ ends_line (slice_get p.now.instrs at.0) }
{
    if at.0 >= p.instr_count() {
        return false;
    }
    match &p.instr(at).op {
        Op::CallLibrary { function, .. } => *function == LibraryCall::PgOut,
        _ => false,
    }
}

/// Appends bytes for which there is room.
fn append(output: &mut Vec<u8>, bytes: &[u8])
    requires { length output.old.items + length bytes.now ≤ vec_capacity output.old }
    ensures items { output.new.items ≡ output.old.items ++ bytes.now }
    ensures room { vec_capacity output.old ≤ vec_capacity output.new }
{
    if let Err(_) = output.extend_from_slice(bytes) {
        unreachable!();
    }
}

/// Appends the text of a number.
fn append_number(output: &mut Vec<u8>, number: u64, ends_line: bool)
    requires { length output.old.items + TEXT_LIMIT ≤ vec_capacity output.old }
    ensures items { output.new.items ≡ output.old.items ++ printed_by (requests.Out number ends_line) }
    ensures short { length output.new.items ≤ length output.old.items + TEXT_LIMIT }
    ensures room { vec_capacity output.old ≤ vec_capacity output.new }
{
    let mut buffer = Buffer::new();
    append(
        output,
        buffer.format(to_signed(Width::W64, number)).as_bytes(),
    );
    if ends_line {
        append(output, b"\n");
    }
}

/// Appends what a turn prints, where it prints this number.
fn append_text(output: &mut Vec<u8>, p: &Program, turn: &Turn, number: u64)
    requires { length output.old.items + TEXT_LIMIT ≤ vec_capacity output.old }
    ensures items { output.new.items ≡ output.old.items ++ text_of (slice_get p.now.instrs turn.now.instr.0) turn.now.kind number }
    ensures short { length output.new.items ≤ length output.old.items + TEXT_LIMIT }
    ensures room { vec_capacity output.old ≤ vec_capacity output.new }
{
    match turn.kind {
        TurnKind::Out => append_number(output, number, ends_line(p, turn.instr)),
        TurnKind::Putchar => append(output, &[(number % 256) as u8]),
        _ => {}
    }
}

/// How many of the numbers of each worker were read.
#[derive(Drop)]
struct Reader<'a> {
    workers: &'a [Worker],
    read: [usize; THREAD_LIMIT as usize],
}

impl<'a> Reader<'a> {
    /// Before the first number of each.
    fn new(workers: &'a [Worker]) -> Reader<'a>
        ensures workers { result.workers.now ≡ workers.now }
        ensures reads { length result.read ≡ THREAD_LIMIT }
        ensures left { (t : ℕ) → numbers_left result.workers.now result.read t ≡ numbers_of workers.now t }
    {
        Reader {
            workers,
            read: [0; THREAD_LIMIT as usize],
        }
    }

    /// The next number of a thread, if one is left.
    fn peek(&self, thread: ThreadNo) -> Option<u64>
        requires few { length self.now.workers.now ≤ THREAD_LIMIT }
        requires reads { length self.now.read ≡ THREAD_LIMIT }
        ensures number { result ≡ slice_get (numbers_of self.now.workers.now thread.0) (slice_index self.now.read thread.0) }
        ensures within { IfSome result (λ _. thread.0 < length self.now.workers.now) }
    {
        let t = thread.0 as usize;
        if t >= self.workers.len() {
            return None;
        }
        self.workers[t].prints().get(self.read[t]).copied()
    }

    /// Reads the next number of a thread, 0 where none is left.
    fn next(&mut self, thread: ThreadNo) -> u64
        requires few { length self.old.workers.now ≤ THREAD_LIMIT }
        requires reads { length self.old.read ≡ THREAD_LIMIT }
        ensures number { result ≡ slice_index (numbers_left self.old.workers.now self.old.read thread.0) 0 }
        ensures rest { (t : ℕ) → numbers_left self.new.workers.now self.new.read t ≡ without_first thread.0 (numbers_left self.old.workers.now self.old.read) t }
        ensures same { (self.new.workers ≡ self.old.workers) × (length self.new.read ≡ length self.old.read) }
    {
        match self.peek(thread) {
            None => 0,
            Some(number) => {
                self.read[thread.0 as usize] += 1;
                number
            }
        }
    }
}

/// Appends what a turn prints, if it prints.
fn append_turn(output: &mut Vec<u8>, reader: &mut Reader<'_>, p: &Program, turn: &Turn)
    requires few { length reader.old.workers.now ≤ THREAD_LIMIT }
    requires reads { length reader.old.read ≡ THREAD_LIMIT }
    requires room { length output.old.items + TEXT_LIMIT ≤ vec_capacity output.old }
    ensures text { output.new.items ≡ output.old.items ++ added p.now turn.now (numbers_left reader.old.workers.now reader.old.read) }
    ensures left { (t : ℕ) → numbers_left reader.new.workers.now reader.new.read t ≡ left_behind turn.now (numbers_left reader.old.workers.now reader.old.read) t }
    ensures same { (reader.new.workers ≡ reader.old.workers) × (length reader.new.read ≡ length reader.old.read) }
    ensures short { length output.new.items ≤ length output.old.items + TEXT_LIMIT }
    ensures room { vec_capacity output.old ≤ vec_capacity output.new }
{
    if !prints(turn.kind) {
        return;
    }
    let number = reader.next(turn.thread);
    append_text(output, p, turn, number);
}

/// What these turns print, where each worker printed its numbers.
pub(crate) fn merge(p: &Program, turns: &[Turn], workers: &[Worker], output: Vec<u8>) -> Vec<u8>
    requires few { length workers.now ≤ THREAD_LIMIT }
    requires empty { output.items ≡ [] }
    requires room { TEXT_LIMIT * length turns.now ≤ vec_capacity output }
    ensures { result.items ≡ output_along p.now turns.now (numbers_of workers.now) }
{
    let mut output = output;
    let mut reader = Reader::new(workers);
    for turn in turns {
        append_turn(&mut output, &mut reader, p, turn);
    }
    output
}
