//! The call that does all that the program does.
ghost use Rattle.std.specs.Prelude.{◌≡◌, ◌⊎◌, ℕ, List, map, string_bytes};
ghost use Rattle.pg_commands.specs.Commands.{Ends, IsSession, crew_change, shelf_change, sink_change, source_change, workers_change, world};

use crate::conditions::conditions;
use crate::once::once;
use crate::saving::save_book;
use crate::serve::serve;
use crate::show::show;
use crate::status::Status;
use crate::trial::trial;
use pg_commands_words::{Command, command};
use pg_io::{Shelf, Sink, Source};
use pg_session_book::pg_free::FreeCrew;
use pg_session_book::pg_go::Crew;
use std::alloc::Global;
use std::sync::Wait;
use std::thread::Threads;

/// Runs the command that the words are, without the program's own name. The words are read first. Each reply, each refusal
/// line, and the whole text of `once`, `book`, `show`, `conditions` and `trial` is handed to the sink in one piece.
///
/// - `once` and up to 512 numbers runs the program text that is all that the source has, of which at most the limit and one
///   more byte are taken. It writes what the program prints on these numbers, and then how its run ended. Where the rotation
///   run exits, this is told of the guided run along the schedule of its trace.
/// - `serve` and a file holds a session of the program whose text the shelf has under the file's name. Each line of the
///   source is answered before the next read: by the least-numbered entry that is kept and admits its numbers, or by a
///   recording, whose entry is kept then. At most the limit and one more byte are taken.
/// - `book` and a file holds such a session, whose replies nobody is told, and writes the book of the entries that it keeps at the end.
/// - `show`, a file and up to 512 numbers writes what a session would record of these numbers as its first line: the turns,
///   the races, the decisions, what was printed, and the end; or the reply to an input that isn't kept.
/// - `conditions`, a file and up to 512 numbers writes the precondition of that recording: the numbers that are computed of an input,
///   and the checks that an input meets which may use its schedule; or the reply to an input that isn't kept.
/// - `trial` and a number up to 9,999 holds a session of the trial's program over 500 lines that the number settles, and
///   writes its counts.
///
/// A recording lets threads take their turns in number order. `once`, `serve`, `book`, `show` and `conditions` take `--quantum` and the
/// steps of a thread's turn then, from 1 to 10,000 and 100 without it. In place of it all of these but `once` take `--free`, so that the
/// given crew records, or `--seed` and a number below 2^64, so that a generator with this seed picks the thread of each step. A word
/// that begins with `-` stands after `--`. In place of the text, a program text that is refused gives the line
/// `program refused L:C NAME` with the line, the column and the name of its first refusal, and behind them the text of a token
/// that isn't supported.
///
/// `serve` takes `--book` and a name: once the program is accepted, the shelf is asked for the book of this name, and its entries are
/// the session's first ones. A book that is refused gives its line in place of the text. Beside it `--only` lets the session record
/// nothing: a line that no entry of the book admits is refused. With `--json` each of its replies is a line of JSON.
///
/// A line of `serve`, `book` and `trial` that is answered by reuse is run by workers, one for each thread of the program, and the
/// second crew makes their rounds. It may run them one after another or at once: the answer is the same.
///
/// Where a crew or the runtime waits for another thread, this call waits, and its promises hold once it returns.
pub fn peregrine<
    R: Threads + Wait + Sync,
    S: Source,
    K: Sink,
    F: Shelf,
    G: FreeCrew + Drop,
    C: Crew + Drop,
>(
    rt: &R,
    alloc: Global,
    words: &[String],
    src: &mut S,
    shelf: &mut F,
    out: &mut K,
    free: &mut G,
    crew: &mut C,
) -> Status
    ensures ends { Ends (world (shelf_change (F.text shelf.old) (F.faults shelf.old) (F.faults shelf.new))
        (source_change (S.rest src.old) (S.rest src.new) (S.faults src.old) (S.faults src.new))
        (sink_change (K.taken out.old) (K.taken out.new) (K.faults out.old) (K.faults out.new))
        (crew_change (G.rounds free.old) (G.rounds free.new)) (workers_change (C.turns crew.old) (C.turns crew.new)))
        (map string_bytes words.now) result }
    ensures usage_calls_nothing { result ≡ Status.Usage → (src.new ≡ src.old) × (shelf.new ≡ shelf.old) × (out.new ≡ out.old) × (free.new ≡ free.old) × (crew.new ≡ crew.old) }
    ensures fault_keeps_sink { (result ≡ Status.ReadFault) ⊎ (result ≡ Status.OutOfMemory) →
        (out.new ≡ out.old) ⊎ IsSession (map string_bytes words.now) }
    ensures texts_stay { (name : List ℕ) → F.text shelf.new name ≡ F.text shelf.old name }
{
    match command(alloc, words) {
        Ok(Some(Command::Once(command))) => once(alloc, &command, src, out),
        Ok(Some(Command::Serve(command))) => serve(
            rt, alloc, &command, src, shelf, out, free, crew,
        ),
        Ok(Some(Command::Show(command))) => show(rt, alloc, &command, shelf, out, free),
        Ok(Some(Command::Book(command))) => save_book(
            rt, alloc, &command, src, shelf, out, free, crew,
        ),
        Ok(Some(Command::Conditions(command))) => {
            conditions(rt, alloc, &command, shelf, out, free)
        }
        Ok(Some(Command::Trial(number))) => trial(rt, alloc, number, out, crew),
        Ok(None) => Status::Usage,
        Err(_) => Status::OutOfMemory,
    }
}
