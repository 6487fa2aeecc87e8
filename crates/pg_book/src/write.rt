//! From a book to bytes.

ghost use Rattle.std.specs.Prelude.{◌≡◌, ◌++◌, map, IfOk, OnOk};
ghost use Rattle.serde_json.specs.Data.{Data, array};
ghost use Rattle.serde_json.specs.View.{view};
ghost use Rattle.serde_json.specs.Written.{compact_text};
ghost use Rattle.pg_book.specs.Books.{AreLimited, IsBook};
ghost use Rattle.pg_book.specs.Parts.{parts_in, parts_of};
ghost use Rattle.pg_book.specs.Texts.{book_text, each, entry_value, id_value, integer, turn_value};

use crate::book::{Book, BookEntry};
use crate::laws::a_written_book_is_read_again;
use crate::ranges::entries_are_ranged;
use pg_ir::InstrId;
use pg_run_trace::Turn;
use serde_json::{Value, json};
use std::alloc::{AllocError, Global};

/// What is written as a JSON value.
trait Written {
    ghost value: { Self → Data };

    /// Adds the text of the value.
    fn add(&self, alloc: Global, text: &mut Vec<u8>) -> Result<(), AllocError>
        ensures { OnOk result (text.new.items ≡ text.old.items ++ compact_text (value self.now)) };
}

impl Written for i64 {
    ghost value = { integer };

    fn add(&self, alloc: Global, text: &mut Vec<u8>) -> Result<(), AllocError> {
        let bytes = Value::from(*self).to_vec(alloc)?;
        text.extend_from_slice(&bytes)
    }
}

impl Written for InstrId {
    ghost value = { id_value };

    fn add(&self, alloc: Global, text: &mut Vec<u8>) -> Result<(), AllocError> {
        let bytes = Value::from(self.0).to_vec(alloc)?;
        text.extend_from_slice(&bytes)
    }
}

fn turn_value(alloc: Global, turn: Turn) -> Result<Value, AllocError>
    ensures { IfOk result (λ v. view v ≡ turn_value turn) }
{
    json!(in alloc; [turn.thread.0, turn.instr.0, turn.kind.name(), turn.object])
}

impl Written for Turn {
    ghost value = { turn_value };

    fn add(&self, alloc: Global, text: &mut Vec<u8>) -> Result<(), AllocError> {
        let value = turn_value(alloc, *self)?;
        let bytes = value.to_vec(alloc)?;
        text.extend_from_slice(&bytes)
    }
}

/// Adds the text of a list.
fn add_list<T: Written>(alloc: Global, items: &[T], text: &mut Vec<u8>) -> Result<(), AllocError>
    ensures { OnOk result (text.new.items ≡ text.old.items ++ compact_text (array (each T.value items.now))) }
{
    text.push(b'[')?;
    for place in 0..items.len() {
        if place > 0 {
            text.push(b',')?;
        }
        items[place].add(alloc, text)?;
    }
    text.push(b']')?;
    Ok(())
}

impl Written for BookEntry {
    ghost value = { λ e. entry_value (parts_of e) };

    fn add(&self, alloc: Global, text: &mut Vec<u8>) -> Result<(), AllocError> {
        text.extend_from_slice(b"{\"gated\":")?;
        add_list(alloc, self.gated.as_slice(), text)?;
        text.extend_from_slice(b",\"input\":")?;
        add_list(alloc, self.input.as_slice(), text)?;
        text.extend_from_slice(b",\"turns\":")?;
        add_list(alloc, self.turns.as_slice(), text)?;
        text.push(b'}')?;
        Ok(())
    }
}

/// Adds the text of the list of entries.
fn add_entries(alloc: Global, entries: &[BookEntry], text: &mut Vec<u8>) -> Result<(), AllocError>
    ensures { OnOk result (text.new.items ≡ text.old.items ++ compact_text (array (each entry_value (map parts_of entries.now)))) }
{
    add_list(alloc, entries, text)?;
    Ok(())
}

/// The text of a book. It is made turn by turn: the JSON value of a whole book would take some ten times as much memory. A book
/// within its limits is read again from it.
///
/// # Errors
///
/// `AllocError` where no memory is left.
pub fn write_book(alloc: Global, book: &Book) -> Result<Vec<u8>, AllocError>
    ensures text { IfOk result (λ text. text.items ≡ book_text (parts_in book.now)) }
    ensures again { IfOk result (λ text. AreLimited (parts_in book.now) → IsBook text.items (parts_in book.now)) }
{
    a_written_book_is_read_again();
    entries_are_ranged(book.entries.as_slice());
    let mut text = Vec::new(alloc);
    text.extend_from_slice(b"{\"entries\":")?;
    add_entries(alloc, book.entries.as_slice(), &mut text)?;
    text.extend_from_slice(b",\"peregrine\":1}\n")?;
    Ok(text)
}
