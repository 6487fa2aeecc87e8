//! What is said of one line of input, as JSON.

ghost use Rattle.std.specs.Prelude.{◌≡◌, ◌≤◌, false, IfOk, OnOk, encode_utf8_all, option_map, string_bytes};
ghost use Rattle.serde_json.specs.Data.{depth};
ghost use Rattle.serde_json.specs.View.{members_view, view};
ghost use Rattle.serde_json.specs.Written.{compact_text, has_float};
ghost use Rattle.pg_session_texts.specs.JsonReplies.{IsJson, end_value, ended_value, entry_value, json_reply_text, output_value, put_if, reply_members, reply_value, reply_word, trap_value, turns_value};

use crate::reply::{EndLine, ReplyKind, copied};
use pg_ir::{InstrId, TrapName};
use serde_json::{Map, Value, json, put};
use std::alloc::{AllocError, Global};

/// What came of the line of input.
fn reply_word(kind: ReplyKind) -> &'static str
    ensures { result.now ≡ reply_word kind }
{
    match kind {
        ReplyKind::Recorded(_) => "recorded",
        ReplyKind::Reused(_) => "reused",
        ReplyKind::RefusedLine => "refused line",
        ReplyKind::RefusedTrap(_, _) => "refused trap",
        ReplyKind::RefusedBudget => "refused budget",
        ReplyKind::RefusedUntested => "refused untested",
    }
}

/// The entry's number, where there is one.
fn entry_value(kind: ReplyKind) -> Option<Value>
    ensures { option_map view result ≡ entry_value kind }
{
    match kind {
        ReplyKind::Recorded(entry) | ReplyKind::Reused(entry) => Some(Value::from(entry)),
        ReplyKind::RefusedLine
        | ReplyKind::RefusedTrap(_, _)
        | ReplyKind::RefusedBudget
        | ReplyKind::RefusedUntested => None,
    }
}

/// A trap, and where it came.
fn trap_value(alloc: Global, name: TrapName, id: InstrId) -> Result<Value, AllocError>
    ensures { IfOk result (λ v. view v ≡ trap_value name id) }
{
    json!(in alloc; {"at": id.0, "trap": name.name()})
}

/// How a run along a schedule ended.
fn end_value(alloc: Global, end: EndLine) -> Result<Value, AllocError>
    ensures { IfOk result (λ v. view v ≡ end_value end) }
{
    match end {
        EndLine::Exit(value, _) => json!(in alloc; {"exit": value}),
        EndLine::Trap(name, id, _) => trap_value(alloc, name, id),
        EndLine::Budget(thread, _) => json!(in alloc; {"budget": thread.0}),
    }
}

/// The end of the run along a schedule, if there was one.
fn run_end_value(alloc: Global, end: Option<EndLine>) -> Result<Option<Value>, AllocError>
    ensures { IfOk result (λ o. option_map view o ≡ option_map end_value end) }
{
    match end {
        Some(end) => {
            let value = end_value(alloc, end)?;
            Ok(Some(value))
        }
        None => Ok(None),
    }
}

/// How the line of input ended: that of the run along a schedule, or the trap of its recording.
fn ended_value(
    alloc: Global,
    kind: ReplyKind,
    end: Option<EndLine>,
) -> Result<Option<Value>, AllocError>
    ensures { IfOk result (λ o. option_map view o ≡ ended_value kind end) }
{
    match kind {
        ReplyKind::RefusedTrap(name, id) => {
            let value = trap_value(alloc, name, id)?;
            Ok(Some(value))
        }
        _ => run_end_value(alloc, end),
    }
}

/// After how many turns the run along a schedule ended, if there was one.
fn turns_value(end: Option<EndLine>) -> Option<Value>
    ensures { option_map view result ≡ turns_value end }
{
    match end {
        Some(EndLine::Exit(_, turns) | EndLine::Trap(_, _, turns) | EndLine::Budget(_, turns)) => {
            Some(Value::from(turns))
        }
        None => None,
    }
}

/// Adds a member of this key, if there is a value.
fn put_if(
    members: &mut Map<String, Value>,
    alloc: Global,
    key: &str,
    value: Option<Value>,
) -> Result<(), AllocError>
    ensures { OnOk result (members_view members.new.entries ≡ put_if key.now (option_map view value) (members_view members.old.entries)) }
{
    if let Some(value) = value {
        put(members, alloc, key, value)?;
    }
    Ok(())
}

/// Each byte as the character of that number.
fn characters(alloc: Global, bytes: &[u8]) -> Result<String, AllocError>
    ensures { IfOk result (λ text. string_bytes text ≡ encode_utf8_all bytes.now) }
{
    let mut text = String::new(alloc);
    for byte in bytes {
        text.push(char::from(*byte))?;
    }
    Ok(text)
}

/// What was printed, each byte as the character of that number.
fn output_value(alloc: Global, output: &[u8]) -> Result<Value, AllocError>
    ensures { IfOk result (λ v. view v ≡ output_value output.now) }
{
    let text = characters(alloc, output)?;
    Ok(Value::String(text))
}

#[tactic(auto, using(crate::proofs::Members::in_order))]
/// The members of the reply, in the order of their keys.
fn reply_members(
    alloc: Global,
    kind: ReplyKind,
    output: &[u8],
    end: Option<EndLine>,
) -> Result<Map<String, Value>, AllocError>
    ensures { IfOk result (λ members. members_view members.entries ≡ reply_members kind output.now end) }
{
    let mut members = Map::new(alloc);
    put_if(&mut members, alloc, "end", ended_value(alloc, kind, end)?)?;
    put_if(&mut members, alloc, "entry", entry_value(kind))?;
    put(&mut members, alloc, "output", output_value(alloc, output)?)?;
    put(
        &mut members,
        alloc,
        "reply",
        Value::try_from_str(alloc, reply_word(kind))?,
    )?;
    put_if(&mut members, alloc, "turns", turns_value(end))?;
    Ok(members)
}

/// The whole reply.
fn reply_value(
    alloc: Global,
    kind: ReplyKind,
    output: &[u8],
    end: Option<EndLine>,
) -> Result<Value, AllocError>
    ensures { IfOk result (λ v. view v ≡ reply_value kind output.now end) }
{
    let members = reply_members(alloc, kind, output, end)?;
    Ok(Value::Object(members))
}

/// The text of a value that has no float and isn't deep.
fn compact(alloc: Global, value: &Value) -> Result<Vec<u8>, AllocError>
    requires whole { has_float (view value.now) ≡ false }
    requires shallow { depth (view value.now) ≤ 2 }
    ensures text { IfOk result (λ text. text.items ≡ compact_text (view value.now)) }
    ensures json { IfOk result (λ text. IsJson (compact_text (view value.now)) (view value.now)) }
{
    let text = value.to_vec(alloc)?;
    Ok(text)
}

#[tactic(auto, using(crate::proofs::Members::reply_whole, crate::proofs::Members::reply_shallow))]
/// The text of a reply as a JSON object on a line of its own, without blanks. Its keys are, in the order of bytes: `end`, how
/// the run along a schedule ended (`{"exit":V}`, `{"at":ID,"trap":NAME}` or `{"budget":T}`, T the thread), or the trap of a
/// recording that was refused; `entry`, the number of the entry that was recorded or reused; `output`, what was printed, each
/// byte as the character of that number; `reply`, what came of the line of input; `turns`, the turns of the run along a
/// schedule. Where there is no such end, entry or run, its key is left out (JSON: RFC 8259; escapes as `serde_json` writes them).
///
/// # Errors
///
/// `AllocError` where no memory is left.
pub fn json_reply_text(
    alloc: Global,
    kind: &ReplyKind,
    output: &[u8],
    end: Option<&EndLine>,
) -> Result<Vec<u8>, AllocError>
    ensures text { IfOk result (λ text. text.items ≡ json_reply_text kind.now output.now (option_map (λ e. e.now) end.entry)) }
    ensures json { IfOk result (λ text. IsJson
        (compact_text (reply_value kind.now output.now (option_map (λ e. e.now) end.entry))) (reply_value kind.now output.now (option_map (λ e. e.now) end.entry))) }
{
    let value = reply_value(alloc, *kind, output, copied(end))?;
    let mut text = compact(alloc, &value)?;
    text.push(b'\n')?;
    Ok(text)
}
