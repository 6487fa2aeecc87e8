//! The canonical text of names and strings.

ghost use Rattle.std.specs.Prelude.{◌≡◌, ◌++◌, OnOk, ◌<◌};
ghost use Rattle.pg_read_ast.specs.Text.{hexadecimal, escaped_byte, quoted, is_bare, name_text, local_text, global_text, label_text};
ghost use Rattle.pg_read_lex.specs.Bytes.{is_name_byte};
ghost use Rattle.std.specs.List.{list_all};

use crate::names::Name;
use std::alloc::AllocError;

/// Appends a text.
pub fn put(out: &mut Vec<u8>, text: &[u8]) -> Result<(), AllocError>
    ensures { OnOk result (out.new.items ≡ out.old.items ++ text.now) }
{
    out.extend_from_slice(text)?;
    Ok(())
}

/// Appends a word.
pub fn put_text(out: &mut Vec<u8>, text: &str) -> Result<(), AllocError>
    ensures { OnOk result (out.new.items ≡ out.old.items ++ text.now) }
{
    put(out, text.as_bytes())
}

fn digit(value: u8) -> u8
    requires { value < 16 }
    ensures { result ≡ hexadecimal value }
{
    if value < 10 { b'0' + value } else { 55 + value }
}

fn put_escaped(out: &mut Vec<u8>, byte: u8) -> Result<(), AllocError>
    ensures { OnOk result (out.new.items ≡ out.old.items ++ escaped_byte byte) }
{
    if byte == b'"' || byte == b'\\' || !(byte >= 32 && byte <= 126) {
        put(out, &[b'\\', digit(byte / 16), digit(byte % 16)])
    } else {
        put(out, &[byte])
    }
}

pub fn put_quoted(out: &mut Vec<u8>, text: &[u8]) -> Result<(), AllocError>
    ensures { OnOk result (out.new.items ≡ out.old.items ++ quoted text.now) }
{
    put_text(out, "\"")?;
    for byte in text {
        put_escaped(out, *byte)?;
    }
    put_text(out, "\"")
}

fn is_bare_name(text: &[u8]) -> bool
    ensures { result ≡ is_bare text.now }
{
    match text {
        [] => false,
        [_, ..] => all_name_bytes(text),
    }
}

fn all_name_bytes(text: &[u8]) -> bool
    ensures { result ≡ list_all is_name_byte text.now }
{
    text.iter().all(|b| is_name(*b))
}

#[tactic(auto, unfolding(crate::specs::Text::name_text))]
pub fn put_name(out: &mut Vec<u8>, name: &Name) -> Result<(), AllocError>
    ensures { OnOk result (out.new.items ≡ out.old.items ++ name_text name.now.text) }
{
    let text = name.text.as_slice();
    if is_bare_name(text) {
        put(out, text)
    } else {
        put_quoted(out, text)
    }
}

/// Appends a text, and a name behind it.
pub fn put_name_behind(out: &mut Vec<u8>, before: &str, name: &Name) -> Result<(), AllocError>
    ensures { OnOk result (out.new.items ≡ out.old.items ++ (before.now ++ name_text name.now.text)) }
{
    put_text(out, before)?;
    put_name(out, name)
}

pub fn put_local(out: &mut Vec<u8>, name: &Name) -> Result<(), AllocError>
    ensures { OnOk result (out.new.items ≡ out.old.items ++ local_text name.now) }
{
    put_name_behind(out, "%", name)
}

pub fn put_global(out: &mut Vec<u8>, name: &Name) -> Result<(), AllocError>
    ensures { OnOk result (out.new.items ≡ out.old.items ++ global_text name.now) }
{
    put_name_behind(out, "@", name)
}

/// Appends a text, and a label behind it.
#[tactic(auto, unfolding(crate::specs::Text::label_text))]
pub fn put_label_behind(out: &mut Vec<u8>, before: &str, name: &Name) -> Result<(), AllocError>
    ensures { OnOk result (out.new.items ≡ out.old.items ++ (before.now ++ label_text name.now)) }
{
    put_text(out, before)?;
    put_name_behind(out, "label %", name)
}

fn is_name(byte: u8) -> bool
    ensures { result ≡ is_name_byte byte }
{
    (byte >= b'A' && byte <= b'Z')
        || (byte >= b'a' && byte <= b'z')
        || (byte >= b'0' && byte <= b'9')
        || byte == b'-'
        || byte == b'$'
        || byte == b'.'
        || byte == b'_'
}
