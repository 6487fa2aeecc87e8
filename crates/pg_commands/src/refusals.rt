//! Why a program text is refused, and the line that says so.
ghost use Rattle.std.specs.Prelude.{◌≡◌, ◌≤◌, ◌++◌, length, take, slice_range, IfOk, OnOk};
ghost use Rattle.pg_num.specs.declared.limits.TheConstants.{PROGRAM_TEXT_LIMIT};
ghost use Rattle.pg_commands.specs.Refusals.{fault_name, kind_name, refusal_name, fault_place, refusal_place, fault_token, kind_token, refusal_token, token_text, refusal_head, refusal_line};

use pg_check::CheckKind;
use pg_read_grammar::ReadFault;
use pg_read_lex::{Span, position};
use std::alloc::{AllocError, Global};

/// Why a program text is refused.
#[derive(Clone, Copy, Debug, PartialEq, Eq)]
pub enum TextRefusal {
    /// It has more bytes than the limit.
    TooLong,
    /// It is no module: the reader's first refusal.
    Read(ReadFault),
    /// It is a module: the first refusal by the checks, and the token at which it stands.
    Check { kind: CheckKind, span: Span },
}

fn fault_name(fault: ReadFault) -> &'static str
    ensures { result.now ≡ fault_name fault }
{
    match fault {
        ReadFault::BadByte(_) => "BadByte",
        ReadFault::OpenString(_) => "OpenString",
        ReadFault::Unexpected(_) => "Unexpected",
        ReadFault::Unsupported(_) => "Unsupported",
        ReadFault::TooDeep(_) => "TooDeep",
        ReadFault::OutOfMemory => "OutOfMemory",
    }
}

fn kind_name(kind: CheckKind) -> &'static str
    ensures { result.now ≡ kind_name kind }
{
    match kind {
        CheckKind::UnknownName => "UnknownName",
        CheckKind::Doubled => "Doubled",
        CheckKind::WrongType => "WrongType",
        CheckKind::NoBlock => "NoBlock",
        CheckKind::BadPhi => "BadPhi",
        CheckKind::Unsupported => "Unsupported",
        CheckKind::BadSignature => "BadSignature",
        CheckKind::TooLarge => "TooLarge",
        CheckKind::NoMain => "NoMain",
    }
}

fn fault_place(fault: ReadFault) -> u32
    ensures { result ≡ fault_place fault }
{
    match fault {
        ReadFault::BadByte(at)
        | ReadFault::OpenString(at)
        | ReadFault::Unexpected(at)
        | ReadFault::TooDeep(at) => at,
        ReadFault::Unsupported(span) => span.start,
        ReadFault::OutOfMemory => 0,
    }
}

fn fault_token(fault: ReadFault) -> Option<Span>
    ensures { result ≡ fault_token fault }
{
    match fault {
        ReadFault::Unsupported(span) => Some(span),
        _ => None,
    }
}

fn kind_token(kind: CheckKind, span: Span) -> Option<Span>
    ensures { result ≡ kind_token kind span }
{
    match kind {
        CheckKind::Unsupported => Some(span),
        _ => None,
    }
}

impl TextRefusal {
    /// The name of the refusal.
    fn name(self) -> &'static str
        ensures { result.now ≡ refusal_name self }
    {
        match self {
            TextRefusal::TooLong => "TooLong",
            TextRefusal::Read(fault) => fault_name(fault),
            TextRefusal::Check { kind, .. } => kind_name(kind),
        }
    }

    /// The place of the byte at which the text is refused.
    fn place(self) -> u32
        ensures { result ≡ refusal_place self }
    {
        match self {
            TextRefusal::TooLong => 0,
            TextRefusal::Read(fault) => fault_place(fault),
            TextRefusal::Check { span, .. } => span.start,
        }
    }

    /// The token whose text is told.
    fn token(self) -> Option<Span>
        ensures { result ≡ refusal_token self }
    {
        match self {
            TextRefusal::TooLong => None,
            TextRefusal::Read(fault) => fault_token(fault),
            TextRefusal::Check { kind, span } => kind_token(kind, span),
        }
    }
}

/// What stands before a place; the whole text where the place lies behind its end.
fn before(text: &[u8], at: u32) -> &[u8]
    ensures { result.now ≡ take at text.now }
{
    &text[..text.len().min(at as usize)]
}

/// The part of the text that a span names.
fn part(text: &[u8], span: Span) -> &[u8]
    ensures { result.now ≡ slice_range text.now span.start span.end }
{
    let rest = &text[text.len().min(span.start as usize)..];
    before(rest, span.end.saturating_sub(span.start))
}

/// The front of a refusal's line, by what stands before its place and by its name.
fn refusal_head(alloc: Global, before: &[u8], name: &str) -> Result<Vec<u8>, AllocError>
    requires limit { length before.now ≤ PROGRAM_TEXT_LIMIT }
    ensures { IfOk result (λ head. head.items ≡ refusal_head before.now name.now) }
{
    let (line, column) = position(before, before.len() as u32);
    let head = format!(in alloc; "program refused {line}:{column} {name}")?;
    Ok(head.into_bytes())
}

/// Writes the text of a token behind a blank.
fn add_token(line: &mut Vec<u8>, text: &[u8], token: Option<Span>) -> Result<(), AllocError>
    ensures { OnOk result (line.new.items ≡ line.old.items ++ token_text text.now token) }
{
    if let Some(span) = token {
        line.extend_from_slice(b" ")?;
        line.extend_from_slice(part(text, span))?;
    }
    Ok(())
}

/// The line that refuses a text of at most `PROGRAM_TEXT_LIMIT` bytes.
#[tactic(auto, unfolding(crate::specs::Refusals::refusal_line))]
pub(crate) fn refusal_line(
    alloc: Global,
    text: &[u8],
    refusal: TextRefusal,
) -> Result<Vec<u8>, AllocError>
    requires limit { length text.now ≤ PROGRAM_TEXT_LIMIT }
    ensures { IfOk result (λ line. line.items ≡ refusal_line text.now refusal) }
{
    let mut line = refusal_head(alloc, before(text, refusal.place()), refusal.name())?;
    add_token(&mut line, text, refusal.token())?;
    line.extend_from_slice(b"\n")?;
    Ok(line)
}
