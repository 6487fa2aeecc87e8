//! A row of a table of operations and their results.

use pg_num::{
    Bits, Compare, DivideFault, Division, PlaceFault, Shift, Width, add, bits, compare,
    digits_in_u64, divide, move_by, mul, place, sext, shift, sub, to_signed, trunc,
};

/// What a row says of an operation: its number, or the word for why there is none.
#[derive(Clone, Copy)]
enum Answer {
    Number(u64),
    Nothing(&'static str),
}

/// Whether an operation gives what its row says.
pub fn agrees(row: &str) -> bool {
    let mut words = row.split(' ');
    let (Some(op), Some(width), Some(a), Some(b), Some(want)) = (
        words.next(),
        words.next(),
        words.next(),
        words.next(),
        words.next(),
    ) else {
        return false;
    };
    let (Some(w), Some(a), Some(b)) = (
        width_named(width),
        digits_in_u64(a.as_bytes()),
        digits_in_u64(b.as_bytes()),
    ) else {
        return false;
    };
    match result_of(op, w, a, b) {
        Some(Answer::Number(n)) => digits_in_u64(want.as_bytes()) == Some(n),
        Some(Answer::Nothing(word)) => word == want,
        None => false,
    }
}

fn width_named(name: &str) -> Option<Width> {
    match name {
        "1" => Some(Width::W1),
        "8" => Some(Width::W8),
        "16" => Some(Width::W16),
        "32" => Some(Width::W32),
        "64" => Some(Width::W64),
        _ => None,
    }
}

/// The answer of an operation by its name, none where there is no such operation or an operand is out of
/// its range.
fn result_of(op: &str, w: Width, a: u64, b: u64) -> Option<Answer> {
    match op {
        "trunc" => return Some(Answer::Number(trunc(w, a))),
        "sext" => return extended(w, a, b),
        "move" => return Some(Answer::Number(move_by(a, to_signed(Width::W64, b)))),
        "place" => return placed(a, b),
        _ => {}
    }
    let (x, y) = (trunc(w, a), trunc(w, b));
    if x != a || y != b {
        return None;
    }
    match op {
        "add" => Some(Answer::Number(add(w, x, y))),
        "sub" => Some(Answer::Number(sub(w, x, y))),
        "mul" => Some(Answer::Number(mul(w, x, y))),
        "udiv" => Some(divided(Division::Udiv, w, x, y)),
        "sdiv" => Some(divided(Division::Sdiv, w, x, y)),
        "urem" => Some(divided(Division::Urem, w, x, y)),
        "srem" => Some(divided(Division::Srem, w, x, y)),
        "shl" => Some(Answer::Number(shift(Shift::Shl, w, x, y))),
        "lshr" => Some(Answer::Number(shift(Shift::Lshr, w, x, y))),
        "ashr" => Some(Answer::Number(shift(Shift::Ashr, w, x, y))),
        "and" => Some(Answer::Number(bits(Bits::And, x, y))),
        "or" => Some(Answer::Number(bits(Bits::Or, x, y))),
        "xor" => Some(Answer::Number(bits(Bits::Xor, x, y))),
        _ => predicate(op).map(|p| Answer::Number(u64::from(compared(p, w, x, y)))),
    }
}

fn predicate(op: &str) -> Option<Compare> {
    match op {
        "eq" => Some(Compare::Eq),
        "ne" => Some(Compare::Ne),
        "ugt" => Some(Compare::Ugt),
        "uge" => Some(Compare::Uge),
        "ult" => Some(Compare::Ult),
        "ule" => Some(Compare::Ule),
        "sgt" => Some(Compare::Sgt),
        "sge" => Some(Compare::Sge),
        "slt" => Some(Compare::Slt),
        "sle" => Some(Compare::Sle),
        _ => None,
    }
}

fn compared(p: Compare, w: Width, a: u64, b: u64) -> bool {
    compare(p, w, trunc(w, a), trunc(w, b))
}

fn divided(op: Division, w: Width, a: u64, b: u64) -> Answer {
    match divide(op, w, trunc(w, a), trunc(w, b)) {
        Ok(n) => Answer::Number(n),
        Err(DivideFault::Zero) => Answer::Nothing("zero"),
        Err(DivideFault::Overflow) => Answer::Nothing("overflow"),
    }
}

/// The first operand extended to the width that is the second.
fn extended(from: Width, a: u64, bits: u64) -> Option<Answer> {
    let to = match bits {
        8 => Width::W8,
        16 => Width::W16,
        32 => Width::W32,
        64 => Width::W64,
        _ => return None,
    };
    Some(Answer::Number(sext(from, to, trunc(from, a))))
}

/// The access of this many bytes by a pointer.
fn placed(word: u64, bytes: u64) -> Option<Answer> {
    let bytes = match bytes {
        1 => 1,
        2 => 2,
        4 => 4,
        8 => 8,
        _ => return None,
    };
    Some(match place(word, bytes) {
        Ok(at) => Answer::Number(u64::from(at.start())),
        Err(PlaceFault::OutOfRange) => Answer::Nothing("range"),
        Err(PlaceFault::Misaligned) => Answer::Nothing("aligned"),
    })
}
