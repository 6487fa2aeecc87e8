//! Back over the accesses of loads and stores.

ghost use Rattle.std.specs.Prelude.{◌≡◌, ◌<◌, ◌||◌, ℕ, Bool, true, false, Some, IfOk, IfSome, OnOk};
ghost use Rattle.std.specs.List.{AllByRecursion};
ghost use Rattle.pg_slice_rules.specs.Freeable.{bounds_of};
ghost use Rattle.pg_slice_rules.specs.Known.{SymbolicState, Taken, has};
ghost use Rattle.pg_slice_rules.specs.SymbolicValues.{is_within};
ghost use Rattle.pg_run_trace.specs.Steps.{range_of};
ghost use Rattle.pg_slice_passes.specs.pg_slice_decisions.Steps.{step_of};
ghost use Rattle.pg_law_demands.specs.Cells.{IsMet};
ghost use Rattle.pg_law_demands.specs.Back.{byte_demand, is_target, of_bytes, of_value, register_demand};
ghost use Rattle.pg_slice_demands.specs.Asked.{asked_of, asks_byte};
ghost use Rattle.pg_slice_back.specs.Bytes.{is_in};
ghost use Rattle.pg_slice_back.specs.Met.{AreMet};
ghost use Rattle.pg_slice_back.specs.Leaves.{Leaves, Without, none};

use crate::bytes::{Bytes, bytes_in_bounds, own_bytes};
use crate::moves::{leave, put_value};
use pg_ir::Value;
use pg_run_trace::Access;
use pg_slice_demands::{Call, Demanded};
use pg_slice_rules::Decision;
use std::alloc::AllocError;

/// So many bytes from one on have to be known.
pub(crate) fn put_bytes(demanded: &mut Demanded, start: u64, count: u8) -> Result<(), AllocError>
    requires { start < 4294967296 }
    ensures { OnOk result ((s : SymbolicState) → AreMet s demanded.old → AllByRecursion (IsMet s) (of_bytes start count) → AreMet s demanded.new) }
{
    for i in 0..count {
        demanded.put_byte(start + i as u64)?;
    }
    Ok(())
}

/// Back over a load of so many bytes from one on: what is asked of the register that it sets is asked of them. Gives whether
/// something was asked of that.
fn back_loaded(
    demanded: &mut Demanded,
    at: Call,
    target: Option<u32>,
    start: u64,
    count: u8,
) -> Result<bool, AllocError>
    requires { start < 4294967296 }
    ensures asked { IfOk result (λ b. b ≡ true → (r : ℕ) × (v : Bool) × (target ≡ Some r) × (asked_of demanded.old at.thread.0 at.depth r ≡ Some v)) }
    ensures met { OnOk result ((after before : SymbolicState) → Leaves at.thread.0 at.depth (is_target target) none after before
        → ((r : ℕ) (v : Bool) → target ≡ Some r → IsMet after (register_demand at.thread.0 at.depth r v) → AllByRecursion (IsMet before) (of_bytes start count))
        → AreMet after demanded.old → AreMet before demanded.new) }
{
    match leave(demanded, at, target) {
        Some(_) => {
            put_bytes(demanded, start, count)?;
            Ok(true)
        }
        None => Ok(false),
    }
}

/// Back over a load: where something is asked of the register that it sets, it is exact, and its bytes have to be known. Gives
/// the decision then.
pub(crate) fn back_load(
    demanded: &mut Demanded,
    at: Call,
    target: Option<u32>,
    a: Access,
    number: usize,
) -> Result<Option<Decision>, AllocError>
    ensures step { IfOk result (λ o. IfSome o (λ z. step_of z ≡ number)) }
    ensures met { IfOk result (λ o. (e : Taken) (after before : SymbolicState) → Leaves at.thread.0 at.depth (is_target target) none after before
        → ((r : ℕ) (v : Bool) → target ≡ Some r → IsMet after (register_demand at.thread.0 at.depth r v)
        → AllByRecursion (IsMet before) (of_bytes (range_of a).start a.bytes) × (e.exact number ≡ true))
        → AreMet after demanded.old → AreMet before demanded.new × IfSome o (λ z. has e z ≡ true)) }
{
    let own = own_bytes(a);
    if back_loaded(demanded, at, target, own.from, a.bytes)? {
        Ok(Some(Decision::Exact(number)))
    } else {
        Ok(None)
    }
}

/// A byte of a store's own bytes, or of its bounds, that has to be known.
fn stored(demanded: &Demanded, own: Bytes, bounds: Bytes) -> Option<u64>
    ensures { IfSome result (λ b. (asks_byte demanded.now b ≡ true) × ((is_in own b || is_in bounds b) ≡ true)) }
{
    match demanded.byte_in(own.from, own.to) {
        Some(byte) => Some(byte),
        None => demanded.byte_in(bounds.from, bounds.to),
    }
}

/// That a store is exact, where it is no event and a byte has to be known that it may have written.
fn store_fixed(demanded: &Demanded, a: Access, number: usize) -> Option<Decision>
    ensures step { IfSome result (λ z. step_of z ≡ number) }
    ensures fixed { (e : Taken) (after : SymbolicState)
        → ((b : ℕ) → (is_within (range_of a) b || is_within (bounds_of a.pointer) b) ≡ true → a.event ≡ false → IsMet after (byte_demand b true)
        → e.exact number ≡ true)
        → AreMet after demanded.now → IfSome result (λ z. has e z ≡ true) }
{
    if a.event {
        return None;
    }
    match stored(demanded, own_bytes(a), bytes_in_bounds(a.pointer)) {
        Some(_) => Some(Decision::Exact(number)),
        None => None,
    }
}

/// Back over a store of a value at some bytes: what is asked of these is asked of the value.
fn back_stored(
    demanded: &mut Demanded,
    at: Call,
    value: Value,
    own: Bytes,
) -> Result<(), AllocError>
    ensures { OnOk result ((after before : SymbolicState) → Leaves at.thread.0 at.depth none (is_in own) after before
        → ((b : ℕ) → is_in own b ≡ true → IsMet after (byte_demand b true) → AllByRecursion (IsMet before) (of_value at.thread.0 at.depth true value))
        → AreMet after demanded.old → AreMet before demanded.new) }
{
    let _was = leave(demanded, at, None);
    match demanded.byte_in(own.from, own.to) {
        Some(_) => {
            demanded.clear_bytes(own.from, own.to);
            put_value(demanded, at, value, true)?;
            Ok(())
        }
        None => Ok(()),
    }
}

/// Back over a store: what is asked of its bytes is asked of its value. Gives the decision that it is exact, where that is due.
pub(crate) fn back_store(
    demanded: &mut Demanded,
    at: Call,
    value: Value,
    a: Access,
    number: usize,
) -> Result<Option<Decision>, AllocError>
    ensures step { IfOk result (λ o. IfSome o (λ z. step_of z ≡ number)) }
    ensures met { IfOk result (λ o. (e : Taken) (after before : SymbolicState) → Leaves at.thread.0 at.depth none (is_within (range_of a)) after before
        → ((b : ℕ) → is_within (range_of a) b ≡ true → IsMet after (byte_demand b true) → AllByRecursion (IsMet before) (of_value at.thread.0 at.depth true value))
        → ((b : ℕ) → (is_within (range_of a) b || is_within (bounds_of a.pointer) b) ≡ true → a.event ≡ false → IsMet after (byte_demand b true) → e.exact number ≡ true)
        → AreMet after demanded.old → AreMet before demanded.new × IfSome o (λ z. has e z ≡ true)) }
{
    let due = store_fixed(demanded, a, number);
    back_stored(demanded, at, value, own_bytes(a))?;
    Ok(due)
}

/// Nothing is asked any more of the register that an access sets, and of its bytes.
pub(crate) fn leave_access(demanded: &mut Demanded, at: Call, target: Option<u32>, a: Access)
    ensures { Without at.thread.0 at.depth (is_target target) (is_within (range_of a)) demanded.old demanded.new }
{
    let _was = leave(demanded, at, target);
    let own = own_bytes(a);
    demanded.clear_bytes(own.from, own.to);
}
