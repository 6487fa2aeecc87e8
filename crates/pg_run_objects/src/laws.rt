//! What holds of the synchronisation objects: each law is the clause of a function that does nothing.

ghost use Rattle.std.specs.Prelude.{◌≡◌, ℕ, ◌<◌, ◌≤◌, ◌==◌, List, None, Some, Ok, Err, IfErr, false, true, length, negsuc};
ghost use Rattle.pg_ir.specs.pg_num.Numbers.{residue};
ghost use Rattle.pg_ir.specs.pg_num.declared.width.Width.TheVariants.{W32};
ghost use Rattle.pg_ir.specs.declared.request.Request.{Request};
ghost use Rattle.pg_ir.specs.declared.request.TrapName.{TrapName};
ghost use Rattle.pg_ir.specs.declared.request.Request.TheVariants.{BarrierInit, Leave, Trylock};
ghost use Rattle.pg_run_objects.specs.declared.errno.TheConstants.{EBUSY, EINVAL, PTHREAD_BARRIER_SERIAL_THREAD};
ghost use Rattle.pg_run_objects.specs.declared.object.Entry.{Entry};
ghost use Rattle.pg_run_objects.specs.declared.object.Object.{Object};
ghost use Rattle.pg_run_objects.specs.Objects.{IsAscendingFrom, drop_object, is_free, object_at, put_object};
ghost use Rattle.pg_run_objects.specs.Sync.{Sync, applied, check, done, stage_of, was_last};

/// The object that was put at a place stands there, and what stands at other places stays.
#[tactic(auto, using(crate::proofs::ObjectMaps::object_put_same, crate::proofs::ObjectMaps::object_put_other))]
pub fn a_table_holds_what_was_put()
    ensures same { (b : ℕ) (o : Object) (es : List Entry) → object_at b (put_object b o es) ≡ Some o }
    ensures other { (b c : ℕ) (o : Object) (es : List Entry) → (b == c) ≡ false → object_at c (put_object b o es) ≡ object_at c es }
{}

/// Nothing stands at a place whose object was taken away, and what stands at other places stays.
#[tactic(auto, using(crate::proofs::ObjectMaps::object_drop_same, crate::proofs::ObjectMaps::object_drop_other))]
pub fn a_table_loses_what_was_dropped()
    ensures same { (b : ℕ) (es : List Entry) → IsAscendingFrom 0 es → object_at b (drop_object b es) ≡ None }
    ensures other { (b c : ℕ) (es : List Entry) → IsAscendingFrom 0 es → (b == c) ≡ false → object_at c (drop_object b es) ≡ object_at c es }
{}

/// A table in ascending order stays in that order.
#[tactic(auto, using(crate::proofs::ObjectTables::ascending_put, crate::proofs::ObjectTables::ascending_drop))]
pub fn a_table_stays_in_order()
    ensures put { (b : ℕ) (o : Object) (es : List Entry) → IsAscendingFrom 0 es → IsAscendingFrom 0 (put_object b o es) }
    ensures drop { (b : ℕ) (es : List Entry) → IsAscendingFrom 0 es → IsAscendingFrom 0 (drop_object b es) }
{}

/// A request that traps leaves the state as it was; one whose checks hold is done.
#[tactic(auto, using(crate::proofs::ObjectMaps::applied_trap, crate::proofs::ObjectMaps::applied_done))]
pub fn a_trap_changes_nothing()
    ensures trap { (y : Sync) (t : ℕ) (r : Request) (name : TrapName) → check y t r ≡ Some name → applied y t r ≡ (y, Err name) }
    ensures done { (y : Sync) (t : ℕ) (r : Request) → check y t r ≡ None → applied y t r ≡ ((done y t r).0, Ok (done y t r).1) }
{}

/// The numbers that pthread calls answer where they don't answer 0 (POSIX.1-2017; the numbers are those of Linux): of a
/// mutex that is held, of an argument that is none, and, as a number of 32 bits, the -1 of a barrier's last thread.
pub fn answers_are_these_numbers()
    ensures busy { EBUSY ≡ 16 }
    ensures invalid { EINVAL ≡ 22 }
    ensures serial { PTHREAD_BARRIER_SERIAL_THREAD ≡ 4294967295 }
    ensures minus_one { PTHREAD_BARRIER_SERIAL_THREAD ≡ residue W32 (negsuc 0) }
{}

/// A trylock of a mutex that is held answers 16, and of one that isn't 0; a barrier's init with the count 0 answers 22,
/// and with another 0; a barrier's wait answers 2 to the 32 less 1 to the last thread to arrive, and 0 to each other.
#[tactic(auto, unfolding(crate::specs::Sync::done))]
pub fn requests_have_these_answers()
    ensures held { (y : Sync) (t o : ℕ) → is_free (object_at o y.objects) ≡ false → (done y t (Trylock o)).1.value ≡ 16 }
    ensures free { (y : Sync) (t o : ℕ) → is_free (object_at o y.objects) ≡ true → (done y t (Trylock o)).1.value ≡ 0 }
    ensures no_threads { (y : Sync) (t o : ℕ) → (done y t (BarrierInit o 0)).1.value ≡ 22 }
    ensures threads { (y : Sync) (t o n : ℕ) → 0 < n → (done y t (BarrierInit o n)).1.value ≡ 0 }
    ensures last { (y : Sync) (t o : ℕ) → was_last (stage_of y t) ≡ true → (done y t (Leave o)).1.value ≡ 4294967295 }
    ensures not_last { (y : Sync) (t o : ℕ) → was_last (stage_of y t) ≡ false → (done y t (Leave o)).1.value ≡ 0 }
{}
