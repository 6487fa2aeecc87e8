//! What holds of a step's result: each law is the clause of a function that does nothing.

ghost use Rattle.std.specs.Prelude.{◌≡◌, ℕ, ◌<◌, List, Option, Bool, length, Some, None, true, false, slice_get};
ghost use Rattle.pg_ir.specs.declared.instr.Instr.{Instr};
ghost use Rattle.pg_ir.specs.declared.instr.Op.{Op};
ghost use Rattle.pg_ir.specs.Program.{NumberedProgram};
ghost use Rattle.pg_run_thread.specs.declared.action.Action.TheVariants as actions;
ghost use Rattle.pg_run_thread.specs.declared.thread_memory.ThreadMemory.{ThreadMemory};
ghost use Rattle.pg_run_thread.specs.LocalState.{LocalState};
ghost use Rattle.pg_run_thread.specs.Operands.{argument, operands_of};
ghost use Rattle.pg_run_thread.specs.Compute.{computed_if, computes};
ghost use Rattle.pg_run_thread.specs.Step.{after, if_local, next, on_top, op_action, result_number, stepped, top_registers};
ghost use Rattle.pg_run_thread.specs.Told.{id_of};

/// An instruction that only computes with its operands is a step by itself exactly where it has a result by
/// their values, and that result is the number that its register gets.
pub fn a_result_is_computed()
    ensures operation { (p : NumberedProgram) (r : ThreadMemory) (halfway : Bool) (rs : List (Option ℕ)) (depth used block answer : ℕ) (o : Op) → computes o ≡ true
        → computed_if o (argument p rs (operands_of o)) ≡ if_local (op_action p r halfway rs depth used block o) (result_number p r rs o answer) }
    ensures step { (p : NumberedProgram) (l : LocalState) (x : Instr) (n answer : ℕ) → l.begun ≡ true → 0 < length l.frames → slice_get p.instrs (id_of l) ≡ Some x
        → computes x.op ≡ true
        → computed_if x.op (argument p (top_registers l.frames) (operands_of x.op)) ≡ Some n
        → (next p l ≡ actions.Local) × (after p l answer ≡ record l { halfway = false; frames = on_top (λ f. stepped f x.result n) l.frames }) }
    ensures none { (p : NumberedProgram) (l : LocalState) (x : Instr) → l.begun ≡ true → 0 < length l.frames → slice_get p.instrs (id_of l) ≡ Some x → computes x.op ≡ true
        → computed_if x.op (argument p (top_registers l.frames) (operands_of x.op)) ≡ None → next p l ≡ actions.Local → ⊥ }
{}
