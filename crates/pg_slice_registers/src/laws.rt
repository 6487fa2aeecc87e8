//! Laws on what is known of threads: each is the clause of a function that does nothing.

ghost use Rattle.std.specs.Prelude.{◌≡◌, ◌<◌, [], ℕ, List, length, slice_index_or, slice_set};
ghost use Rattle.pg_precondition.specs.Nodes.{NodeList};
ghost use Rattle.pg_slice_rules.specs.Extents.{Extent};
ghost use Rattle.pg_slice_rules.specs.SymbolicValues.{Symbolic};
ghost use Rattle.pg_slice_rules.specs.Known.{on_thread};
ghost use Rattle.pg_slice_values.specs.SymbolicNodes.{Grew};
ghost use Rattle.pg_slice_registers.specs.SymbolicRegisterNodes.{CallList, calls_by};
ghost use Rattle.pg_slice_registers.specs.Threads.{AreThreads, threads_by};

/// Where the calls of one thread change and nodes are added, what is known of the threads changes at that one alone.
pub fn one_thread_changes()
    ensures { (old new : NodeList) (f : List (List Symbolic) → List (List Symbolic)) (t : ℕ) (threads : List CallList) (calls : CallList) (extents : List (List Extent))
        → Grew old new → AreThreads (length old) threads → length extents ≡ length threads → t < length threads
        → calls_by new calls ≡ f (calls_by old (slice_index_or threads t [])) → threads_by new (slice_set threads t calls) extents ≡ on_thread f t (threads_by old threads extents) }
{}
