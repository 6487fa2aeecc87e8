//! Each program can run on each input.
ghost use Rattle.std.specs.Prelude.{ℕ, ◌<◌, ◌^◌, length, slice_index};
ghost use Rattle.pg_law_runs.specs.pg_law_effects.Reached.{HoldBytes};
ghost use Rattle.pg_law_runs.specs.Cuts.{CanRun};

use pg_ir::Program;

/// Each byte has 8 bits.
fn bytes_are_small(bytes: &[u8])
    ensures { (i : ℕ) → slice_index bytes.now i < 2 ^ 8 }
{
    // Called for the proof: see docs/CONTRIBUTING.md.
    let _length = bytes.len();
}

/// A program's globals hold bytes.
fn globals_hold_bytes(p: &Program)
    ensures { HoldBytes p.now.globals }
{
    let mut left = p.global_count();
    while left > 0 {
        left -= 1;
        let global = p.global(left);
        bytes_are_small(global.bytes.as_slice());
    }
}

/// The length of an input has 64 bits.
fn input_is_short(input: &[i64])
    ensures { length input.now < 2 ^ 64 }
{
    // Called for the proof: see docs/CONTRIBUTING.md.
    let _length = input.len();
}

/// A program can run on an input, as `record` and `from_turns` ask: each can on each.
pub fn can_run(p: &Program, input: &[i64])
    ensures { CanRun p.now input.now }
{
    p.facts();
    globals_hold_bytes(p);
    input_is_short(input);
}
