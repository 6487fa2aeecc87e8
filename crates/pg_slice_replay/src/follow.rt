//! Root paths, followed at a step.

ghost use Rattle.std.specs.Prelude.{◌≡◌, ◌≤◌, ◌<◌, [], length, take, option_map, pos, true, Some, None, IfOk};
ghost use Rattle.pg_num.specs.Pointers.{moved_by};
ghost use Rattle.pg_run_memory.specs.Memory.{read};
ghost use Rattle.pg_region_paths.specs.FollowedPaths.{followed_from, root_value};
ghost use Rattle.pg_region_paths.specs.Paths.{offsets_of};
ghost use Rattle.pg_law_effects.specs.pg_run.Readers.{register_of};
ghost use Rattle.pg_slice_replay.specs.Paths.{Adds, IsLoaded, accesses_in, accesses_with, along, cell_of, followed_in};

use crate::at::{At, is_same, place_at, rooted_at};
use pg_ir::{Program, ThreadNo};
use pg_law_effects::pg_run::Machine;
use pg_num::layout::GRANULE_BYTES;
use pg_num::{move_by, place, unpack};
use pg_region_accesses::Rooted;
use pg_region_paths::{Loads, Root, RootPath};
use std::alloc::AllocError;

/// The value of a root of a thread's present call.
fn root_value(machine: &Machine, p: &Program, t: ThreadNo, root: Root) -> Option<u64>
    ensures { result ≡ root_value p.now (register_of machine.now.state t.0) root }
{
    match root {
        Root::Global(g) => p.global_pointer(g),
        Root::Const(n) => Some(n),
        Root::Register(r) => machine.register(t, r),
        Root::Param(_) => None,
    }
}

/// The word moved by so many bytes, which count modulo two to the 21.
fn move_word(word: u64, offset: u64) -> u64
    ensures { result ≡ moved_by word (pos offset) }
{
    move_by(word, (offset % 0x20_0000) as i64)
}

/// The place of the first of the bytes that a load reads, so many bytes from a pointer, where it doesn't trap.
pub fn cell_start(pointer: u64, offset: u64) -> u32
    ensures { result ≡ (cell_of pointer offset).start }
{
    let cell = unpack(move_word(pointer, offset));
    GRANULE_BYTES * cell.start + cell.offset
}

/// What a load of eight bytes reads, so many bytes from a pointer; none where it would trap.
fn load(machine: &Machine, word: u64, offset: u64) -> Option<u64>
    ensures { IsLoaded (read machine.now.state.memory) word offset result }
{
    match place(move_word(word, offset), 8) {
        Ok(at) => Some(machine.read(at)),
        Err(_) => None,
    }
}

/// The offsets of the loads of a path, four at most, and how many there are.
pub fn offsets(loads: Loads) -> ([u64; 4], usize)
    ensures offsets { take result.1 result.0 ≡ offsets_of loads }
    ensures count { result.1 ≡ length (offsets_of loads) }
    ensures few { result.1 ≤ 4 }
{
    match loads {
        Loads::Never => ([0; 4], 0),
        Loads::Once(a) => ([a, 0, 0, 0], 1),
        Loads::Twice(a, b) => ([a, b, 0, 0], 2),
        Loads::Thrice(a, b, c) => ([a, b, c, 0], 3),
        Loads::FourTimes(a, b, c, d) => ([a, b, c, d], 4),
    }
}

/// The loads at these offsets from a pointer on, if none of them traps.
fn follow_from(machine: &Machine, word: u64, offsets: &[u64]) -> Option<At>
    requires { length offsets.now ≤ 4 }
    ensures { followed_from (read machine.now.state.memory) word offsets.now ≡ option_map (along offsets.now) result }
{
    let mut pointers: [u64; 4] = [0; 4];
    let mut last = word;
    for i in 0..offsets.len() {
        pointers[i] = last;
        last = load(machine, last, offsets[i])?;
    }
    Some(At { pointers, last })
}

/// A path followed by the registers of a thread's present call and by memory, if its root is set and no load traps.
fn follow(machine: &Machine, p: &Program, t: ThreadNo, path: RootPath) -> Option<At>
    ensures { followed_in p.now machine.now.state t.0 path ≡ option_map (along (offsets_of path.loads)) result }
{
    let word = root_value(machine, p, t, path.root)?;
    let (offsets, count) = offsets(path.loads);
    follow_from(machine, word, &offsets[..count])
}

/// Adds where the paths of accesses lead, and gives whether each path can be followed.
pub(crate) fn follow_each(
    machine: &Machine,
    p: &Program,
    t: ThreadNo,
    accesses: &[Rooted],
    ats: &mut Vec<At>,
) -> Result<bool, AllocError>
    ensures { IfOk result (λ b. Adds p.now machine.now.state t.0 accesses.now ats.old.items b ats.new.items) }
{
    for i in 0..accesses.len() {
        let access = rooted_at(accesses, i);
        match follow(machine, p, t, access.path) {
            Some(at) => ats.push(at)?,
            None => return Ok(false),
        }
    }
    Ok(true)
}

/// Whether a word is there and is this one.
fn is_word(found: Option<u64>, word: u64) -> bool
    ensures { result ≡ true → found ≡ Some word }
{
    match found {
        Some(n) => n == word,
        None => false,
    }
}

/// Whether a root has a value and is this word.
fn is_root(machine: &Machine, p: &Program, t: ThreadNo, root: Root, word: u64) -> bool
    ensures { result ≡ true → root_value p.now (register_of machine.now.state t.0) root ≡ Some word }
{
    let found = root_value(machine, p, t, root);
    is_word(found, word)
}

/// Whether a path doesn't load.
fn never_loads(loads: Loads) -> bool
    ensures { result ≡ true → offsets_of loads ≡ [] }
{
    match loads {
        Loads::Never => true,
        _ => false,
    }
}

/// Whether a path can be followed and leads there.
fn leads_to(machine: &Machine, p: &Program, t: ThreadNo, path: RootPath, at: &At) -> bool
    ensures { result ≡ true → followed_in p.now machine.now.state t.0 path ≡ Some (along (offsets_of path.loads) at.now) }
{
    if never_loads(path.loads) {
        return is_root(machine, p, t, path.root, at.last);
    }
    let found = follow(machine, p, t, path);
    is_same(found, Some(*at))
}

/// Whether the path of each access can be followed and leads to the place with its number.
pub(crate) fn lead_to(
    machine: &Machine,
    p: &Program,
    t: ThreadNo,
    accesses: &[Rooted],
    ats: &[At],
) -> bool
    requires { length ats.now ≡ length accesses.now }
    ensures { result ≡ true → accesses_in p.now machine.now.state t.0 accesses.now ≡ Some (accesses_with accesses.now ats.now) }
{
    for i in 0..accesses.len() {
        let access = rooted_at(accesses, i);
        let at = place_at(ats, i);
        let leads = leads_to(machine, p, t, access.path, &at);
        if !leads {
            return false;
        }
    }
    true
}
