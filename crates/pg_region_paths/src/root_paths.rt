//! The root paths of a function's registers.

ghost use Rattle.std.specs.Prelude.{◌≡◌, ◌<◌, ◌==◌, ℕ, length, IfOk, OnOk, IfSome, Some, if◌then◌else◌};
ghost use Rattle.std.specs.List.{AllByRecursion};
ghost use Rattle.pg_ir.specs.pg_num.Numbers.{modulus};
ghost use Rattle.pg_ir.specs.pg_num.Pointers.{moved_by};
ghost use Rattle.pg_region_paths.specs.RootPaths.{root_at, set_in, path_in, count_in};
ghost use Rattle.pg_region_paths.specs.Registers.{value_path, path_by, is_register, has_pointer, constant_bytes, added_index, added_indices};
ghost use Rattle.pg_region_paths.specs.Fits.{FitsConstant, FitsGep};

use crate::entry::Entry;
use crate::path::{Path, Root};
use pg_ir::pg_num::{Width, move_by, move_by_index};
use pg_ir::{Index, Instr, Op, Scalar, Scale, Value};
use std::alloc::{AllocError, Global};
use std::marker::Model;

/// The root paths of a function's registers, within a set of basic blocks, behind those instructions of a block that
/// were passed.
#[derive(Drop)]
pub struct RootPaths {
    is_set: Vec<bool>,
    entries: Vec<Entry>,
    turn: u64,
}

impl Model for RootPaths {
    ghost use Rattle.pg_region_paths.specs.RootPaths.{KnownPaths, ArePast};

    ghost Value = { KnownPaths };

    ghost view = { λ k. record { is_set = k.is_set.items; entries = k.entries.items; turn = k.turn } };

    ghost invariant = { λ k. ArePast k.entries.items k.turn };
}

/// An offset moved by a constant index of a `getelementptr`.
fn add_constant(offset: u64, width: Width, scale: Scale, n: u64) -> u64
    requires { n < modulus width }
    ensures { result ≡ moved_by offset (constant_bytes width scale n) }
{
    match scale {
        Scale::Times(bytes) => move_by_index(offset, width, n, bytes),
        Scale::Field(bytes) => move_by(offset, bytes as i64),
    }
}

/// An offset moved by an index, if both are constant.
fn add_index(offset: Option<u64>, index: Index) -> Option<u64>
    requires { FitsConstant index }
    ensures { result ≡ added_index offset index.width index.scale index.value }
{
    match (offset, index.value) {
        (Some(offset), Value::Const(n)) => {
            Some(add_constant(offset, index.width, index.scale, n))
        }
        _ => None,
    }
}

/// An offset moved by the indices, if all are constant.
fn add_indices(offset: Option<u64>, indices: &[Index]) -> Option<u64>
    requires { AllByRecursion FitsConstant indices.now }
    ensures { result ≡ added_indices offset indices.now }
{
    let mut added = offset;
    for index in indices {
        added = add_index(added, *index);
    }
    added
}

/// Whether a register is a pointer.
fn is_pointer(types: &[Scalar], r: u32) -> bool
    ensures { result ≡ has_pointer types.now (Some r) }
{
    match types.get(r as usize) {
        Some(Scalar::Ptr) => true,
        _ => false,
    }
}

impl RootPaths {
    /// The registers of a function, whose blocks in the set set those of `is_set`.
    #[tactic(auto, using(crate::proofs::Entries::past_none))]
    pub fn new(alloc: Global, is_set: Vec<bool>) -> Result<RootPaths, AllocError>
        ensures known { IfOk result (λ k. (k.is_set ≡ is_set.items) × (count_in k ≡ length is_set.items)) }
    {
        let unset = Entry {
            turn: 0,
            path: None,
        };
        let entries = vec![in alloc; unset; is_set.len()]?;
        Ok(RootPaths {
            is_set,
            entries,
            turn: 1,
        })
    }

    /// Enters a block, none of whose instructions was passed yet. Want of memory comes after two to the 64 blocks.
    #[tactic(auto, using(crate::proofs::Entries::past_next, crate::proofs::Entries::entered))]
    pub fn enter(&mut self) -> Result<(), AllocError>
        ensures is_set { self.new.is_set ≡ self.old.is_set }
        ensures count { count_in self.new ≡ count_in self.old }
        ensures paths { OnOk result ((r : ℕ) → path_in self.new r ≡ root_at (set_in self.old) r) }
    {
        if self.turn == u64::MAX {
            return Err(AllocError);
        }
        self.turn += 1;
        Ok(())
    }

    /// The path of a register.
    fn register(&self, r: u32) -> Option<Path>
        ensures path { result ≡ path_in self.now r }
    {
        if let Some(entry) = self.entries.get(r as usize) {
            if entry.turn == self.turn {
                return entry.path;
            }
        }
        self.root(r)
    }

    /// The path of a register that the block doesn't set.
    fn root(&self, r: u32) -> Option<Path>
        ensures path { result ≡ root_at (set_in self.now) r }
    {
        match self.is_set.get(r as usize) {
            Some(true) => None,
            _ => Some(Path::at(Root::Register(r))),
        }
    }

    /// Puts the path of a register that the block sets.
    #[tactic(auto, using(crate::proofs::Entries::past_set, crate::proofs::Entries::put))]
    fn put(&mut self, r: u32, path: Option<Path>)
        requires { r < count_in self.old }
        ensures is_set { self.new.is_set ≡ self.old.is_set }
        ensures count { count_in self.new ≡ count_in self.old }
        ensures paths { (s : ℕ) → path_in self.new s ≡ (if r == s then path else path_in self.old s) }
    {
        let turn = self.turn;
        self.entries[r as usize] = Entry { turn, path };
    }

    /// The path of an operand.
    pub fn path(&self, value: Value) -> Option<Path>
        ensures path { result ≡ value_path (path_in self.now) value }
    {
        match value {
            Value::Register(r) => self.register(r),
            Value::Const(n) => Some(Path::at(Root::Const(n))),
            Value::Global(g) => Some(Path::at(Root::Global(g))),
            Value::Function(_) => None,
        }
    }

    /// The path of what an operation sets, `is_pointer` where that is a pointer.
    fn path_by(&self, is_pointer: bool, op: &Op) -> Option<Path>
        requires { FitsGep op.now }
        ensures path { result ≡ path_by (path_in self.now) is_pointer op.now }
    {
        match op {
            Op::Gep { base, indices } => {
                let path = self.path(*base)?;
                Some(Path {
                    root: path.root,
                    loads: path.loads,
                    added: add_indices(path.added, indices.as_slice()),
                })
            }
            Op::Load { from, .. } if is_pointer => self.path(*from)?.load(),
            _ => None,
        }
    }

    /// Passes an instruction of a function with registers of these types.
    pub fn pass(&mut self, types: &[Scalar], instr: &Instr)
        requires result { IfSome instr.now.result (λ r. r < count_in self.old) }
        requires fits { FitsGep instr.now.op }
        ensures is_set { self.new.is_set ≡ self.old.is_set }
        ensures count { count_in self.new ≡ count_in self.old }
        ensures paths { (s : ℕ) → path_in self.new s ≡
            (if is_register instr.now.result s then path_by (path_in self.old) (has_pointer types.now instr.now.result) instr.now.op else path_in self.old s) }
    {
        if let Some(r) = instr.result {
            let is_pointer = is_pointer(types, r);
            let path = self.path_by(is_pointer, &instr.op);
            self.put(r, path);
        }
    }
}
