//! The footprints of the steps of a run, and what is asked where they are met.

ghost use Rattle.std.specs.Prelude.{◌≡◌, ◌<◌, ◌++◌, length, IfOk, IfSome, OnOk};
ghost use Rattle.std.specs.List.{AllByRecursion};
ghost use Rattle.pg_ir.specs.declared.instr.Instr.{Instr as AnInstr};
ghost use Rattle.pg_ir.specs.Program.{NumberedProgram};
ghost use Rattle.pg_precondition.specs.Nodes.{NodeList};
ghost use Rattle.pg_slice_rules.specs.Known.{Reference, Seen, Taken};
ghost use Rattle.pg_slice_decisions.specs.Steps.{taken_by};
ghost use Rattle.pg_law_demands.specs.pg_law_least.Footprints.{access_footprints, region_footprints};
ghost use Rattle.pg_slice_replay.specs.Kept.{landmark_at, step_count};
ghost use Rattle.pg_slice_passes.specs.Footprints.{owners_at};
ghost use Rattle.pg_slice_passes.specs.Rows.{AddsOne, AreRows, IsWithin, all_footprints, all_owners, asks_of_one, asks_of_rows};
ghost use Rattle.std.specs.Prelude.{◌∷◌, [], true, if◌then◌else◌};
ghost use Rattle.std.specs.Option.{option_to_list};
ghost use Rattle.pg_slice_rules.specs.Rules as rules;
ghost use Rattle.pg_slice_passes.specs.Passes.{IsAt, IsTimed};
ghost use Rattle.pg_slice_passes.specs.Timed.{AddsOf};
ghost use Rattle.pg_slice_passes.specs.Footprints.{met_asks, footprint_at, footprint_by};
ghost use Rattle.pg_slice_rules.specs.Freeable.{FreeAccess as AnAccess};
ghost use Rattle.std.specs.Prelude.{Some, map, slice_get};
ghost use Rattle.pg_slice_conflicts.specs.declared.footprint.Footprint.{Footprint as AFootprint};

use crate::byte_bounds::bounds;
use crate::rows::{
    Row, SLOTS, add_number, footprints_of, guess, is_kept, marks_of, remember, row_at,
};
use crate::state::SymbolicRun;
use pg_run_trace::{Step, StepKind};
use pg_schedule::Interval;
use pg_slice_conflicts::Footprint;
use pg_slice_decisions::DecisionSet;
use pg_slice_replay::ReferenceRun;
use pg_slice_rules::Decision;
use std::alloc::{AllocError, Global};

/// The step of a footprint, and whether it is a load or a store that is no event.
#[derive(Clone, Copy, PartialEq, Eq)]
pub struct Owner {
    pub step: usize,
    pub plain: bool,
}

/// The footprints of the steps of a run: those that are kept, and rows of them, one after another. Slots have the numbers of kept ones.
#[derive(Drop)]
pub(crate) struct Footprints {
    pub(crate) kept: Vec<Footprint>,
    pub(crate) rows: Vec<Row>,
    slots: Vec<usize>,
}

/// A step of a run: what it did, its interval, and its number.
#[derive(Clone, Copy)]
pub(crate) struct TimedStep<'a> {
    pub step: &'a Step,
    pub interval: Interval,
    pub r: &'a ReferenceRun,
    pub n: usize,
}

/// The footprint of the bounds of a pointer; the interval's ends are below two to the 32.
fn footprint(at: &TimedStep, word: u64, writes: bool, of_region: bool) -> Footprint
    requires low { at.now.interval.low < 4294967296 }
    requires high { at.now.interval.high < 4294967296 }
    ensures { result ≡ footprint_at at.now.step.now at.now.interval word writes of_region }
{
    let f = bounds(word);
    Footprint {
        thread: at.step.thread,
        low: at.interval.low as u32,
        high: at.interval.high as u32,
        start: f.start,
        bytes: f.bytes,
        writes,
        of_region,
    }
}

impl Footprints {
    /// No footprints.
    pub(crate) fn new(alloc: Global) -> Result<Footprints, AllocError>
        ensures kept { IfOk result (λ f. f.kept.items ≡ []) }
        ensures rows { IfOk result (λ f. f.rows.items ≡ []) }
    {
        let slots = vec![in alloc; 0; SLOTS]?;
        Ok(Footprints {
            kept: Vec::new(alloc),
            rows: Vec::new(alloc),
            slots,
        })
    }

    /// One footprint more.
    fn push(&mut self, footprint: Footprint, owner: Owner) -> Result<(), AllocError>
        requires { AreRows self.old }
        ensures { OnOk result (AddsOne footprint owner self.old self.new) }
    {
        let number = guess(
            self.kept.as_slice(),
            self.rows.as_slice(),
            self.slots.as_slice(),
            footprint,
        );
        if is_kept(self.kept.as_slice(), number, footprint) {
            add_number(&mut self.rows, owner, number)?;
            return Ok(());
        }
        let number = self.kept.len();
        remember(self.slots.as_mut_slice(), footprint, number);
        self.kept.push(footprint)?;
        add_number(&mut self.rows, owner, number)?;
        Ok(())
    }

    /// The footprint of the bounds of a pointer more.
    fn note(
        &mut self,
        at: &TimedStep,
        word: u64,
        writes: bool,
        of_region: bool,
        owner: Owner,
    ) -> Result<(), AllocError>
        requires rows { AreRows self.old }
        requires low { at.now.interval.low < 4294967296 }
        requires high { at.now.interval.high < 4294967296 }
        ensures timed { OnOk result (AddsOf at.now.step.now at.now.interval self.old self.new) }
        ensures footprints { OnOk result (all_footprints self.new ≡ all_footprints self.old ++ footprint_at at.now.step.now at.now.interval word writes of_region ∷ []) }
        ensures owners { OnOk result (all_owners self.new ≡ all_owners self.old ++ owner ∷ []) }
    {
        self.push(footprint(at, word, writes, of_region), owner)?;
        Ok(())
    }

    /// The footprints of a live step: of its access, and of its region.
    pub(crate) fn add(&mut self, at: &TimedStep) -> Result<(), AllocError>
        requires rows { AreRows self.old }
        requires number { at.now.n < step_count at.now.r.now }
        requires low { at.now.interval.low < 4294967296 }
        requires high { at.now.interval.high < 4294967296 }
        ensures timed { OnOk result (AddsOf at.now.step.now at.now.interval self.old self.new) }
        ensures footprints { OnOk result ((x : Seen) → IsTimed x at.now.step.now at.now.interval → x.live ≡ true → IfSome (landmark_at at.now.r.now at.now.n) (λ l. x.region ≡ l.region)
            → all_footprints self.new ≡ all_footprints self.old ++ (access_footprints x ++ region_footprints x)) }
        ensures owners { OnOk result ((x : Seen) → IsTimed x at.now.step.now at.now.interval → x.live ≡ true → x.number ≡ at.now.n
            → IfSome (landmark_at at.now.r.now at.now.n) (λ l. x.region ≡ l.region)
            → all_owners self.new ≡ all_owners self.old ++ owners_at x) }
    {
        let owner = Owner {
            step: at.n,
            plain: is_plain(&at.step.kind),
        };
        self.add_access(at, owner)?;
        self.add_region(at, owner)?;
        Ok(())
    }

    /// The footprint of the access of a live step, if it has one.
    fn add_access(&mut self, at: &TimedStep, owner: Owner) -> Result<(), AllocError>
        requires rows { AreRows self.old }
        requires low { at.now.interval.low < 4294967296 }
        requires high { at.now.interval.high < 4294967296 }
        ensures timed { OnOk result (AddsOf at.now.step.now at.now.interval self.old self.new) }
        ensures footprints { OnOk result ((x : Seen) → IsTimed x at.now.step.now at.now.interval → x.live ≡ true
            → all_footprints self.new ≡ all_footprints self.old ++ access_footprints x) }
        ensures owners { OnOk result ((x : Seen) → IsTimed x at.now.step.now at.now.interval → x.live ≡ true
            → all_owners self.new ≡ all_owners self.old ++ map (λ (f : AFootprint). owner) (access_footprints x)) }
    {
        if let Some(a) = at.step.access() {
            self.note(at, a.pointer, a.writes, false, owner)?;
        }
        Ok(())
    }

    /// The footprint of an access of a region, if there is one with this number.
    fn add_free(&mut self, at: &TimedStep, k: usize, owner: Owner) -> Result<(), AllocError>
        requires rows { AreRows self.old }
        requires low { at.now.interval.low < 4294967296 }
        requires high { at.now.interval.high < 4294967296 }
        ensures timed { OnOk result (AddsOf at.now.step.now at.now.interval self.old self.new) }
        ensures footprints { IfSome (landmark_at at.now.r.now at.now.n)
            (λ l. IfSome l.region (λ f. OnOk result ((x : Seen) (a : AnAccess) → IsTimed x at.now.step.now at.now.interval → slice_get f.accesses k ≡ Some a
            → all_footprints self.new ≡ all_footprints self.old ++ footprint_by x a ∷ []))) }
        ensures owners { IfSome (landmark_at at.now.r.now at.now.n) (λ l. IfSome l.region (λ f. OnOk result ((a : AnAccess) → slice_get f.accesses k ≡ Some a
            → all_owners self.new ≡ all_owners self.old ++ owner ∷ []))) }
    {
        if let Some(a) = at.r.access(at.n, k) {
            self.note(at, a.last, a.writes, true, owner)?;
        }
        Ok(())
    }

    /// The footprints of the region of a live step, which is free where it has one.
    fn add_region(&mut self, at: &TimedStep, owner: Owner) -> Result<(), AllocError>
        requires rows { AreRows self.old }
        requires number { at.now.n < step_count at.now.r.now }
        requires low { at.now.interval.low < 4294967296 }
        requires high { at.now.interval.high < 4294967296 }
        ensures timed { OnOk result (AddsOf at.now.step.now at.now.interval self.old self.new) }
        ensures footprints { OnOk result ((x : Seen) → IsTimed x at.now.step.now at.now.interval → x.live ≡ true → IfSome (landmark_at at.now.r.now at.now.n) (λ l. x.region ≡ l.region)
            → all_footprints self.new ≡ all_footprints self.old ++ region_footprints x) }
        ensures owners { OnOk result ((x : Seen) → IsTimed x at.now.step.now at.now.interval → x.live ≡ true → IfSome (landmark_at at.now.r.now at.now.n) (λ l. x.region ≡ l.region)
            → all_owners self.new ≡ all_owners self.old ++ map (λ (f : AFootprint). owner) (region_footprints x)) }
    {
        if !at.r.is_free(at.n) {
            return Ok(());
        }
        for k in 0..at.r.access_count(at.n) {
            self.add_free(at, k, owner)?;
        }
        Ok(())
    }
}

/// The footprints of a step, where it is live.
pub(crate) fn add_footprints(
    footprints: &mut Footprints,
    s: &SymbolicRun,
    at: &TimedStep,
) -> Result<(), AllocError>
    requires rows { AreRows footprints.old }
    requires number { at.now.n < step_count at.now.r.now }
    requires low { at.now.interval.low < 4294967296 }
    requires high { at.now.interval.high < 4294967296 }
    ensures timed { OnOk result (AddsOf at.now.step.now at.now.interval footprints.old footprints.new) }
    ensures footprints { OnOk result ((R : Reference) (d : Taken) (p : NumberedProgram) (ns : NodeList) (i : AnInstr) (y : Seen) → IsAt R d p ns s.now at.now.r.now at.now.n at.now.step.now i y
        → IsTimed y at.now.step.now at.now.interval
        → all_footprints footprints.new ≡ all_footprints footprints.old ++ (access_footprints y ++ region_footprints y)) }
    ensures owners { OnOk result ((R : Reference) (d : Taken) (p : NumberedProgram) (ns : NodeList) (i : AnInstr) (y : Seen) → IsAt R d p ns s.now at.now.r.now at.now.n at.now.step.now i y
        → IsTimed y at.now.step.now at.now.interval
        → all_owners footprints.new ≡ all_owners footprints.old ++ owners_at y) }
{
    if !s.is_live(at.step.thread.0 as usize) {
        return Ok(());
    }
    footprints.add(at)?;
    Ok(())
}

/// Whether a step is a load or a store that is no event.
fn is_plain(kind: &StepKind) -> bool
    ensures { result ≡ rules.is_plain kind.now }
{
    match kind {
        StepKind::Access(a) => !a.event,
        _ => false,
    }
}

/// What a footprint asks that is met, if it asks for more.
fn met_ask(d: &DecisionSet, of_region: bool, owner: Owner) -> Option<Decision>
    ensures { option_to_list result ≡ met_asks (taken_by d.now) of_region owner }
{
    if of_region {
        if d.is_pinned(owner.step) {
            None
        } else {
            Some(Decision::Pinned(owner.step))
        }
    } else if owner.plain && !d.is_exact(owner.step) {
        Some(Decision::Exact(owner.step))
    } else {
        None
    }
}

/// Adds what a footprint asks, if it is met.
fn ask_if_met(
    missing: &mut Vec<Decision>,
    d: &DecisionSet,
    of_region: bool,
    owner: Owner,
    mark: bool,
) -> Result<(), AllocError>
    ensures { OnOk result (missing.new.items ≡ missing.old.items ++ (if mark then met_asks (taken_by d.now) of_region owner else [])) }
{
    if mark {
        if let Some(x) = met_ask(d, of_region, owner) {
            missing.push(x)?;
        }
    }
    Ok(())
}

/// Adds what footprints of a step ask, by which of them are met.
fn ask_row(
    missing: &mut Vec<Decision>,
    d: &DecisionSet,
    owner: Owner,
    footprints: &[Footprint],
    marks: &[bool],
) -> Result<(), AllocError>
    requires { length marks.now ≡ length footprints.now }
    ensures { OnOk result (missing.new.items ≡ missing.old.items ++ asks_of_one (taken_by d.now) owner footprints.now marks.now) }
{
    for i in 0..footprints.len() {
        ask_if_met(missing, d, footprints[i].of_region, owner, marks[i])?;
    }
    Ok(())
}

/// Adds what the fourth and the fifth rule ask, by which of the kept footprints are met.
pub(crate) fn ask_met(
    missing: &mut Vec<Decision>,
    d: &DecisionSet,
    kept: &[Footprint],
    rows: &[Row],
    marks: &[bool],
) -> Result<(), AllocError>
    requires rows { AllByRecursion (IsWithin (length kept.now)) rows.now }
    requires marks { length marks.now ≡ length kept.now }
    ensures { OnOk result (missing.new.items ≡ missing.old.items ++ asks_of_rows (taken_by d.now) kept.now marks.now rows.now) }
{
    for i in 0..rows.len() {
        let row = row_at(rows, i);
        let footprints = footprints_of(kept, row);
        let met = marks_of(marks, row);
        ask_row(missing, d, row.owner, footprints, met)?;
    }
    Ok(())
}
