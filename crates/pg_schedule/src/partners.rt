//! The first step that races with a step.

ghost use Rattle.std.specs.Prelude.{◌≡◌, ◌<◌, ◌≤◌, ◌&&◌, length, slice_get};
ghost use Rattle.std.specs.List.{find, position_from};
ghost use Rattle.pg_law_threads.specs.Intervals.{Timed};
ghost use Rattle.pg_schedule.specs.Intervals.{intervals_of};
ghost use Rattle.pg_schedule.specs.Unordered.{timed_of};
ghost use Rattle.pg_schedule.specs.declared.interval.Turns.TheVariants as turns;
ghost use Rattle.pg_schedule.specs.Links.{AreLinks, AreListed, accesses_byte, is_unordered_at, lesser, linked, numbers_of};
ghost use Rattle.pg_schedule.specs.Partners.{partner_of};
ghost use Rattle.pg_schedule.specs.Touches.{any_byte};
ghost use Rattle.pg_run_trace.specs.Races as races;
ghost use Rattle.pg_run_trace.specs.Steps.{range_of};
ghost use Rattle.pg_run_trace.specs.declared.step.Step.{Step as AStep};

use crate::interval::Interval;
use crate::links::{Links, byte_of};
use crate::pairs::race_with;
use crate::unordered::{TimedStep, is_unordered, timed};
use pg_ir::InstrId;
use pg_run_trace::{Access, Race, Trace};

/// The lesser of the numbers that there are.
fn lesser(a: Option<usize>, b: Option<usize>) -> Option<usize>
    ensures { result ≡ lesser a b }
{
    match (a, b) {
        (Some(n), Some(m)) => Some(n.min(m)),
        (Some(n), None) => Some(n),
        (None, b) => b,
    }
}

/// The first of the steps from a link on that races with `x`.
fn first_linked(
    t: &Trace,
    intervals: &[Interval],
    links: &Links,
    from: usize,
    x: &TimedStep,
) -> Option<usize>
    requires intervals { intervals.now ≡ intervals_of turns.Asked t.now.steps }
    requires links { AreLinks (length t.now.steps) links.now.links.items }
    requires from { from ≤ length links.now.links.items }
    ensures { result ≡ find (is_unordered_at (races.timed_by races.asked t.now.steps) (timed_of x.now)) (linked links.now.links.items from) }
{
    let mut at = from;
    while at > 0 {
        let link = links.at(at);
        let y = timed(t, intervals, link.step);
        if is_unordered(x, &y) {
            return Some(link.step);
        }
        at = link.next;
    }
    None
}

/// The first step that races with `x`, of those that access a byte of this access.
fn first_at(
    t: &Trace,
    intervals: &[Interval],
    links: &Links,
    access: Access,
    x: &TimedStep,
) -> Option<usize>
    requires intervals { intervals.now ≡ intervals_of turns.Asked t.now.steps }
    requires links { AreListed (length t.now.steps) links.now (λ b. numbers_of (accesses_byte b) 0 t.now.steps) }
    ensures { result ≡ position_from (λ (y : Timed AStep). any_byte (λ b. accesses_byte b y.did && races.is_unordered (timed_of x.now) y) (range_of access).start access.bytes) 0
        (races.timed_by races.asked t.now.steps) }
{
    let mut first = None;
    for k in 0..access.bytes {
        let from = links.head(byte_of(access, k));
        first = lesser(first, first_linked(t, intervals, links, from, x));
    }
    first
}

/// The number of the first step that races with step `i`, if there is one.
fn partner(t: &Trace, intervals: &[Interval], links: &Links, i: usize) -> Option<usize>
    requires within { i < length t.now.steps }
    requires intervals { intervals.now ≡ intervals_of turns.Asked t.now.steps }
    requires links { AreListed (length t.now.steps) links.now (λ b. numbers_of (accesses_byte b) 0 t.now.steps) }
    ensures { result ≡ partner_of (races.timed_by races.asked t.now.steps) (slice_get (races.timed_by races.asked t.now.steps) i) }
{
    let x = timed(t, intervals, i);
    match x.step.access() {
        Some(access) => first_at(t, intervals, links, access, &x),
        None => None,
    }
}

/// The race of an instruction with this first racing load or store, if it has one.
pub(crate) fn race_linked(
    t: &Trace,
    intervals: &[Interval],
    links: &Links,
    id: InstrId,
    first: Option<usize>,
) -> Option<Race>
    requires intervals { intervals.now ≡ intervals_of turns.Asked t.now.steps }
    requires links { AreListed (length t.now.steps) links.now (λ b. numbers_of (accesses_byte b) 0 t.now.steps) }
    requires first { first ≡ position_from (races.is_racing (races.timed_by races.asked t.now.steps) id.0) 0 (races.timed_by races.asked t.now.steps) }
    ensures { result ≡ races.race_in (races.timed_by races.asked t.now.steps) id.0 }
{
    match first {
        Some(step) => race_with(id, step, partner(t, intervals, links, step)),
        None => None,
    }
}
