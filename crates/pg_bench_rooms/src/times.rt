//! What a part of some runs takes, in nanoseconds.

ghost use Rattle.std.specs.Prelude.{◌≡◌, ◌<◌, ◌≤◌, ◌+◌, ◌-◌, ◌/◌, ◌^◌};
ghost use Rattle.std.specs.Time.{instant_nanos};

use std::time::Instant;

/// What a part takes: at least, in all, and how often it was taken.
#[derive(Clone, Copy)]
pub(crate) struct Part {
    pub(crate) least: u64,
    sum: u64,
    count: u64,
}

/// The nanoseconds between two moments, as far as 64 bits hold them.
fn between(start: Instant, end: Instant) -> u64
    ensures { instant_nanos end - instant_nanos start < 2 ^ 64 → result ≡ instant_nanos end - instant_nanos start }
{
    let nanos = end.duration_since(start).as_nanos();
    if nanos < 18_446_744_073_709_551_616 {
        nanos as u64
    } else {
        u64::MAX
    }
}

impl Part {
    /// It was not taken so far.
    fn none() -> Part
        ensures sum { result.sum ≡ 0 }
        ensures count { result.count ≡ 0 }
    {
        Part {
            least: u64::MAX,
            sum: 0,
            count: 0,
        }
    }

    /// It was taken once more, and took so long.
    fn take(&mut self, nanos: u64)
        ensures least { (self.new.least ≤ nanos) × (self.new.least ≤ self.old.least) }
        ensures sum { self.old.sum + nanos < 2 ^ 64 → self.new.sum ≡ self.old.sum + nanos }
        ensures count { self.old.count + 1 < 2 ^ 64 → self.new.count ≡ self.old.count + 1 }
    {
        self.least = self.least.min(nanos);
        self.sum = self.sum.saturating_add(nanos);
        self.count = self.count.saturating_add(1);
    }

    /// It was taken once more, between these moments.
    pub(crate) fn add(&mut self, start: Instant, end: Instant)
        ensures sum { self.old.sum + (instant_nanos end - instant_nanos start) < 2 ^ 64
            → self.new.sum ≡ self.old.sum + (instant_nanos end - instant_nanos start) }
        ensures count { self.old.count + 1 < 2 ^ 64 → self.new.count ≡ self.old.count + 1 }
    {
        self.take(between(start, end));
    }

    /// What it takes in the mean, and 0 where it was not taken.
    pub(crate) fn mean(&self) -> u64
        ensures { 0 < self.now.count → result ≡ self.now.sum / self.now.count }
    {
        self.sum / self.count.max(1)
    }
}

/// What the parts of some runs take.
#[derive(Clone, Copy)]
pub(crate) struct Times {
    pub(crate) ready: Part,
    pub(crate) one_by_one: Part,
    pub(crate) together: Part,
    pub(crate) parking: Part,
    pub(crate) guided: Part,
}

impl Times {
    /// Of no run.
    pub(crate) fn none() -> Times {
        Times {
            ready: Part::none(),
            one_by_one: Part::none(),
            together: Part::none(),
            parking: Part::none(),
            guided: Part::none(),
        }
    }
}
