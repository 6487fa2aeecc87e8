//! The parts of what recording a line takes, and of what using an entry again takes, in nanoseconds.
ghost use Rattle.std.specs.Prelude.{◌≡◌, ◌<◌, ◌⊎◌, ◌+◌, ◌-◌, ◌*◌, ◌/◌, ◌^◌, nat_lt};
ghost use Rattle.std.specs.Time.{instant_nanos};

use std::time::Instant;

/// The moments between the parts: the run by rotation, its schedule, the guided run along that, its replay, its slice; what is
/// counted of it, the slice by passes; room for the numbers of a test, the test of the own input, and the guided run again,
/// without its steps.
#[derive(Clone, Copy)]
pub(crate) struct Moments {
    pub(crate) begun: Instant,
    pub(crate) rotated: Instant,
    pub(crate) scheduled: Instant,
    pub(crate) followed: Instant,
    pub(crate) replayed: Instant,
    pub(crate) sliced: Instant,
    pub(crate) counted: Instant,
    pub(crate) passed: Instant,
    pub(crate) ready: Instant,
    pub(crate) admitted: Instant,
    pub(crate) guided: Instant,
}

impl Moments {
    /// Nothing is done so far.
    pub(crate) fn at(begun: Instant) -> Moments
        ensures { result ≡ record {
          begun = begun;
          rotated = begun;
          scheduled = begun;
          followed = begun;
          replayed = begun;
          sliced = begun;
          counted = begun;
          passed = begun;
          ready = begun;
          admitted = begun;
          guided = begun;
        } }
    {
        Moments {
            begun,
            rotated: begun,
            scheduled: begun,
            followed: begun,
            replayed: begun,
            sliced: begun,
            counted: begun,
            passed: begun,
            ready: begun,
            admitted: begun,
            guided: begun,
        }
    }
}

/// What each part of a recording takes.
#[derive(Clone, Copy)]
pub(crate) struct Shares {
    pub(crate) rotation: u64,
    pub(crate) schedule: u64,
    pub(crate) guided: u64,
    pub(crate) replay: u64,
    pub(crate) slice: u64,
}

/// The nanoseconds between two moments, as far as 64 bits hold them.
pub(crate) fn between(start: Instant, end: Instant) -> u64
    ensures { instant_nanos end - instant_nanos start < 2 ^ 64 → result ≡ instant_nanos end - instant_nanos start }
{
    let nanos = end.duration_since(start).as_nanos();
    if nanos < 18_446_744_073_709_551_616 {
        nanos as u64
    } else {
        u64::MAX
    }
}

impl Shares {
    /// The parts by their moments.
    pub(crate) fn of(m: &Moments) -> Shares
        ensures rotation { instant_nanos m.now.rotated - instant_nanos m.now.begun < 2 ^ 64 → result.rotation ≡ instant_nanos m.now.rotated - instant_nanos m.now.begun }
        ensures schedule { instant_nanos m.now.scheduled - instant_nanos m.now.rotated < 2 ^ 64 → result.schedule ≡ instant_nanos m.now.scheduled - instant_nanos m.now.rotated }
        ensures guided { instant_nanos m.now.followed - instant_nanos m.now.scheduled < 2 ^ 64 → result.guided ≡ instant_nanos m.now.followed - instant_nanos m.now.scheduled }
        ensures replay { instant_nanos m.now.replayed - instant_nanos m.now.followed < 2 ^ 64 → result.replay ≡ instant_nanos m.now.replayed - instant_nanos m.now.followed }
        ensures slice { instant_nanos m.now.sliced - instant_nanos m.now.replayed < 2 ^ 64 → result.slice ≡ instant_nanos m.now.sliced - instant_nanos m.now.replayed }
    {
        Shares {
            rotation: between(m.begun, m.rotated),
            schedule: between(m.rotated, m.scheduled),
            guided: between(m.scheduled, m.followed),
            replay: between(m.followed, m.replayed),
            slice: between(m.replayed, m.sliced),
        }
    }

    /// What the whole recording takes.
    pub(crate) fn sum(&self) -> u128
        ensures { result ≡ self.now.rotation + self.now.schedule + self.now.guided + self.now.replay + self.now.slice }
    {
        self.rotation as u128
            + self.schedule as u128
            + self.guided as u128
            + self.replay as u128
            + self.slice as u128
    }
}

/// How many hundredths of a whole a part is.
pub(crate) fn percent(part: u64, whole: u128) -> u128
    requires { 0 < whole }
    ensures { result ≡ part * 100 / whole }
{
    part as u128 * 100 / whole
}

/// Whether a recording takes less than another.
fn takes_less(one: &Shares, other: &Shares) -> bool
    ensures { result ≡ nat_lt (one.now.rotation + one.now.schedule + one.now.guided + one.now.replay + one.now.slice)
        (other.now.rotation + other.now.schedule + other.now.guided + other.now.replay + other.now.slice) }
{
    one.sum() < other.sum()
}

/// Of two measurements the one whose recording takes less.
pub(crate) fn faster(one: Moments, other: Moments) -> Moments
    ensures { (result ≡ one) ⊎ (result ≡ other) }
{
    if takes_less(&Shares::of(&other), &Shares::of(&one)) {
        other
    } else {
        one
    }
}
