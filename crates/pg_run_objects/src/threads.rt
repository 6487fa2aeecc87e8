//! The stages of threads.

ghost use Rattle.std.specs.Prelude.{◌≡◌, ◌<◌, ◌≤◌, ◌++◌, ◌∷◌, [], length, map, slice_get, slice_set, vec_len, vec_capacity};
ghost use Rattle.pg_run_objects.specs.Sync.{all_ended, at_stage, has_ended, is_released, is_signalled, joined_in, may_join, release, stage_in, was_last};

use crate::status::{Stage, Status};

/// The stage of a thread; ended, where there is none of this number.
pub(crate) fn stage_at(threads: &[Status], n: u64) -> Stage
    ensures { result ≡ stage_in (slice_get threads.now n) }
{
    match threads.get(n as usize) {
        Some(status) => status.stage,
        None => Stage::Ended,
    }
}

/// Whether thread `n` may be joined by thread `t`: another thread made so far that wasn't joined.
pub(crate) fn is_joinable(threads: &[Status], t: u8, n: u64) -> bool
    ensures { result ≡ may_join t n (slice_get threads.now n) }
{
    match threads.get(n as usize) {
        Some(status) => !(n == u64::from(t)) && !status.joined,
        None => false,
    }
}

pub(crate) fn ended(stage: Stage) -> bool
    ensures { result ≡ has_ended stage }
{
    match stage {
        Stage::Ended => true,
        _ => false,
    }
}

pub(crate) fn signalled(stage: Stage) -> bool
    ensures { result ≡ is_signalled stage }
{
    match stage {
        Stage::Waiting { signalled } => signalled,
        _ => false,
    }
}

pub(crate) fn released(stage: Stage) -> bool
    ensures { result ≡ is_released stage }
{
    match stage {
        Stage::Arrived { released, .. } => released,
        _ => false,
    }
}

pub(crate) fn came_last(stage: Stage) -> bool
    ensures { result ≡ was_last stage }
{
    match stage {
        Stage::Arrived { last, .. } => last,
        _ => false,
    }
}

pub(crate) fn each_ended(threads: &[Status]) -> bool
    ensures { result ≡ all_ended threads.now }
{
    threads.iter().all(|status| ended(status.stage))
}

/// Thread `t` comes to a stage.
pub(crate) fn set_stage(threads: &mut Vec<Status>, t: u8, stage: Stage)
    ensures items { threads.new.items ≡ at_stage t stage threads.old.items }
    ensures room { vec_capacity threads.new ≡ vec_capacity threads.old }
{
    let index = t as usize;
    if index < threads.len() {
        threads[index] = Status {
            stage,
            joined: threads[index].joined,
        };
    }
}

/// Thread `n` was joined.
pub(crate) fn set_joined(threads: &mut Vec<Status>, n: u64)
    ensures items { threads.new.items ≡ slice_set threads.old.items n (joined_in (slice_get threads.old.items n)) }
    ensures room { vec_capacity threads.new ≡ vec_capacity threads.old }
{
    let index = n as usize;
    if index < threads.len() {
        threads[index] = Status {
            stage: threads[index].stage,
            joined: true,
        };
    }
}

fn after_release(status: Status, place: u32) -> Status
    ensures { result ≡ release place status }
{
    match status.stage {
        Stage::Arrived {
            barrier,
            released,
            ..
        } => if barrier == place && !released {
            Status {
                stage: Stage::Arrived {
                    barrier,
                    released: true,
                    last: false,
                },
                joined: status.joined,
            }
        } else {
            status
        },
        _ => status,
    }
}

/// All that have arrived at a barrier in this round are released.
pub(crate) fn release_each(threads: &mut Vec<Status>, place: u32)
    ensures items { threads.new.items ≡ map (release place) threads.old.items }
    ensures room { vec_capacity threads.new ≡ vec_capacity threads.old }
{
    for i in 0..threads.len() {
        threads[i] = after_release(threads[i], place);
    }
}

/// Pushes where there is room.
pub(crate) fn push_status(threads: &mut Vec<Status>, status: Status)
    requires { vec_len threads.old < vec_capacity threads.old }
    ensures items { threads.new.items ≡ threads.old.items ++ status ∷ [] }
    ensures room { vec_capacity threads.old ≤ vec_capacity threads.new }
{
    if let Err(_) = threads.push(status) {
        unreachable!();
    }
}
