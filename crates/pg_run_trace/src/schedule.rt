//! Schedules: orders of events.

use crate::lists::{InstrIds, Replies, Turns};

/// An order of events: the turns, the number that the pthread call of each turn returned at that turn (0
/// for start, exit, wait, arrive, prints, loads and stores), and the loads and stores that are events,
/// ascending.
#[derive(Drop, Debug)]
pub struct Schedule {
    pub turns: Turns,
    pub replies: Replies,
    pub gated: InstrIds,
}
