//! The schedule of a recorded run: the interval of each step among the turns of its thread, the loads and stores that race, and
//! the order of all events and racing accesses.
// How goals are searched for: see docs/CONTRIBUTING.md.
#![tactic(auto)]

mod answered;
mod block;
mod cell;
mod fast;
mod firsts;
mod gates;
mod interval;
mod links;
mod ordered;
mod pairs;
mod partners;
mod schedule;
mod table;
mod touch;
mod touching;
mod unordered;

pub use answered::{answered_before, answered_behind};
pub use fast::races;
pub use gates::reply_in;
pub use interval::{Interval, Turns, interval_at, intervals};
pub use ordered::is_ordered;
pub use pairs::races_by_pairs;
pub use schedule::hybrid;
pub use touch::Touch;
pub use unordered::{TimedStep, conflict, is_unordered, timed};
