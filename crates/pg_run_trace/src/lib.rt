//! Steps, turns and schedules, as plain data.
// How goals are searched for: see docs/CONTRIBUTING.md.
#![tactic(auto)]

mod best;
mod cell;
mod kind_names;
mod kinds;
pub mod laws;
mod lists;
mod schedule;
mod step;
mod trace;
mod turn;

pub use best::Best;
pub use kinds::{happening_of, kind_of, object_of};
pub use lists::{InstrIds, Replies, Turns};
pub use pg_ir;
pub use pg_ir::pg_num;
pub use schedule::Schedule;
pub use step::{Access, Event, Happening, Step, StepKind, Write};
pub use trace::Trace;
pub use turn::{Race, Turn, TurnKind};
