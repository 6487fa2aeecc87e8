//! Runs the top call on small programs, and prints what comes of it: of texts, and of sessions, shows and trials. What comes of
//! each row was written down by hand.
// How goals are searched for: see docs/CONTRIBUTING.md.
#![tactic(auto)]

mod running;
mod sessions;
mod texts;

use crate::sessions::print_sessions;
use crate::texts::print_texts;
use anyhow::Result;

fn main(rt: HostRuntime) -> Result<()> {
    print_texts(&rt)?;
    print_sessions(&rt)
}
