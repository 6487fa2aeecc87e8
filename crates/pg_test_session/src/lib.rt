//! Tests of entries, of the texts of a session, and of sessions and trials over runs that are made up.
// How goals are searched for: see docs/CONTRIBUTING.md.
#![tactic(auto)]

#[cfg(test)]
mod entries;
#[cfg(test)]
mod sessions;
#[cfg(test)]
mod texts;
