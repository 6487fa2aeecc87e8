//! Worked rows of sessions and of trials, over runs that are made up.

mod dialogue;
mod made;
mod sessions;
mod trials;
