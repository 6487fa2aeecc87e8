//! Tests of the reader: tokens, texts and their canonical texts, and the types of a text.
// How goals are searched for: see docs/CONTRIBUTING.md.
#![tactic(auto)]

#[cfg(test)]
mod texts;
#[cfg(test)]
mod tokens;
#[cfg(test)]
mod types;
