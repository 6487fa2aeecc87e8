//! Tests of the texts of a session: worked rows.

mod conditions;
mod json_replies;
mod replies;
mod shows;
