//! Numbers of fixed width, pointers, places in memory, decimal text, and the project's limits.
//! No call takes memory.
// How goals are searched for: see docs/CONTRIBUTING.md.
#![tactic(auto)]

mod access;
mod arithmetic;
mod bitwise;
mod casts;
mod comparison;
mod decimal;
mod division;
pub mod laws;
pub mod layout;
pub mod limits;
mod operations;
mod places;
mod pointer;
mod shifts;
mod signed;
mod truth;
mod width;

pub use access::place;
pub use arithmetic::{add, mul, sub};
pub use bitwise::bits;
pub use casts::{sext, trunc};
pub use comparison::compare;
pub use decimal::{are_all_digits, digits_in_64_bits, digits_in_i64, digits_in_u64};
pub use division::divide;
pub use operations::{Bits, Compare, DivideFault, Division, Shift};
pub use places::{Place, PlaceFault};
pub use pointer::{Pointer, move_by, move_by_index, pack, unpack};
pub use shifts::shift;
pub use signed::{from_signed, to_signed};
pub use truth::either;
pub use width::Width;
