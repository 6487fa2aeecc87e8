//! What values are refused for, at the types at which they stand.
// How goals are searched for: see docs/CONTRIBUTING.md.
#![tactic(auto)]

mod indices;
mod names;
mod own_types;
mod placed_value;
mod registers;
mod scope;
mod type_tests;
mod typed_tests;
mod uses;

pub use indices::wrong_indices;
pub use names::{function_values, unknown_values};
pub use own_types::add_own_types;
pub use pg_check_names;
pub use placed_value::PlacedValue;
pub use scope::{LineScope, ValueScope};
pub use type_tests::{TypeTest, passes, unmet, unmet_as};
pub use typed_tests::{
    unmet_like, unmet_one, unmet_same, unmet_typed, unmet_typed_as, unmet_value, unmet_value_as,
};
pub use uses::{wrong_literal, wrong_values};
