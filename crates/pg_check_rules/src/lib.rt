//! The rules of program texts: what is refused, and which numbered program an accepted text stands for; and what each part
//! of the checks looks up.
// How goals are searched for: see docs/CONTRIBUTING.md.
#![tactic(auto)]

mod earliest;
mod fault;
mod fields;
mod granules;
mod integers;
mod known;
mod own_names;
mod places;
mod refusals;
mod signatures;
mod starts;
mod symbol_names;
mod symbols;
mod type_rows;
mod values;
mod within;

pub use earliest::{earlier, place_if};
pub use fault::{CheckFault, CheckKind};
pub use fields::{LastField, chosen_of, element_in, fields_of, nth_field};
pub use granules::granules_for;
pub use integers::{constant_number, index_numbers, literal_at, number_at};
pub use known::{is_main, known_named};
pub use own_names::{numbered_name, param_names, references};
pub use places::{type_span, val_span};
pub use refusals::{CheckRefusal, earlier_refusal, name_or_type_refusal, refusal_at};
pub use signatures::{are_params, are_types, is_result, is_type};
pub use starts::{doubled, doubled_among, doubled_names, earlier_start, index_starts, is_before};
pub use symbol_names::symbol_starts;
pub use symbols::{SymbolNode, Symbols, index_symbols, symbol};
pub use type_rows::{any_large, unknown_types, wrong_counts, wrong_types};
pub use values::is_misplaced;
pub use within::{add_types_within, all_within};
