//! The earlier of two places.

ghost use Rattle.std.specs.Prelude.{◌≡◌};
ghost use Rattle.pg_check_rules.specs.Conditions.{at_if};
ghost use Rattle.pg_check_rules.specs.Earliest.{earlier, earliest};

use pg_read_ast::pg_read_lex::Span;

/// The place that begins earlier, and the first of two that begin together.
pub fn earlier(one: Option<Span>, other: Option<Span>) -> Option<Span>
    ensures { result ≡ earlier one other }
{
    match (one, other) {
        (None, other) => other,
        (Some(one), None) => Some(one),
        (Some(one), Some(other)) => {
            if other.start < one.start {
                Some(other)
            } else {
                Some(one)
            }
        }
    }
}

/// A place, where something holds.
#[tactic(auto, unfolding(crate::specs::Earliest::earliest))]
pub fn place_if(test: bool, span: Span) -> Option<Span>
    ensures { result ≡ earliest (at_if test span) }
{
    if test { Some(span) } else { None }
}
