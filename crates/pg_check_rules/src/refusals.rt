//! The first refusal of a part of a text: the earliest, and at one place the first in the order of the kinds.

ghost use Rattle.std.specs.Prelude.{◌≡◌, List, true, false};
ghost use Rattle.pg_read_ast.specs.pg_read_lex.declared.token.Span.{Span};
ghost use Rattle.pg_check_rules.specs.Conditions.{RefusedPlaces, NoLater};
ghost use Rattle.pg_check_rules.specs.Earliest.{earliest, only, joined, names_and_types, IsFirstIn};

use crate::fault::CheckKind;
use pg_read_ast::pg_read_lex::Span;

/// A place at which a program is refused, and why.
#[derive(Clone, Copy, Debug, PartialEq, Eq)]
pub struct CheckRefusal {
    pub kind: CheckKind,
    pub span: Span,
}

/// The refusal of a kind at the earliest of its places, if there is one.
pub fn refusal_at(kind: CheckKind, place: Option<Span>) -> Option<CheckRefusal>
    ensures { (places : List Span) → place ≡ earliest places → IsFirstIn (only kind places) result }
{
    match place {
        Some(span) => Some(CheckRefusal { kind, span }),
        None => None,
    }
}

/// Whether a refusal counts before another: it stands earlier, or at the same place its kind comes first.
fn counts_before(one: CheckRefusal, other: CheckRefusal) -> bool
    ensures yes { result ≡ true → NoLater one.kind one.span other.kind other.span }
    ensures no { result ≡ false → NoLater other.kind other.span one.kind one.span }
{
    if one.span.start == other.span.start {
        one.kind.rank() < other.kind.rank()
    } else {
        one.span.start < other.span.start
    }
}

/// The first refusal of two parts, of which these are the first.
pub fn earlier_refusal(
    one: Option<CheckRefusal>,
    other: Option<CheckRefusal>,
) -> Option<CheckRefusal>
    ensures { (p q : RefusedPlaces) → IsFirstIn p one → IsFirstIn q other → IsFirstIn (joined p q) result }
{
    match (one, other) {
        (None, other) => other,
        (Some(one), None) => Some(one),
        (Some(one), Some(other)) => {
            if counts_before(other, one) {
                Some(other)
            } else {
                Some(one)
            }
        }
    }
}

/// The first refusal for a name that nothing has, a second name or what doesn't fit, of which these are the earliest places.
pub fn name_or_type_refusal(
    unknown: Option<Span>,
    doubled: Option<Span>,
    wrong: Option<Span>,
) -> Option<CheckRefusal>
    ensures { (us ds ws : List Span) → unknown ≡ earliest us → doubled ≡ earliest ds → wrong ≡ earliest ws → IsFirstIn (names_and_types us ds ws) result }
{
    let named = refusal_at(CheckKind::UnknownName, unknown);
    let twice = refusal_at(CheckKind::Doubled, doubled);
    let misfit = refusal_at(CheckKind::WrongType, wrong);
    earlier_refusal(named, earlier_refusal(twice, misfit))
}
