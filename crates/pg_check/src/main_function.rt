//! Programs without the function with which they begin.

ghost use Rattle.std.specs.Prelude.{◌≡◌, map};
ghost use Rattle.std.specs.List.{list_any};
ghost use Rattle.std.specs.Str.{bytes_eq};
ghost use Rattle.pg_read_ast.specs.Syntax.{Definition};
ghost use Rattle.pg_read_ast.specs.Views.{define_of, tree_of};
ghost use Rattle.pg_check_rules.specs.Earliest.{IsFirstIn};
ghost use Rattle.pg_check_rules.specs.Conditions.{main_name, has_main, main_refused};

use pg_check_rules::{CheckKind, CheckRefusal, is_main, place_if, refusal_at};
use pg_read_ast::{DefineItem, Module};
use pg_read_lex::Span;

/// Whether one of the functions is the one with which a program begins.
fn has_main(items: &[DefineItem]) -> bool
    ensures { result ≡ list_any (λ (d : Definition). bytes_eq d.name.text main_name) (map define_of items.now) }
{
    for item in items {
        if is_main(item.name.text.as_slice()) {
            return true;
        }
    }
    false
}

/// The refusal of a program in which no function is the one with which it begins.
pub(crate) fn main_refusal(tree: &Module) -> Option<CheckRefusal>
    ensures { IsFirstIn (main_refused (tree_of tree.now)) result }
{
    let found = has_main(tree.functions.as_slice());
    refusal_at(
        CheckKind::NoMain,
        place_if(!found, Span { start: 0, end: 0 }),
    )
}
