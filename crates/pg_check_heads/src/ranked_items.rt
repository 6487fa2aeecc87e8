//! Type items in the order in which they name each other.

ghost use Rattle.std.specs.Prelude.{◌≡◌, ℕ, List, map};
ghost use Rattle.pg_read_ast.specs.Views.{type_item_of};
ghost use Rattle.pg_check_types.specs.NameIndex.{known_place};
ghost use Rattle.pg_check_heads.specs.Circles.{place_of, next_places};
ghost use Rattle.pg_check_heads.specs.Ranks.{Fall};

use indexmap::IndexMap;
use pg_read_ast::TypeItem;
use std::alloc::Global;

/// The type items of a module, the place of the first of each name, and a rank of each item, which no item that it
/// names exceeds; and what allocates the lists that a search through them makes.
#[derive(Clone, Copy)]
pub(crate) struct RankedItems<'a> {
    pub alloc: Global,
    pub places: &'a IndexMap<&'a [u8], usize>,
    pub items: &'a [TypeItem],
    pub ranks: &'a [usize],
    ghost known: { (text : List ℕ) → known_place places.now text ≡ place_of (map type_item_of items.now) text },
    ghost fall: { Fall (next_places (map type_item_of items.now)) ranks.now },
}
