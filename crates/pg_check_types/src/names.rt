//! The place of the first of each name.

ghost use Rattle.std.specs.Prelude.{◌≡◌, OnOk, IfOk, Some, ℕ, List};
ghost use Rattle.std.specs.Str.{bytes_eq};
ghost use Rattle.pg_check_types.specs.NameIndex.{known_place, first_place, noted, texts_of};

use indexmap::IndexMap;
use std::alloc::{AllocError, Global};

/// The place that is known for a name.
pub fn place_of_name(places: &IndexMap<&[u8], usize>, name: &[u8]) -> Option<usize>
    ensures { result ≡ known_place places.now name.now }
{
    places.get(&name).copied()
}

/// Keeps the place of a name, unless one is known.
fn note_place<'a>(
    places: &mut IndexMap<&'a [u8], usize>,
    name: &'a [u8],
    place: usize,
) -> Result<(), AllocError>
    ensures { OnOk result ((text : List ℕ) → known_place places.new text ≡
        noted (known_place places.old text) (bytes_eq name.now text) place) }
{
    match places.get(&name) {
        Some(_) => Ok(()),
        None => {
            places.insert(name, place)?;
            Ok(())
        }
    }
}

/// The place of the first of each name.
pub fn index_names<'a>(
    alloc: Global,
    names: &[&'a [u8]],
) -> Result<IndexMap<&'a [u8], usize>, AllocError>
    ensures { IfOk result (λ m. (text : List ℕ) → known_place m text ≡
        first_place (texts_of names.now) text) }
{
    let mut places = IndexMap::new(alloc);
    for (place, name) in names.iter().enumerate() {
        note_place(&mut places, *name, place)?;
    }
    Ok(places)
}
