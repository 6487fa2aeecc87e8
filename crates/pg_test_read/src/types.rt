//! The numbers of the types of a text, and how they lie in memory.

use pg_check_types::{KnownTypes, TypeNumbers};
use pg_read::parse;
use pg_read_ast::{TypeItem, TypeNode};
use std::alloc::{AllocError, Global};
use std::test::Fail;

/// Types by name, two of which hold each other, and a global of one of them.
const ITEMS: &[u8] = b"%m = type { %s, [2 x %n] }
%s = type { i8, i64, i32 }
%n = type %s
%c = type { %d }
%d = type %c
@g = global %m zeroinitializer
";

/// The number of a type, and its size.
fn whole(known: &mut KnownTypes<'_>, ty: &TypeNode) -> Result<(Option<usize>, u32), AllocError> {
    let whole = known.number(ty)?;
    match whole {
        Some(number) => Ok((whole, known.layout_of_number(number).size)),
        None => Ok((None, 0)),
    }
}

/// The numbers of the items' types.
fn numbers_of(
    alloc: Global,
    known: &mut KnownTypes<'_>,
    items: &[TypeItem],
) -> Result<Vec<Option<usize>>, AllocError> {
    let mut numbers = Vec::new(alloc);
    for item in items {
        numbers.push(known.number(&item.ty)?)?;
    }
    Ok(numbers)
}

/// The numbers of the items' types, and that of a type with its size.
fn numbered(
    alloc: Global,
    types: &TypeNumbers<'_>,
    items: &[TypeItem],
    ty: &TypeNode,
) -> Result<(Vec<Option<usize>>, Option<usize>, u32), AllocError> {
    let mut known = KnownTypes::new(types);
    let numbers = numbers_of(alloc, &mut known, items)?;
    let (whole, size) = whole(&mut known, ty)?;
    Ok((numbers, whole, size))
}

#[test]
fn numbers_types(rt: HostRuntime) -> Result<(), Fail> {
    assert!(rt; ITEMS.len() < 1_000);
    let tree = parse(rt.alloc(), ITEMS)?;
    let global = tree.globals.get(0).ok_or("no global")?;
    let items = tree.types.as_slice();
    let types = TypeNumbers::new(rt.alloc(), items)?;
    let (numbers, whole, size) = numbered(rt.alloc(), &types, items, &global.ty)?;
    assert_eq!(rt; numbers.get(0).copied(), Some(whole));
    assert_eq!(rt; numbers.get(1), numbers.get(2));
    assert_eq!(rt; numbers.get(3).copied(), Some(None));
    assert_eq!(rt; numbers.get(4).copied(), Some(None));
    assert_eq!(rt; size, 72);
    Ok(())
}
