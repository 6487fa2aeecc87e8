//! The first refusals of globals.

ghost use Rattle.std.specs.Prelude.{◌≡◌, ◌+◌, ◌||◌, IfOk, List, ℕ, map, nat_le, nat_lt, take};
ghost use Rattle.std.specs.List.{flat_map, enumerate_from};
ghost use Rattle.pg_num.specs.declared.limits.TheConstants.{GLOBAL_LIMIT};
ghost use Rattle.pg_num.specs.declared.layout.TheConstants.{GLOBALS_END};
ghost use Rattle.pg_read_ast.specs.Syntax.{Tree};
ghost use Rattle.pg_read_ast.specs.Views.{ty_of, const_of, global_of, tree_of};
ghost use Rattle.pg_check_rules.specs.Written.{const_uses, types_within};
ghost use Rattle.pg_check_rules.specs.declared.fault.CheckKind.TheVariants.{WrongType};
ghost use Rattle.pg_check_types.specs.NameIndex.{known_place};
ghost use Rattle.pg_check_rules.specs.Nodes.{tys_behind};
ghost use Rattle.pg_check_rules.specs.Names.{symbol_names};
ghost use Rattle.pg_check_rules.specs.Starts.{first_start};
ghost use Rattle.pg_check_rules.specs.Earliest.{earliest, IsFirstIn};
ghost use Rattle.pg_check_rules.specs.Conditions.{all_of, outside, global_types, globals_end, global_refused};
ghost use Rattle.pg_check_values.specs.Scopes.{IsScope};
ghost use Rattle.pg_check_heads.specs.Initialisers.{uses_behind};

use crate::global_ends::{end_after, is_past_end};
use crate::initialiser_rows::{add_use_types, function_uses, unknown_uses, wrong_uses};
use crate::initialisers::{UseNode, add_types, add_uses};
use crate::wrong_constants::wrong_const;
use indexmap::IndexMap;
use pg_check_rules::{
    CheckKind, CheckRefusal, Symbols, all_within, any_large, doubled, earlier, earlier_refusal,
    name_or_type_refusal, place_if, refusal_at, unknown_types, wrong_types,
};
use pg_check_types::TypeNumbers;
use pg_check_values::{TypeTest, ValueScope, unmet};
use pg_num::limits::GLOBAL_LIMIT;
use pg_read_ast::{GlobalItem, TypeNode};
use pg_read_lex::Span;
use std::alloc::{AllocError, Global};

/// Whether a global's number is past those that a program may have.
fn is_past_limit(number: usize) -> bool
    ensures { result ≡ nat_le GLOBAL_LIMIT number }
{
    GLOBAL_LIMIT as usize <= number
}

fn one_of_three(first: bool, second: bool, third: bool) -> bool
    ensures { result ≡ (first || second || third) }
{
    first || second || third
}

/// The values of a global's initialiser, each at the type that is written before it.
fn uses_of<'a>(alloc: Global, item: &'a GlobalItem) -> Result<Vec<UseNode<'a>>, AllocError>
    ensures { IfOk result (λ v. uses_behind v.items ≡ const_uses (ty_of item.now.ty) (const_of item.now.value)) }
{
    let mut uses = Vec::new(alloc);
    add_uses(&mut uses, &item.value, &item.ty)?;
    Ok(uses)
}

/// The types of a global and of its initialiser.
fn types_of<'a>(
    alloc: Global,
    item: &'a GlobalItem,
    uses: &[UseNode<'a>],
) -> Result<Vec<&'a TypeNode>, AllocError>
    requires { uses_behind uses.now ≡ const_uses (ty_of item.now.ty) (const_of item.now.value) }
    ensures { IfOk result (λ v. tys_behind v.items ≡ global_types (global_of item.now)) }
{
    let mut all = Vec::new(alloc);
    all.push(&item.ty)?;
    add_types(&mut all, &item.value)?;
    add_use_types(&mut all, uses)?;
    Ok(all)
}

/// The earliest place at which a global's types or its initialiser don't fit.
fn wrong_places(
    scope: &ValueScope<'_>,
    item: &GlobalItem,
    within: &[&TypeNode],
    uses: &[UseNode<'_>],
) -> Result<Option<Span>, AllocError>
    requires within { tys_behind within.now ≡ flat_map types_within (global_types (global_of item.now)) }
    requires uses { uses_behind uses.now ≡ const_uses (ty_of item.now.ty) (const_of item.now.value) }
    ensures place { (m : Tree) (n : ℕ) → IsScope scope.now (outside m) →
        IfOk result (λ o. o ≡ earliest (global_refused m (n, global_of item.now) WrongType)) }
{
    let written = wrong_types(scope.types, within)?;
    let own = unmet(scope.types, TypeTest::NotVoid, &item.ty)?;
    let constant = wrong_const(scope.alloc, scope.types, &item.value, &item.ty)?;
    let values = wrong_uses(scope, uses)?;
    Ok(earlier(written, earlier(own, earlier(constant, values))))
}

/// The first refusal of a global, where it is known whether it ends where none may.
fn global_refusal(
    scope: &ValueScope<'_>,
    starts: &IndexMap<&[u8], u32>,
    number: usize,
    item: &GlobalItem,
    past_end: bool,
) -> Result<Option<CheckRefusal>, AllocError>
    ensures first { (m : Tree) → IsScope scope.now (outside m) →
        past_end ≡ nat_lt GLOBALS_END (globals_end m.types (take (number + 1) m.globals)) →
        ((text : List ℕ) → known_place starts.now text ≡ first_start (symbol_names m) text) →
        IfOk result (λ o. IsFirstIn (global_refused m (number, global_of item.now)) o) }
{
    let uses = uses_of(scope.alloc, item)?;
    let written = types_of(scope.alloc, item, uses.as_slice())?;
    let within = all_within(scope.alloc, written.as_slice())?;
    let wrong = wrong_places(scope, item, within.as_slice(), uses.as_slice())?;
    let large = any_large(scope.types, within.as_slice())?;
    let unknown_use = unknown_uses(scope, uses.as_slice());
    let unknown = earlier(unknown_types(scope.types, within.as_slice()), unknown_use);
    let unsupported = function_uses(scope, uses.as_slice());
    let over = one_of_three(large, is_past_limit(number), past_end);
    let named = name_or_type_refusal(unknown, doubled(starts, &item.name), wrong);
    let other = earlier_refusal(
        refusal_at(CheckKind::Unsupported, unsupported),
        refusal_at(CheckKind::TooLarge, place_if(over, item.name.span)),
    );
    Ok(earlier_refusal(named, other))
}

/// The first refusal of globals, over what their initialisers are looked up in.
fn refusal_over(
    scope: &ValueScope<'_>,
    starts: &IndexMap<&[u8], u32>,
    items: &[GlobalItem],
) -> Result<Option<CheckRefusal>, AllocError>
    ensures first { (m : Tree) → IsScope scope.now (outside m) → m.globals ≡ map global_of items.now →
        ((text : List ℕ) → known_place starts.now text ≡ first_start (symbol_names m) text) →
        IfOk result (λ o. IsFirstIn (all_of (global_refused m) (enumerate_from 0 (map global_of items.now))) o) }
{
    let mut found = None;
    let mut end = 1;
    for number in 0..items.len() {
        let item = &items[number];
        end = end_after(scope.types, end, &item.ty)?;
        let own = global_refusal(scope, starts, number, item, is_past_end(end))?;
        found = earlier_refusal(found, own);
    }
    Ok(found)
}

/// The first refusal of the globals of a module.
pub fn globals_refusal(
    alloc: Global,
    types: &TypeNumbers<'_>,
    symbols: &Symbols<'_>,
    starts: &IndexMap<&[u8], u32>,
) -> Result<Option<CheckRefusal>, AllocError>
    requires { types.now.items ≡ symbols.now.tree.now.types.items }
    ensures first { ((text : List ℕ) → known_place starts.now text ≡ first_start (symbol_names (tree_of symbols.now.tree.now)) text) →
        IfOk result (λ o. IsFirstIn (all_of (global_refused (tree_of symbols.now.tree.now)) (enumerate_from 0 (tree_of symbols.now.tree.now).globals)) o) }
{
    let registers = IndexMap::new(alloc);
    let scope = ValueScope {
        alloc,
        symbols,
        types,
        registers: &registers,
        register_types: &[],
    };
    refusal_over(&scope, starts, symbols.tree.globals.as_slice())
}
