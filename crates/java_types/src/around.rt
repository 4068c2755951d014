//! The types around a type.

ghost use Rattle.std.specs.Prelude.{◌≡◌, map, reverse, slice_get, IfOk};
ghost use Rattle.std.specs.List.{list_any};
ghost use Rattle.std.specs.Option.{option_and_then, option_copied};
ghost use Rattle.java_model.specs.Names.Environments.{is_anonymous};
ghost use Rattle.java_types.specs.Entries.{around_in, is_local_in, name_in};

use java_tree::{Items, OutlineType, Text, TypeKind};
use std::alloc::{AllocError, Global};

pub(crate) fn type_in(types: &[OutlineType], number: u64) -> Option<&OutlineType>
    ensures { option_copied result ≡ slice_get types.now number }
{
    types.get(number as usize)
}

fn parent_in(types: &[OutlineType], number: u64) -> Option<u64>
    ensures { result ≡ option_and_then (λ t. t.parent) (slice_get types.now number) }
{
    match type_in(types, number) {
        Some(declared) => declared.parent,
        None => None,
    }
}

pub(crate) fn is_anonymous(kind: TypeKind) -> bool
    ensures { result ≡ is_anonymous kind }
{
    matches!(kind, TypeKind::Anonymous)
}

fn is_local_in(types: &[OutlineType], number: u64) -> bool
    ensures { result ≡ is_local_in types.now number }
{
    match type_in(types, number) {
        Some(declared) => declared.local || is_anonymous(declared.kind),
        None => false,
    }
}

fn name_in(alloc: Global, types: &[OutlineType], number: u64) -> Result<Text, AllocError>
    ensures { IfOk result (λ n. n ≡ name_in types.now number) }
{
    match type_in(types, number) {
        Some(declared) => declared.name.copy(alloc),
        None => Text::from_str(alloc, ""),
    }
}

/// The numbers of a type and the types around it, innermost first (JLS 8.5, 14.3).
pub fn types_around(
    alloc: Global,
    types: &[OutlineType],
    number: u64,
) -> Result<Vec<u64>, AllocError>
    ensures { IfOk result (λ ns. ns.items ≡ around_in types.now number) }
{
    let mut numbers = Vec::new(alloc);
    let mut next = Some(number);
    for step in 0..types.len() {
        let Some(outer) = next else {
            return Ok(numbers);
        };
        numbers.push(outer)?;
        next = parent_in(types, outer);
    }
    Ok(numbers)
}

/// The names of the types around a type, outermost first, and its own (JLS 6.7).
pub(crate) fn names_of(
    alloc: Global,
    types: &[OutlineType],
    around: &[u64],
) -> Result<Items<Text>, AllocError>
    ensures { IfOk result (λ ns. ns ≡ reverse (map (name_in types.now) around.now)) }
{
    let mut names = Vec::new(alloc);
    for number in around {
        names.push(name_in(alloc, types, *number)?)?;
    }
    names.reverse();
    Ok(Items::from_vec(names))
}

/// Whether a type is local or anonymous or in the body of one (JLS 6.7).
pub(crate) fn is_unqualified(types: &[OutlineType], around: &[u64]) -> bool
    ensures { result ≡ list_any (is_local_in types.now) around.now }
{
    around.iter().any(|number| is_local_in(types, *number))
}
