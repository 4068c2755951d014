//! The types of a unit by their `{`.

ghost use Rattle.std.specs.Prelude.{◌≡◌, ◌↔◌, IsTrue, slice_get};
ghost use Rattle.std.specs.Option.{option_map};
ghost use Rattle.java_model.specs.Tree.Children.{number_of, numbered};
ghost use Rattle.java_nodes.specs.Holes.{AreInOrder};
ghost use Rattle.java_nodes.specs.Seen.{of_number, seen_type};

use crate::numbered_type::NumberedType;
use java_tree::{Items, TypeDecl};

/// Whether types stand in the order of their `{`.
pub(crate) fn are_in_order(types: &[TypeDecl]) -> bool
    ensures { IsTrue result ↔ AreInOrder types.now }
{
    types.is_sorted_by(|a, b| a.brace < b.brace)
}

/// The number of the type with this `{`, by a binary search.
fn number_in_order(types: &[TypeDecl], brace: u32) -> Option<usize>
    requires { AreInOrder types.now }
    ensures { result ≡ number_of types.now brace }
{
    match types.binary_search_by_key(&brace, |t| t.brace) {
        Ok(number) => Some(number),
        Err(_) => None,
    }
}

/// The number of the type with this `{`.
pub(crate) fn number_of(types: &[TypeDecl], in_order: bool, brace: u32) -> Option<usize>
    requires { IsTrue in_order → AreInOrder types.now }
    ensures { result ≡ number_of types.now brace }
{
    if in_order {
        number_in_order(types, brace)
    } else {
        types.iter().position(|t| t.brace == brace)
    }
}

fn with_number<'a>(types: &'a Items<TypeDecl>, number: usize) -> Option<NumberedType<'a>>
    ensures { option_map seen_type result ≡ option_map (of_number number) (slice_get types.now number) }
{
    match types.get(number) {
        Some(declared) => Some(NumberedType {
            number: number as u64,
            declared,
        }),
        None => None,
    }
}

/// The type with this `{`, and its number.
pub(crate) fn numbered<'a>(
    types: &'a Items<TypeDecl>,
    in_order: bool,
    brace: u32,
) -> Option<NumberedType<'a>>
    requires { IsTrue in_order → AreInOrder types.now }
    ensures { option_map seen_type result ≡ numbered types.now brace }
{
    match number_of(types.as_slice(), in_order, brace) {
        Some(number) => with_number(types, number),
        None => None,
    }
}
