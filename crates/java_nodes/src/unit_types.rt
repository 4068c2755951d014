//! The types of a unit.

ghost use Rattle.std.specs.Prelude.{◌≡◌, IsTrue};
ghost use Rattle.std.specs.Option.{option_map};
ghost use Rattle.java_model.specs.Tree.Children.{number_of, numbered};
ghost use Rattle.java_nodes.specs.Holes.{AreInOrder};
ghost use Rattle.java_nodes.specs.Seen.{seen_type};

use crate::numbered::{are_in_order, number_of, numbered};
use crate::numbered_type::NumberedType;
use java_tree::{Items, TypeDecl};

/// The types of a unit, which are found by their `{`.
#[derive(Clone, Copy)]
pub struct UnitTypes<'a> {
    /// The types.
    pub types: &'a Items<TypeDecl>,
    in_order: bool,
    ghost order: { IsTrue in_order → AreInOrder types.now },
}

impl<'a> UnitTypes<'a> {
    /// These types, in one pass.
    pub fn of(types: &'a Items<TypeDecl>) -> UnitTypes<'a>
        ensures { result.types.now ≡ types.now }
    {
        UnitTypes {
            types,
            in_order: are_in_order(types.as_slice()),
        }
    }

    /// The number of the type with this `{`, by a binary search where they stand in the order of their `{`.
    pub fn number_of(&self, brace: u32) -> Option<u64>
        ensures { result ≡ number_of self.now.types.now brace }
    {
        match number_of(self.types.as_slice(), self.in_order, brace) {
            Some(number) => Some(number as u64),
            None => None,
        }
    }

    /// The type with this `{` and its number.
    pub fn numbered(&self, brace: u32) -> Option<NumberedType<'a>>
        ensures { option_map seen_type result ≡ numbered self.now.types.now brace }
    {
        numbered(self.types, self.in_order, brace)
    }
}
