//! The occurrences in type names.

ghost use Rattle.std.specs.Prelude.{◌≡◌, ◌++◌, OnOk};
ghost use Rattle.java_scope.specs.Units.{context};
ghost use Rattle.java_model.specs.Occurrences.Expressions.{in_element, in_optional_type, in_type_name};

use crate::name_parts::spelled_name;
use crate::names::occurrences_in;
use crate::role::Role;
use java_scope::{Scope, UnitContext, type_name_kinds};
use java_tree::{ElementType, Ident, Name, Occurrence};
use std::alloc::{AllocError, Global};

/// A type name at a place (JLS 6.5.5).
pub(crate) fn in_type_name(
    alloc: Global,
    unit: &UnitContext<'_>,
    scope: &Scope,
    name: &[Ident],
    found: &mut Vec<Occurrence>,
) -> Result<(), AllocError>
    ensures { OnOk result (found.new.items ≡ found.old.items ++ in_type_name (context unit.now) scope.now name.now) }
{
    let spelled = spelled_name(alloc, name)?;
    let kinds = type_name_kinds(alloc, unit, scope, spelled.as_slice())?;
    occurrences_in(alloc, Role::Type, name, kinds, found)
}

/// An element type at a place.
pub(crate) fn in_element(
    alloc: Global,
    unit: &UnitContext<'_>,
    scope: &Scope,
    element: &ElementType,
    found: &mut Vec<Occurrence>,
) -> Result<(), AllocError>
    ensures { OnOk result (found.new.items ≡ found.old.items ++ in_element (context unit.now) scope.now element.now) }
{
    match element {
        ElementType::Primitive(_) => Ok(()),
        ElementType::Named(name) => in_type_name(alloc, unit, scope, name.as_slice(), found),
    }
}

/// A type name before `.super`, if there is one (JLS 15.11.2, 15.12).
pub(crate) fn in_optional_type(
    alloc: Global,
    unit: &UnitContext<'_>,
    scope: &Scope,
    name: &Option<Name>,
    found: &mut Vec<Occurrence>,
) -> Result<(), AllocError>
    ensures { OnOk result (found.new.items ≡ found.old.items ++ in_optional_type (context unit.now) scope.now name.now) }
{
    match name {
        None => Ok(()),
        Some(name) => in_type_name(alloc, unit, scope, name.as_slice(), found),
    }
}
