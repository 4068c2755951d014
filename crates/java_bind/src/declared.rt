//! The occurrences of declared names: of packages, fields, methods and constructors.

ghost use Rattle.std.specs.Prelude.{◌≡◌, ◌+◌, ◌++◌, position, IfOk, OnOk};
ghost use Rattle.java_scope.specs.Units.{context};
ghost use Rattle.std.specs.Option.{option_and_then};
ghost use Rattle.java_model.specs.Occurrences.Declarations.{constructor_declaration, constructor_place, field_declaration, field_place};
ghost use Rattle.java_model.specs.Occurrences.Declarations.{in_import, is_declared_at, is_method_at, method_declaration, method_place, outlined, package_declaration};

use crate::bindings::{field_of, method_of};
use crate::making::{mention, package_named};
use crate::name_parts::spelled_name;
use crate::names::occurrences_in;
use crate::role::Role;
use java_env::Env;
use java_scope::UnitContext;
use java_tree::{
    Ident, Import, OccKind, Occurrence, OutlineField, OutlineMethod, OutlineType, Span,
};
use std::alloc::{AllocError, Global};

/// The name of a package declaration (JLS 7.4).
pub(crate) fn package_declaration(alloc: Global, name: &[Ident]) -> Result<Occurrence, AllocError>
    ensures { IfOk result (λ o. o ≡ package_declaration name.now) }
{
    let found = package_named(alloc, OccKind::PackageDecl, name)?;
    Ok(found)
}

/// The name of an import (JLS 7.5).
pub(crate) fn in_import(
    alloc: Global,
    env: &Env,
    i: &Import,
    found: &mut Vec<Occurrence>,
) -> Result<(), AllocError>
    ensures { OnOk result (found.new.items ≡ found.old.items ++ in_import env.now i.now) }
{
    let name = i.name.as_slice();
    let spelled = spelled_name(alloc, name)?;
    let kinds = env.kinds_in_import(alloc, i.star, spelled.as_slice())?;
    if i.star {
        occurrences_in(alloc, Role::Import, name, kinds, found)
    } else {
        occurrences_in(alloc, Role::Type, name, kinds, found)
    }
}

/// Whether what stands there is declared by this identifier.
fn is_declared_at(i: &Ident, name: &str, span: Span) -> bool
    ensures { result ≡ is_declared_at i.now name.now span }
{
    i.name.as_str() == name && i.span.start == span.start && i.span.end == span.end
}

fn is_field_at(i: &Ident, f: &OutlineField) -> bool
    ensures { result ≡ is_declared_at i.now f.now.name f.now.span }
{
    is_declared_at(i, f.name.as_str(), f.span)
}

fn is_method_at(i: &Ident, parameters: u64, m: &OutlineMethod) -> bool
    ensures { result ≡ is_method_at i.now parameters m.now }
{
    is_declared_at(i, m.name.as_str(), m.span) && parameters == m.params.len() as u64
}

/// The place of a field among those of its type.
fn field_place(i: &Ident, of: &OutlineType) -> Option<usize>
    ensures { result ≡ field_place i.now of.now }
{
    of.fields.as_slice().iter().position(|f| is_field_at(i, f))
}

/// The place of a method among those of its type.
fn method_place(i: &Ident, parameters: u64, of: &OutlineType) -> Option<usize>
    ensures { result ≡ method_place i.now parameters of.now }
{
    let methods = of.methods.as_slice();
    methods.iter().position(|m| is_method_at(i, parameters, m))
}

/// The place of a constructor among those of its type.
fn constructor_number(i: &Ident, parameters: u64, of: &OutlineType) -> Option<usize>
    ensures { result ≡ position (is_method_at i.now parameters) of.now.constructors }
{
    let constructors = of.constructors.as_slice();
    constructors
        .iter()
        .position(|m| is_method_at(i, parameters, m))
}

/// A place after so many others. No type has enough members for the sum to overflow.
fn place_after(count: usize, place: usize) -> Result<usize, AllocError>
    ensures { IfOk result (λ n. n ≡ count + place) }
{
    match count.checked_add(place) {
        Some(sum) => Ok(sum),
        None => Err(AllocError),
    }
}

/// The place of a constructor, which comes after the methods.
fn constructor_place(
    i: &Ident,
    parameters: u64,
    of: &OutlineType,
) -> Result<Option<usize>, AllocError>
    ensures { IfOk result (λ p. p ≡ constructor_place i.now parameters of.now) }
{
    match constructor_number(i, parameters, of) {
        Some(number) => {
            let place = place_after(of.methods.len(), number)?;
            Ok(Some(place))
        }
        None => Ok(None),
    }
}

/// A place as contracts see it.
fn as_place(place: Option<usize>) -> Option<u64>
    ensures { result ≡ place }
{
    match place {
        Some(place) => Some(place as u64),
        None => None,
    }
}

/// The place of a field in the type of that number.
fn place_of_field(unit: &UnitContext<'_>, number: u64, i: &Ident) -> Result<Option<u64>, AllocError>
    ensures { IfOk result (λ p. p ≡ option_and_then (field_place i.now) (outlined (context unit.now) number)) }
{
    let id = unit.numbered_id(number)?;
    match unit.env.types().declared_type(id) {
        Some(declared) => Ok(as_place(field_place(i, declared.of()))),
        None => Ok(None),
    }
}

/// The place of a method in the type of that number.
fn place_of_method(
    unit: &UnitContext<'_>,
    number: u64,
    i: &Ident,
    parameters: u64,
) -> Result<Option<u64>, AllocError>
    ensures { IfOk result (λ p. p ≡ option_and_then (method_place i.now parameters) (outlined (context unit.now) number)) }
{
    let id = unit.numbered_id(number)?;
    match unit.env.types().declared_type(id) {
        Some(declared) => Ok(as_place(method_place(i, parameters, declared.of()))),
        None => Ok(None),
    }
}

/// The place of a constructor in the type of that number.
fn place_of_constructor(
    unit: &UnitContext<'_>,
    number: u64,
    i: &Ident,
    parameters: u64,
) -> Result<Option<u64>, AllocError>
    ensures { IfOk result (λ p. p ≡ option_and_then (constructor_place i.now parameters) (outlined (context unit.now) number)) }
{
    let id = unit.numbered_id(number)?;
    match unit.env.types().declared_type(id) {
        Some(declared) => {
            let place = constructor_place(i, parameters, declared.of())?;
            Ok(as_place(place))
        }
        None => Ok(None),
    }
}

/// A declared field (JLS 8.3, 9.3).
pub(crate) fn field_declaration(
    alloc: Global,
    unit: &UnitContext<'_>,
    number: u64,
    i: &Ident,
) -> Result<Occurrence, AllocError>
    ensures { IfOk result (λ o. o ≡ field_declaration (context unit.now) number i.now) }
{
    let id = unit.numbered_id(number)?;
    let place = place_of_field(unit, number, i)?;
    let found = mention(alloc, OccKind::FieldDecl, i, field_of(id, place))?;
    Ok(found)
}

/// A declared method (JLS 8.4, 9.4).
pub(crate) fn method_declaration(
    alloc: Global,
    unit: &UnitContext<'_>,
    number: u64,
    i: &Ident,
    parameters: u64,
) -> Result<Occurrence, AllocError>
    ensures { IfOk result (λ o. o ≡ method_declaration (context unit.now) number i.now parameters) }
{
    let id = unit.numbered_id(number)?;
    let place = place_of_method(unit, number, i, parameters)?;
    let found = mention(alloc, OccKind::MethodDecl, i, method_of(id, place))?;
    Ok(found)
}

/// A declared constructor (JLS 8.8).
pub(crate) fn constructor_declaration(
    alloc: Global,
    unit: &UnitContext<'_>,
    number: u64,
    i: &Ident,
    parameters: u64,
) -> Result<Occurrence, AllocError>
    ensures { IfOk result (λ o. o ≡ constructor_declaration (context unit.now) number i.now parameters) }
{
    let id = unit.numbered_id(number)?;
    let place = place_of_constructor(unit, number, i, parameters)?;
    let found = mention(alloc, OccKind::CtorDecl, i, method_of(id, place))?;
    Ok(found)
}
