//! What occurrences are bound to.

ghost use Rattle.std.specs.Prelude.{◌≡◌, IfOk};
ghost use Rattle.java_model.specs.Occurrences.Declarations.{field_of, method_of};
ghost use Rattle.java_model.specs.Occurrences.Expressions.{constructor_reference, method_binding, method_reference, type_binding};

use crate::making::occurrence;
use java_tree::{
    Access, Binding, Expr, FieldId, Ident, Items, JType, MethodId, OccKind, Occurrence, TypeId,
};
use std::alloc::{AllocError, Global};

pub(crate) fn type_binding(t: &JType) -> Binding
    ensures { result ≡ type_binding t.now }
{
    match t {
        JType::Class(id) => Binding::Class(*id),
        _ => Binding::Nothing,
    }
}

pub(crate) fn method_binding(m: Option<MethodId>) -> Binding
    ensures { result ≡ method_binding m }
{
    match m {
        Some(id) => Binding::Method(id),
        None => Binding::Nothing,
    }
}

/// A method or a constructor of a type, by its place.
pub(crate) fn method_of(of: TypeId, place: Option<u64>) -> Binding
    ensures { result ≡ method_of of place }
{
    match place {
        Some(place) => Binding::Method(MethodId { of, place }),
        None => Binding::Nothing,
    }
}

/// A field of a type, by its place.
pub(crate) fn field_of(of: TypeId, place: Option<u64>) -> Binding
    ensures { result ≡ field_of of place }
{
    match place {
        Some(place) => Binding::Field(FieldId { of, place }),
        None => Binding::Nothing,
    }
}

/// The name in a call (JLS 15.12).
pub(crate) fn method_reference(
    alloc: Global,
    i: &Ident,
    arguments: &Items<Expr>,
    m: Option<MethodId>,
) -> Result<Occurrence, AllocError>
    ensures { IfOk result (λ o. o ≡ method_reference i.now arguments.now m) }
{
    let count = arguments.len() as u64;
    let binding = method_binding(m);
    let found = occurrence(
        alloc,
        OccKind::MethodRef,
        i.span,
        i.name.as_str(),
        count,
        binding,
        Access::NoAccess,
    )?;
    Ok(found)
}

/// The class that a creation names, by its constructor (JLS 15.9).
pub(crate) fn constructor_reference(
    alloc: Global,
    i: &Ident,
    arguments: &Items<Expr>,
    m: Option<MethodId>,
) -> Result<Occurrence, AllocError>
    ensures { IfOk result (λ o. o ≡ constructor_reference i.now arguments.now m) }
{
    let count = arguments.len() as u64;
    let binding = method_binding(m);
    let found = occurrence(
        alloc,
        OccKind::CtorRef,
        i.span,
        i.name.as_str(),
        count,
        binding,
        Access::NoAccess,
    )?;
    Ok(found)
}
