//! What is in scope at the header and in the body of a type (JLS 6.3, 8.1.3, 14.3).

ghost use Rattle.std.specs.Prelude.{◌≡◌, ◌+◌, [], ◌∷◌, ◌++◌, cond, drop, map, IfOk, OnOk};
ghost use Rattle.std.specs.List.{filter};
ghost use Rattle.std.specs.Option.{option_copied, option_map_or};
ghost use Rattle.java_model.specs.Names.Environments.{is_local, type_id, type_in};
ghost use Rattle.java_model.specs.Names.TypeNames.{body_locals, body_scope, bounds_around, header_locals, header_scope, is_declared_in, with_itself};
ghost use Rattle.java_model.specs.Names.TypeNames as names;
ghost use Rattle.java_resolve.specs.Resolving.{bound_of, scope_of};

use crate::type_bound::TypeBound;
use java_tree::{Items, OutlineType, TypeId, TypeKind};
use java_types::{DeclaredType, types_around};
use std::alloc::{AllocError, Global};

fn type_in<'a>(d: &DeclaredType<'a>, number: u64) -> Option<&'a OutlineType>
    ensures { option_copied result ≡ type_in d.now number }
{
    d.outline().types.as_slice().get(number as usize)
}

fn is_local(declared: &OutlineType) -> bool
    ensures { result ≡ is_local declared.now }
{
    declared.local || matches!(declared.kind, TypeKind::Anonymous)
}

/// The id of a type of an outline. No outline is long enough for the sum to overflow.
fn id_of(first: u64, number: u64) -> Result<TypeId, AllocError>
    ensures { IfOk result (λ t. t ≡ type_id (first + number)) }
{
    match first.checked_add(number) {
        Some(id) => Ok(TypeId(id)),
        None => Err(AllocError),
    }
}

fn is_declared_in(d: &DeclaredType<'_>, body: u64, number: u64) -> bool
    ensures { result ≡ is_declared_in d.now body number }
{
    let Some(declared) = type_in(d, number) else {
        return false;
    };
    match declared.parent {
        Some(parent) => parent == body,
        None => false,
    }
}

/// The local classes in scope at the header of a type, given those in the body around it.
fn header_locals(
    alloc: Global,
    declared: &OutlineType,
    outer: Items<u64>,
) -> Result<Items<u64>, AllocError>
    ensures { IfOk result (λ ns. ns ≡ header_locals declared.now outer) }
{
    if is_local(declared) {
        Items::from_slice(alloc, declared.locals.as_slice())
    } else {
        Ok(outer)
    }
}

/// A local class is in scope in its own body (JLS 14.3).
fn with_itself(
    alloc: Global,
    declared: &OutlineType,
    number: u64,
    locals: Items<u64>,
) -> Result<Items<u64>, AllocError>
    ensures { IfOk result (λ ns. ns ≡ with_itself declared.now number locals) }
{
    if !declared.local {
        return Ok(locals);
    }
    let mut all = Items::new(alloc);
    all.push(number)?;
    all.append(locals)?;
    Ok(all)
}

/// The local classes in scope in the body of a type, given those in the body around it.
fn locals_in(
    alloc: Global,
    d: &DeclaredType<'_>,
    number: u64,
    outer: Items<u64>,
) -> Result<Items<u64>, AllocError>
    ensures { IfOk result (λ ns. ns ≡ option_map_or (λ t. with_itself t number (header_locals t outer)) (type_in d.now number) []) }
{
    match type_in(d, number) {
        Some(declared) => {
            let locals = header_locals(alloc, declared, outer)?;
            with_itself(alloc, declared, number, locals)
        }
        None => Ok(Items::new(alloc)),
    }
}

/// The local classes in scope in the body of the first of these types.
fn body_locals(
    alloc: Global,
    d: &DeclaredType<'_>,
    around: &[u64],
) -> Result<Items<u64>, AllocError>
    ensures { IfOk result (λ ns. ns ≡ body_locals d.now around.now) }
{
    let mut locals = Items::new(alloc);
    let mut left = around.len();
    while left > 0 {
        left -= 1;
        locals = locals_in(alloc, d, around[left], locals)?;
    }
    Ok(locals)
}

/// Adds the local classes that the body of a type declares.
fn add_locals(
    d: &DeclaredType<'_>,
    locals: &[u64],
    body: u64,
    bounds: &mut Items<TypeBound>,
) -> Result<(), AllocError>
    ensures { OnOk result (map bound_of bounds.new ≡ map bound_of bounds.old
        ++ map (λ l. names.LocalClass (type_id (d.now.first + l))) (filter (is_declared_in d.now body) locals.now)) }
{
    for local in locals {
        if is_declared_in(d, body, *local) {
            bounds.push(TypeBound::LocalClass(id_of(d.first(), *local)?))?;
        }
    }
    Ok(())
}

/// What is around a place in the body of the first of these types, where these local classes are in scope.
fn bounds_around(
    alloc: Global,
    d: &DeclaredType<'_>,
    locals: &[u64],
    around: &[u64],
) -> Result<Items<TypeBound>, AllocError>
    ensures { IfOk result (λ bs. map bound_of bs ≡ bounds_around d.now locals.now around.now) }
{
    let mut bounds = Items::new(alloc);
    for body in around {
        add_locals(d, locals, *body, &mut bounds)?;
        bounds.push(TypeBound::Body(id_of(d.first(), *body)?))?;
    }
    Ok(bounds)
}

fn past_first(numbers: &[u64]) -> &[u64]
    ensures { result.now ≡ drop 1 numbers.now }
{
    match numbers {
        [] => numbers,
        [_, rest @ ..] => rest,
    }
}

/// What is around the header of a type, innermost first.
pub fn header_bounds(alloc: Global, d: &DeclaredType<'_>) -> Result<Items<TypeBound>, AllocError>
    ensures { IfOk result (λ bs. scope_of d.now.outline bs ≡ header_scope d.now) }
{
    let around = types_around(alloc, d.outline().types.as_slice(), d.number())?;
    let outer = past_first(around.as_slice());
    let body = body_locals(alloc, d, outer)?;
    let locals = header_locals(alloc, d.of(), body)?;
    let bounds = bounds_around(alloc, d, locals.as_slice(), outer)?;
    Ok(bounds)
}

/// What is around a place in the body of a type, innermost first.
pub fn body_bounds(alloc: Global, d: &DeclaredType<'_>) -> Result<Items<TypeBound>, AllocError>
    ensures { IfOk result (λ bs. scope_of d.now.outline bs ≡ body_scope d.now) }
{
    let around = types_around(alloc, d.outline().types.as_slice(), d.number())?;
    let bodies = around.as_slice();
    let locals = body_locals(alloc, d, bodies)?;
    let bounds = bounds_around(alloc, d, locals.as_slice(), bodies)?;
    Ok(bounds)
}
