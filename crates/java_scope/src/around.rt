//! The types around a place.

ghost use Rattle.std.specs.Prelude.{◌≡◌, ◌++◌, option_to_list, map, IfOk, OnOk};
ghost use Rattle.java_model.specs.Bindings.Calls.{reaching_type, reaching_types};
ghost use Rattle.java_model.specs.Scopes.Contexts.{body_of, this_type, type_bound, type_bounds};
ghost use Rattle.java_resolve.specs.Resolving.{bound_of};
ghost use Rattle.java_scope.specs.Around.{bodies};

use crate::scope::Scope;
use java_resolve::TypeBound;
use java_tree::{Bound, Items, TypeId};
use std::alloc::{AllocError, Global};

fn body_of(bound: &Bound) -> Option<TypeId>
    ensures { result ≡ body_of bound.now }
{
    match bound {
        Bound::Members(t) => Some(*t),
        _ => None,
    }
}

/// The innermost type around a place (JLS 15.8.3).
pub fn this_type(scope: &Scope) -> Option<TypeId>
    ensures { result ≡ this_type scope.now }
{
    let mut next = scope.body();
    while let Some(place) = next {
        let entry = scope.linked(place);
        if let Some(t) = body_of(&entry.bound) {
            return Some(t);
        }
        next = entry.body;
    }
    None
}

fn add_body(bound: &Bound, types: &mut Items<TypeId>) -> Result<(), AllocError>
    ensures { OnOk result (types.new ≡ types.old ++ option_to_list (body_of bound.now)) }
{
    match bound {
        Bound::Members(t) => types.push(*t),
        _ => Ok(()),
    }
}

/// The types in whose bodies a place is, innermost first (JLS 8.1.3).
pub fn bodies(alloc: Global, scope: &Scope) -> Result<Items<TypeId>, AllocError>
    ensures { IfOk result (λ ts. ts ≡ bodies scope.now) }
{
    let mut types = Items::new(alloc);
    let mut next = scope.body();
    while let Some(place) = next {
        let entry = scope.linked(place);
        add_body(&entry.bound, &mut types)?;
        next = entry.body;
    }
    Ok(types)
}

fn add_reaching(bound: &Bound, types: &mut Items<TypeId>) -> Result<(), AllocError>
    ensures { OnOk result (types.new ≡ types.old ++ reaching_type bound.now) }
{
    match bound {
        Bound::Members(t) => types.push(*t),
        Bound::Arguments(t) => types.push(*t),
        _ => Ok(()),
    }
}

/// The types from whose bodies a place reaches protected members, innermost first (JLS 6.6.2).
pub fn reaching_types(alloc: Global, scope: &Scope) -> Result<Items<TypeId>, AllocError>
    ensures { IfOk result (λ ts. ts ≡ reaching_types scope.now) }
{
    let mut types = Items::new(alloc);
    let mut next = scope.around();
    while let Some(place) = next {
        let entry = scope.linked(place);
        add_reaching(&entry.bound, &mut types)?;
        next = entry.outer;
    }
    Ok(types)
}

fn add_type_bound(bound: &Bound, bounds: &mut Items<TypeBound>) -> Result<(), AllocError>
    ensures { OnOk result (map bound_of bounds.new ≡ map bound_of bounds.old ++ type_bound bound.now) }
{
    match bound {
        Bound::Class(t) => bounds.push(TypeBound::LocalClass(*t)),
        Bound::Members(t) => bounds.push(TypeBound::Body(*t)),
        _ => Ok(()),
    }
}

/// The local classes and the bodies of types that are in scope, innermost first (JLS 6.3, 14.3).
pub(crate) fn type_bounds(alloc: Global, scope: &Scope) -> Result<Items<TypeBound>, AllocError>
    ensures { IfOk result (λ bs. map bound_of bs ≡ type_bounds scope.now) }
{
    let mut bounds = Items::new(alloc);
    let mut next = scope.around();
    while let Some(place) = next {
        let entry = scope.linked(place);
        add_type_bound(&entry.bound, &mut bounds)?;
        next = entry.outer;
    }
    Ok(bounds)
}
