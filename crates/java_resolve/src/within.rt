//! The types that are in scope around a place.

ghost use Rattle.std.specs.Prelude.{◌≡◌, map, IfOk};
ghost use Rattle.java_model.specs.Names.TypeNames.{Ask, types_at, types_within};
ghost use Rattle.java_resolve.specs.Occasions.{Occasion};
ghost use Rattle.java_resolve.specs.Resolving.{bound_of};

use crate::asks::Asks;
use crate::fault::AskFault;
use crate::meaning::only_if;
use crate::type_bound::TypeBound;
use java_tree::{Items, TypeId};
use java_types::DeclaredTypes;
use std::alloc::{AllocError, Global};

/// The types that one bound gives a name.
fn types_at<A: Asks>(
    alloc: Global,
    env: &DeclaredTypes,
    asker: &mut A,
    name: &str,
    bound: TypeBound,
) -> Result<Items<TypeId>, AskFault>
    ensures value { IfOk result (λ ts. (a : Ask) → A.Fits asker.new a → ts ≡ types_at env.now a name.now (bound_of bound)) }
    ensures grows { (a : Ask) → A.Fits asker.new a → A.Fits asker.old a }
    ensures keeps { (o : Occasion) → A.IsAt asker.old o → A.IsAt asker.new o }
{
    match bound {
        TypeBound::LocalClass(t) => Ok(only_if(alloc, env.is_called(name, t), t)?),
        TypeBound::Body(t) => asker.ask(alloc, t, name),
    }
}

/// The types that the innermost bound gives that gives any (JLS 6.3.1).
pub(crate) fn types_within<A: Asks>(
    alloc: Global,
    env: &DeclaredTypes,
    asker: &mut A,
    name: &str,
    bounds: &[TypeBound],
) -> Result<Items<TypeId>, AskFault>
    ensures value { IfOk result (λ ts. (a : Ask) → A.Fits asker.new a → ts ≡ types_within env.now a name.now (map bound_of bounds.now)) }
    ensures grows { (a : Ask) → A.Fits asker.new a → A.Fits asker.old a }
    ensures keeps { (o : Occasion) → A.IsAt asker.old o → A.IsAt asker.new o }
{
    for bound in bounds {
        let found = types_at(alloc, env, asker, name, *bound)?;
        if !found.is_empty() {
            return Ok(found);
        }
    }
    Ok(Items::new(alloc))
}
