//! The member types that a type inherits (JLS 8.5), given the answers about other types.

ghost use Rattle.std.specs.Prelude.{◌≡◌, IfOk};
ghost use Rattle.std.specs.List.{filter, flat_map};
ghost use Rattle.java_model.specs.Names.Supertypes.{inherited_types, inherits_type};
ghost use Rattle.java_model.specs.Names.TypeNames.{Ask, class_of};
ghost use Rattle.java_resolve.specs.Occasions.{Occasion};
ghost use Rattle.java_supers.specs.Asking.{inherited_asking};

use crate::access::inherits_type;
use crate::supers::supers_asking;
use java_resolve::{AskFault, Asks, each_once};
use java_tree::{Items, JType, TypeId};
use java_types::DeclaredTypes;
use std::alloc::{AllocError, Global};

/// The member types of a name that types have.
fn all_asked<A: Asks>(
    alloc: Global,
    asker: &mut A,
    types: &[TypeId],
    name: &str,
) -> Result<Items<TypeId>, AskFault>
    ensures value { IfOk result (λ ts. (a : Ask) → A.Fits asker.new a → ts ≡ flat_map (λ t. a t name.now) types.now) }
    ensures grows { (a : Ask) → A.Fits asker.new a → A.Fits asker.old a }
    ensures keeps { (o : Occasion) → A.IsAt asker.old o → A.IsAt asker.new o }
{
    let mut members = Items::new(alloc);
    for t in types {
        members.append(asker.ask(alloc, *t, name)?)?;
    }
    Ok(members)
}

/// The member types that a type inherits, of these.
fn those_inherited(
    alloc: Global,
    env: &DeclaredTypes,
    t: TypeId,
    members: &[TypeId],
) -> Result<Items<TypeId>, AllocError>
    ensures { IfOk result (λ ts. ts ≡ filter (inherits_type env.now t) members.now) }
{
    let mut inherited = Items::new(alloc);
    for member in members {
        if inherits_type(env, t, *member) {
            inherited.push(*member)?;
        }
    }
    Ok(inherited)
}

/// What a type inherits of these supertypes, each once.
fn inherited_types<A: Asks>(
    alloc: Global,
    env: &DeclaredTypes,
    asker: &mut A,
    t: TypeId,
    name: &str,
    supers: &[TypeId],
) -> Result<Items<TypeId>, AskFault>
    ensures value { IfOk result (λ ts. (a : Ask) → A.Fits asker.new a → ts ≡ inherited_types env.now a t name.now supers.now) }
    ensures grows { (a : Ask) → A.Fits asker.new a → A.Fits asker.old a }
    ensures keeps { (o : Occasion) → A.IsAt asker.old o → A.IsAt asker.new o }
{
    let members = all_asked(alloc, asker, supers, name)?;
    let inherited = those_inherited(alloc, env, t, members.as_slice())?;
    Ok(each_once(alloc, inherited.as_slice())?)
}

/// The classes among types.
pub(crate) fn classes_of(alloc: Global, types: &[JType]) -> Result<Items<TypeId>, AllocError>
    ensures { IfOk result (λ ts. ts ≡ flat_map class_of types.now) }
{
    let mut classes = Items::new(alloc);
    for of in types {
        if let JType::Class(t) = of {
            classes.push(*t)?;
        }
    }
    Ok(classes)
}

/// What a type inherits of its supertypes.
pub(crate) fn inherited_asking<A: Asks>(
    alloc: Global,
    env: &DeclaredTypes,
    asker: &mut A,
    t: TypeId,
    name: &str,
) -> Result<Items<TypeId>, AskFault>
    ensures value { IfOk result (λ ts. (a : Ask) → A.Fits asker.new a → ts ≡ inherited_asking env.now a t name.now) }
    ensures grows { (a : Ask) → A.Fits asker.new a → A.Fits asker.old a }
    ensures keeps { (o : Occasion) → A.IsAt asker.old o → A.IsAt asker.new o }
{
    let supers = supers_asking(alloc, env, asker, t)?;
    let classes = classes_of(alloc, supers.as_slice())?;
    inherited_types(alloc, env, asker, t, name, classes.as_slice())
}
