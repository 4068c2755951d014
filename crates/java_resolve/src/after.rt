//! The types that names of several identifiers find (JLS 6.5.5.2).

ghost use Rattle.std.specs.Prelude.{◌≡◌, ◌≤◌, [], drop, length, option_to_list, take, IfOk};
ghost use Rattle.std.specs.List.{flat_map};
ghost use Rattle.java_model.specs.Names.Lists.{the_one};
ghost use Rattle.java_model.specs.Names.TypeNames.{Ask, import_type, import_types, next_types, types_after};
ghost use Rattle.java_resolve.specs.Occasions.{Occasion};

use crate::asks::Asks;
use crate::fault::AskFault;
use crate::meaning::{meaning, or_absent, type_in_package};
use java_tree::{Items, JType, Text, TypeId};
use java_types::DeclaredTypes;
use std::alloc::{AllocError, Global};

/// The member types of a name that the only type has.
pub(crate) fn members_of_one<A: Asks>(
    alloc: Global,
    asker: &mut A,
    types: &[TypeId],
    name: &str,
) -> Result<Items<TypeId>, AskFault>
    ensures value { IfOk result (λ ts. (a : Ask) → A.Fits asker.new a → ts ≡ flat_map (λ t. a t name.now) (option_to_list (the_one types.now))) }
    ensures grows { (a : Ask) → A.Fits asker.new a → A.Fits asker.old a }
    ensures keeps { (o : Occasion) → A.IsAt asker.old o → A.IsAt asker.new o }
{
    match types {
        [one] => asker.ask(alloc, *one, name),
        _ => Ok(Items::new(alloc)),
    }
}

/// The types of the next identifier of a name.
fn next_types<A: Asks>(
    alloc: Global,
    env: &DeclaredTypes,
    asker: &mut A,
    left: &[TypeId],
    spelled: &[Text],
    name: &str,
) -> Result<Items<TypeId>, AskFault>
    ensures value { IfOk result (λ ts. (a : Ask) → A.Fits asker.new a → ts ≡ next_types env.now a left.now spelled.now name.now) }
    ensures grows { (a : Ask) → A.Fits asker.new a → A.Fits asker.old a }
    ensures keeps { (o : Occasion) → A.IsAt asker.old o → A.IsAt asker.new o }
{
    let members = members_of_one(alloc, asker, left, name)?;
    if members.is_empty() {
        Ok(type_in_package(alloc, env, spelled, name)?)
    } else {
        Ok(members)
    }
}

/// The types of a name, given those of its identifiers before one.
pub(crate) fn types_after<A: Asks>(
    alloc: Global,
    env: &DeclaredTypes,
    asker: &mut A,
    left: Items<TypeId>,
    name: &[Text],
    from: usize,
) -> Result<Items<TypeId>, AskFault>
    requires within { from ≤ length name.now }
    ensures value { IfOk result (λ ts. (a : Ask) → A.Fits asker.new a → ts ≡ types_after env.now a left (take from name.now) (drop from name.now)) }
    ensures grows { (a : Ask) → A.Fits asker.new a → A.Fits asker.old a }
    ensures keeps { (o : Occasion) → A.IsAt asker.old o → A.IsAt asker.new o }
{
    let mut types = left;
    for place in from..name.len() {
        let word = name[place].as_str();
        types = next_types(alloc, env, asker, types.as_slice(), &name[..place], word)?;
    }
    Ok(types)
}

/// The types of the name of an import (JLS 7.5).
pub(crate) fn import_types<A: Asks>(
    alloc: Global,
    env: &DeclaredTypes,
    asker: &mut A,
    name: &[Text],
) -> Result<Items<TypeId>, AskFault>
    ensures value { IfOk result (λ ts. (a : Ask) → A.Fits asker.new a → ts ≡ import_types env.now a name.now) }
    ensures grows { (a : Ask) → A.Fits asker.new a → A.Fits asker.old a }
    ensures keeps { (o : Occasion) → A.IsAt asker.old o → A.IsAt asker.new o }
{
    types_after(alloc, env, asker, Items::new(alloc), name, 0)
}

/// What the name of a single-type import means: a class, or absent (JLS 7.5.1).
pub fn import_type<A: Asks>(
    alloc: Global,
    env: &DeclaredTypes,
    asker: &mut A,
    name: &[Text],
) -> Result<JType, AskFault>
    ensures value { IfOk result (λ t. (a : Ask) → A.Fits asker.new a → t ≡ import_type env.now a name.now) }
    ensures grows { (a : Ask) → A.Fits asker.new a → A.Fits asker.old a }
    ensures keeps { (o : Occasion) → A.IsAt asker.old o → A.IsAt asker.new o }
{
    let types = import_types(alloc, env, asker, name)?;
    let found = meaning(alloc, name, types.as_slice())?;
    Ok(or_absent(alloc, name, found)?)
}
