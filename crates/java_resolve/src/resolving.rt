//! What type names mean (JLS 6.5.5), given the answers about member types. The supertypes will stand on it.

ghost use Rattle.std.specs.Prelude.{◌≡◌, ◌≤◌, [], ◌∷◌, drop, length, take, IfOk};
ghost use Rattle.java_model.specs.Names.Lists.{otherwise};
ghost use Rattle.java_model.specs.Names.TypeNames.{Ask, class_of, imported, meaning, of_package, on_demand, or_absent, resolve_by, simple_type, types_after};
ghost use Rattle.java_resolve.specs.Occasions.{Occasion};
ghost use Rattle.java_resolve.specs.Resolving.{scope_of};

use crate::after::types_after;
use crate::asks::Asks;
use crate::fault::AskFault;
use crate::imports::{imported, of_package, on_demand};
use crate::meaning::{class_of, meaning, or_absent};
use crate::type_bound::TypeBound;
use crate::within::types_within;
use java_tree::{Items, JType, Outline, Text};
use java_types::DeclaredTypes;
use std::alloc::{AllocError, Global};

/// What a simple name means in the package of a document, or by its imports on demand where it means nothing there.
fn of_package_or_on_demand<A: Asks>(
    alloc: Global,
    env: &DeclaredTypes,
    asker: &mut A,
    outline: &Outline,
    name: &str,
) -> Result<Option<JType>, AskFault>
    ensures value { IfOk result (λ t. (a : Ask) → A.Fits asker.new a → t ≡ otherwise (meaning (name.now ∷ []) (of_package env.now outline.now name.now))
        (λ _. meaning (name.now ∷ []) (on_demand env.now a outline.now name.now))) }
    ensures grows { (a : Ask) → A.Fits asker.new a → A.Fits asker.old a }
    ensures keeps { (o : Occasion) → A.IsAt asker.old o → A.IsAt asker.new o }
{
    let spelled = [Text::from_str(alloc, name)?];
    let own = of_package(alloc, env, outline, name)?;
    if let Some(found) = meaning(alloc, &spelled, own.as_slice())? {
        return Ok(Some(found));
    }
    let others = on_demand(alloc, env, asker, outline, name)?;
    Ok(meaning(alloc, &spelled, others.as_slice())?)
}

/// What a simple name means by the imports and the package of a document, its single-type imports first.
fn of_document<A: Asks>(
    alloc: Global,
    env: &DeclaredTypes,
    asker: &mut A,
    outline: &Outline,
    name: &str,
) -> Result<Option<JType>, AskFault>
    ensures value { IfOk result (λ t. (a : Ask) → A.Fits asker.new a → t ≡ otherwise (imported env.now a outline.now name.now)
        (λ _. otherwise (meaning (name.now ∷ []) (of_package env.now outline.now name.now))
        (λ _. meaning (name.now ∷ []) (on_demand env.now a outline.now name.now)))) }
    ensures grows { (a : Ask) → A.Fits asker.new a → A.Fits asker.old a }
    ensures keeps { (o : Occasion) → A.IsAt asker.old o → A.IsAt asker.new o }
{
    match imported(alloc, env, asker, outline, name)? {
        Some(found) => Ok(Some(found)),
        None => of_package_or_on_demand(alloc, env, asker, outline, name),
    }
}

/// What a simple type name means (JLS 6.5.5.1). A later step is taken only where no earlier one answers.
pub(crate) fn simple_type<A: Asks>(
    alloc: Global,
    env: &DeclaredTypes,
    asker: &mut A,
    outline: &Outline,
    bounds: &[TypeBound],
    name: &str,
) -> Result<JType, AskFault>
    ensures value { IfOk result (λ t. (a : Ask) → A.Fits asker.new a → t ≡ simple_type env.now a (scope_of outline.now bounds.now) name.now) }
    ensures grows { (a : Ask) → A.Fits asker.new a → A.Fits asker.old a }
    ensures keeps { (o : Occasion) → A.IsAt asker.old o → A.IsAt asker.new o }
{
    let spelled = [Text::from_str(alloc, name)?];
    let within = types_within(alloc, env, asker, name, bounds)?;
    match meaning(alloc, &spelled, within.as_slice())? {
        Some(found) => Ok(found),
        None => {
            let found = of_document(alloc, env, asker, outline, name)?;
            Ok(or_absent(alloc, &spelled, found)?)
        }
    }
}

/// What a name of several identifiers means, given what the first of them does (JLS 6.5.5.2).
fn qualified_type<A: Asks>(
    alloc: Global,
    env: &DeclaredTypes,
    asker: &mut A,
    first: &JType,
    name: &[Text],
) -> Result<JType, AskFault>
    requires some { 1 ≤ length name.now }
    ensures value { IfOk result (λ t. (a : Ask) → A.Fits asker.new a → t ≡ or_absent name.now (meaning name.now
        (types_after env.now a (class_of first.now) (take 1 name.now) (drop 1 name.now)))) }
    ensures grows { (a : Ask) → A.Fits asker.new a → A.Fits asker.old a }
    ensures keeps { (o : Occasion) → A.IsAt asker.old o → A.IsAt asker.new o }
{
    let left = class_of(alloc, first)?;
    let types = types_after(alloc, env, asker, left, name, 1)?;
    let found = meaning(alloc, name, types.as_slice())?;
    Ok(or_absent(alloc, name, found)?)
}

/// What a type name means at a place of a document with these bounds around it, innermost first: a class, or absent
/// (JLS 6.5.5).
pub fn resolve<A: Asks>(
    alloc: Global,
    env: &DeclaredTypes,
    asker: &mut A,
    outline: &Outline,
    bounds: &[TypeBound],
    name: &[Text],
) -> Result<JType, AskFault>
    ensures value { IfOk result (λ t. (a : Ask) → A.Fits asker.new a → t ≡ resolve_by env.now a (scope_of outline.now bounds.now) name.now) }
    ensures grows { (a : Ask) → A.Fits asker.new a → A.Fits asker.old a }
    ensures keeps { (o : Occasion) → A.IsAt asker.old o → A.IsAt asker.new o }
{
    match name {
        [] => Ok(JType::Absent(Items::new(alloc))),
        [one] => simple_type(alloc, env, asker, outline, bounds, one.as_str()),
        [first, ..] => {
            let simple = simple_type(alloc, env, asker, outline, bounds, first.as_str())?;
            qualified_type(alloc, env, asker, &simple, name)
        }
    }
}
