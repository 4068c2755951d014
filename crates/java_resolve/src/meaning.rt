//! What the types that a name finds mean.

ghost use Rattle.std.specs.Prelude.{◌≡◌, [], ◌∷◌, cond, option_to_list, IfOk};
ghost use Rattle.java_tree.specs.declared.types.JType.TheVariants as types;
ghost use Rattle.java_model.specs.Names.Environments.{type_named};
ghost use Rattle.java_model.specs.Names.Lists.{with_dots};
ghost use Rattle.java_model.specs.Names.TypeNames.{class_of, meaning, or_absent};

use java_tree::{Items, JType, Text, TypeId};
use java_types::DeclaredTypes;
use std::alloc::{AllocError, Global};

fn copied(alloc: Global, name: &[Text]) -> Result<Items<Text>, AllocError>
    ensures { IfOk result (λ copy. copy ≡ name.now) }
{
    let mut copy = Items::new(alloc);
    for word in name {
        copy.push(word.copy(alloc)?)?;
    }
    Ok(copy)
}

fn absent(alloc: Global, spelled: &[Text]) -> Result<JType, AllocError>
    ensures { IfOk result (λ t. t ≡ types.Absent spelled.now) }
{
    Ok(JType::Absent(copied(alloc, spelled)?))
}

/// Several types of one name are none.
pub(crate) fn meaning(
    alloc: Global,
    spelled: &[Text],
    found: &[TypeId],
) -> Result<Option<JType>, AllocError>
    ensures { IfOk result (λ t. t ≡ meaning spelled.now found.now) }
{
    match found {
        [] => Ok(None),
        [one] => Ok(Some(JType::Class(*one))),
        _ => Ok(Some(absent(alloc, spelled)?)),
    }
}

pub(crate) fn or_absent(
    alloc: Global,
    spelled: &[Text],
    found: Option<JType>,
) -> Result<JType, AllocError>
    ensures { IfOk result (λ t. t ≡ or_absent spelled.now found) }
{
    match found {
        Some(found) => Ok(found),
        None => absent(alloc, spelled),
    }
}

pub(crate) fn class_of(alloc: Global, of: &JType) -> Result<Items<TypeId>, AllocError>
    ensures { IfOk result (λ ts. ts ≡ class_of of.now) }
{
    let mut classes = Items::new(alloc);
    if let JType::Class(t) = of {
        classes.push(*t)?;
    }
    Ok(classes)
}

/// The type, if it counts.
pub fn only_if(alloc: Global, counts: bool, t: TypeId) -> Result<Items<TypeId>, AllocError>
    ensures { IfOk result (λ ts. ts ≡ cond counts (t ∷ []) []) }
{
    let mut types = Items::new(alloc);
    if counts {
        types.push(t)?;
    }
    Ok(types)
}

/// The type of a package by its simple name.
pub(crate) fn type_in_package(
    alloc: Global,
    env: &DeclaredTypes,
    qualifier: &[Text],
    name: &str,
) -> Result<Items<TypeId>, AllocError>
    ensures { IfOk result (λ ts. ts ≡ option_to_list (type_named env.now (with_dots qualifier.now) (name.now ∷ []))) }
{
    let mut types = Items::new(alloc);
    if let Some(t) = env.type_in_package(alloc, qualifier, name)? {
        types.push(t)?;
    }
    Ok(types)
}
