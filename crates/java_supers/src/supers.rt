//! The supertypes that the header of a type spells (JLS 8.1.3, 8.1.4, 9.1.2, 15.9.5), given the answers about member
//! types.

ghost use Rattle.std.specs.Prelude.{◌≡◌, [], ◌∷◌, ◌++◌, map, IfOk, IsTrue, OnOk};
ghost use Rattle.std.specs.List.{flat_map};
ghost use Rattle.java_tree.specs.declared.types.JType.TheVariants as types;
ghost use Rattle.java_model.specs.Names.Environments.{Declared, declared_at, object, is_java_lang, object_name};
ghost use Rattle.java_model.specs.Names.Supertypes.{anonymous_supers, is_interface_name, or_object, supers_asking, supers_by, supers_of};
ghost use Rattle.java_model.specs.Names.TypeNames.{Ask, resolve_by, header_scope};
ghost use Rattle.java_resolve.specs.Occasions.{Occasion};
ghost use Rattle.java_types.specs.Entries.{has_no_document, is_declared};
ghost use Rattle.java_resolve.specs.Resolving.{scope_of};

use crate::access::is_interface;
use java_resolve::{AskFault, Asks, TypeBound, header_bounds, resolve};
use java_tree::{Items, JType, Outline, Text, TypeId, TypeKind};
use java_types::{DeclaredType, DeclaredTypes};
use std::alloc::{AllocError, Global};

/// The class `java.lang.Object` (JLS 4.3.2).
fn object(alloc: Global, env: &DeclaredTypes) -> Result<TypeId, AllocError>
    ensures { IfOk result (λ t. t ≡ object env.now) }
{
    let names = [Text::from_str(alloc, "Object")?];
    let named = env.type_named("java.lang", &names);
    Ok(named.unwrap_or(TypeId(0)))
}

fn is_object(alloc: Global, env: &DeclaredTypes, t: TypeId) -> Result<bool, AllocError>
    requires { IsTrue (is_declared env.now t) }
    ensures { IfOk result (λ b. (d : Declared) → declared_at env.now t ≡ Some d → b ≡ is_java_lang object_name d) }
{
    let names = [Text::from_str(alloc, "Object")?];
    Ok(env.is_named(t, "java.lang", &names))
}

/// What names in a scope mean.
fn all_resolved<A: Asks>(
    alloc: Global,
    env: &DeclaredTypes,
    asker: &mut A,
    outline: &Outline,
    bounds: &[TypeBound],
    names: &[Items<Text>],
) -> Result<Items<JType>, AskFault>
    ensures value { IfOk result (λ ts. (a : Ask) → A.Fits asker.new a → ts ≡ map (resolve_by env.now a (scope_of outline.now bounds.now)) names.now) }
    ensures grows { (a : Ask) → A.Fits asker.new a → A.Fits asker.old a }
    ensures keeps { (o : Occasion) → A.IsAt asker.old o → A.IsAt asker.new o }
{
    let mut types = Items::new(alloc);
    for name in names {
        types.push(resolve(alloc, env, asker, outline, bounds, name.as_slice())?)?;
    }
    Ok(types)
}

/// A class without `extends` has Object as its superclass (JLS 8.1.3).
fn or_object(
    alloc: Global,
    env: &DeclaredTypes,
    types: Items<JType>,
) -> Result<Items<JType>, AllocError>
    ensures { IfOk result (λ ts. ts ≡ or_object env.now types) }
{
    let mut types = types;
    if types.is_empty() {
        types.push(JType::Class(object(alloc, env)?))?;
    }
    Ok(types)
}

fn is_interface_name(env: &DeclaredTypes, of: &JType) -> bool
    ensures { result ≡ is_interface_name env.now of.now }
{
    match of {
        JType::Class(t) => is_interface(env, *t),
        _ => false,
    }
}

/// An anonymous class extends the class in its creation, or Object where that is an interface (JLS 15.9.5).
fn anonymous_supers(
    alloc: Global,
    env: &DeclaredTypes,
    created: JType,
) -> Result<Items<JType>, AllocError>
    ensures { IfOk result (λ ts. ts ≡ anonymous_supers env.now created) }
{
    let mut types = Items::new(alloc);
    if is_interface_name(env, &created) {
        types.push(JType::Class(object(alloc, env)?))?;
    }
    types.push(created)?;
    Ok(types)
}

fn all_anonymous<A: Asks>(
    alloc: Global,
    env: &DeclaredTypes,
    asker: &mut A,
    outline: &Outline,
    bounds: &[TypeBound],
    names: &[Items<Text>],
) -> Result<Items<JType>, AskFault>
    ensures value { IfOk result (λ ts. (a : Ask) → A.Fits asker.new a
        → ts ≡ flat_map (λ n. anonymous_supers env.now (resolve_by env.now a (scope_of outline.now bounds.now) n)) names.now) }
    ensures grows { (a : Ask) → A.Fits asker.new a → A.Fits asker.old a }
    ensures keeps { (o : Occasion) → A.IsAt asker.old o → A.IsAt asker.new o }
{
    let mut types = Items::new(alloc);
    for name in names {
        let created = resolve(alloc, env, asker, outline, bounds, name.as_slice())?;
        types.append(anonymous_supers(alloc, env, created)?)?;
    }
    Ok(types)
}

/// The supertypes of a class, its superclass first.
fn class_supers<A: Asks>(
    alloc: Global,
    env: &DeclaredTypes,
    asker: &mut A,
    d: &DeclaredType<'_>,
    bounds: &[TypeBound],
) -> Result<Items<JType>, AskFault>
    ensures value { IfOk result (λ ts. (a : Ask) → A.Fits asker.new a
        → ts ≡ or_object env.now (map (resolve_by env.now a (scope_of d.now.outline bounds.now)) d.now.type.extends)
        ++ map (resolve_by env.now a (scope_of d.now.outline bounds.now)) d.now.type.implements) }
    ensures grows { (a : Ask) → A.Fits asker.new a → A.Fits asker.old a }
    ensures keeps { (o : Occasion) → A.IsAt asker.old o → A.IsAt asker.new o }
{
    let outline = d.outline();
    let extends = d.of().extends.as_slice();
    let superclass = all_resolved(alloc, env, asker, outline, bounds, extends)?;
    let mut types = or_object(alloc, env, superclass)?;
    let implements = d.of().implements.as_slice();
    types.append(all_resolved(alloc, env, asker, outline, bounds, implements)?)?;
    Ok(types)
}

/// The supertypes of a type by its kind.
fn supers_by<A: Asks>(
    alloc: Global,
    env: &DeclaredTypes,
    asker: &mut A,
    d: &DeclaredType<'_>,
    bounds: &[TypeBound],
) -> Result<Items<JType>, AskFault>
    ensures value { IfOk result (λ ts. (a : Ask) → A.Fits asker.new a
        → ts ≡ supers_by env.now (resolve_by env.now a (scope_of d.now.outline bounds.now)) d.now.type.kind d.now.type.extends d.now.type.implements) }
    ensures grows { (a : Ask) → A.Fits asker.new a → A.Fits asker.old a }
    ensures keeps { (o : Occasion) → A.IsAt asker.old o → A.IsAt asker.new o }
{
    let extends = d.of().extends.as_slice();
    match d.of().kind {
        TypeKind::Class => class_supers(alloc, env, asker, d, bounds),
        TypeKind::Interface => all_resolved(alloc, env, asker, d.outline(), bounds, extends),
        TypeKind::Anonymous => all_anonymous(alloc, env, asker, d.outline(), bounds, extends),
    }
}

/// The supertypes of a type of a document. Object has none (JLS 8.1.3).
fn supers_of<A: Asks>(
    alloc: Global,
    env: &DeclaredTypes,
    asker: &mut A,
    t: TypeId,
    d: &DeclaredType<'_>,
) -> Result<Items<JType>, AskFault>
    requires { declared_at env.now t ≡ Some d.now }
    ensures value { IfOk result (λ ts. (a : Ask) → A.Fits asker.new a → ts ≡ supers_of env.now a d.now) }
    ensures grows { (a : Ask) → A.Fits asker.new a → A.Fits asker.old a }
    ensures keeps { (o : Occasion) → A.IsAt asker.old o → A.IsAt asker.new o }
{
    if is_object(alloc, env, t)? {
        return Ok(Items::new(alloc));
    }
    let bounds = header_bounds(alloc, d)?;
    let types = supers_by(alloc, env, asker, d, bounds.as_slice())?;
    Ok(types)
}

/// The supertypes of a type that no document declares: Object, String or none.
fn undeclared_supers(
    alloc: Global,
    env: &DeclaredTypes,
    t: TypeId,
) -> Result<Items<JType>, AllocError>
    requires { has_no_document env.now t }
    ensures { IfOk result (λ ts. (a : Ask) → ts ≡ supers_asking env.now a t) }
{
    let mut types = Items::new(alloc);
    if !env.has(t) {
        return Ok(types);
    }
    if is_object(alloc, env, t)? {
        return Ok(types);
    }
    types.push(JType::Class(object(alloc, env)?))?;
    Ok(types)
}

/// The supertypes of a type, its superclass first.
pub(crate) fn supers_asking<A: Asks>(
    alloc: Global,
    env: &DeclaredTypes,
    asker: &mut A,
    t: TypeId,
) -> Result<Items<JType>, AskFault>
    ensures value { IfOk result (λ ts. (a : Ask) → A.Fits asker.new a → ts ≡ supers_asking env.now a t) }
    ensures grows { (a : Ask) → A.Fits asker.new a → A.Fits asker.old a }
    ensures keeps { (o : Occasion) → A.IsAt asker.old o → A.IsAt asker.new o }
{
    match env.declared_type(t) {
        Some(d) => supers_of(alloc, env, asker, t, &d),
        None => Ok(undeclared_supers(alloc, env, t)?),
    }
}
