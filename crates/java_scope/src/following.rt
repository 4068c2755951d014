//! What the identifiers of an ambiguous name mean after the first (JLS 6.5.2).

ghost use Rattle.std.specs.Prelude.{◌≡◌, ◌≤◌, [], ◌∷◌, ◌++◌, drop, length, take, IfOk};
ghost use Rattle.java_model.specs.Names.Environments.{type_named};
ghost use Rattle.java_model.specs.Names.Lists.{with_dots};
ghost use Rattle.java_model.specs.Scopes.NameKinds.{after_package, after_type, field_type, kinds_after, next_kind, selected_field};

use crate::kinds::{field_kind, or_nothing, package_kind, selected_field, type_kind};
use java_env::Env;
use java_tree::{FieldId, Items, NameKind, Text, TypeId};
use std::alloc::{AllocError, Global};

/// The type of a package by its simple name (JLS 6.5.5.2).
fn type_in_package(
    alloc: Global,
    env: &Env,
    left: &[Text],
    name: &str,
) -> Result<Option<TypeId>, AllocError>
    ensures { IfOk result (λ t. t ≡ type_named env.now (with_dots left.now) (name.now ∷ [])) }
{
    env.types().type_in_package(alloc, left, name)
}

/// What follows a package: a type of it, else a package (JLS 6.5.2, 6.5.4.2).
fn after_package(
    alloc: Global,
    env: &Env,
    left: &[Text],
    name: &str,
    both: &[Text],
) -> Result<NameKind, AllocError>
    requires { both.now ≡ left.now ++ name.now ∷ [] }
    ensures { IfOk result (λ k. k ≡ after_package env.now left.now name.now) }
{
    match type_in_package(alloc, env, left, name)? {
        Some(t) => Ok(NameKind::Class(t)),
        None => Ok(package_kind(env, both)),
    }
}

/// What follows a type: a field, else a member type (JLS 6.5.2).
fn after_type(alloc: Global, env: &Env, t: TypeId, name: &str) -> Result<NameKind, AllocError>
    ensures { IfOk result (λ k. k ≡ after_type env.now t name.now) }
{
    if let Some(kind) = field_kind(alloc, env, t, name)? {
        return Ok(kind);
    }
    let types = env.member_types(alloc, t, name)?;
    Ok(or_nothing(type_kind(types.as_slice())))
}

/// What follows a field: a field of its value (JLS 6.5.6.2).
fn after_field(alloc: Global, env: &Env, f: FieldId, name: &str) -> Result<NameKind, AllocError>
    ensures { IfOk result (λ k. k ≡ selected_field env.now (field_type env.now f) name.now) }
{
    let t = env.field_type(alloc, f)?;
    selected_field(alloc, env, &t, name)
}

/// What an identifier means, after what the identifiers before it mean (JLS 6.5.2).
fn next_kind(
    alloc: Global,
    env: &Env,
    kind: &NameKind,
    left: &[Text],
    name: &str,
    both: &[Text],
) -> Result<NameKind, AllocError>
    requires { both.now ≡ left.now ++ name.now ∷ [] }
    ensures { IfOk result (λ k. k ≡ next_kind env.now kind.now left.now name.now) }
{
    match kind {
        NameKind::Package => after_package(alloc, env, left, name, both),
        NameKind::Class(t) => after_type(alloc, env, *t, name),
        NameKind::Field(f) => after_field(alloc, env, *f, name),
        NameKind::Local(t) => selected_field(alloc, env, t, name),
        NameKind::Nothing => Ok(NameKind::Nothing),
    }
}

/// What the identifiers of a name mean, the first of which means this.
pub(crate) fn kinds_from(
    alloc: Global,
    env: &Env,
    first: NameKind,
    names: &[Text],
) -> Result<Items<NameKind>, AllocError>
    requires { 1 ≤ length names.now }
    ensures { IfOk result (λ ks. ks ≡ first ∷ kinds_after env.now first (take 1 names.now) (drop 1 names.now)) }
{
    let mut kinds = Items::new(alloc);
    let mut kind = first;
    for at in 1..names.len() {
        let name = names[at].as_str();
        let next = next_kind(alloc, env, &kind, &names[..at], name, &names[..at + 1])?;
        kinds.push(kind)?;
        kind = next;
    }
    kinds.push(kind)?;
    Ok(kinds)
}
