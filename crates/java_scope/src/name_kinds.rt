//! Ambiguous names at a place (JLS 6.5.2).

ghost use Rattle.std.specs.Prelude.{◌≡◌, [], ◌∷◌, IfOk};
ghost use Rattle.java_model.specs.Scopes.Contexts.{resolve_at};
ghost use Rattle.java_model.specs.Scopes.NameKinds.{ambiguous_kinds, classify, simple_kind, type_or_package};
ghost use Rattle.java_scope.specs.Units.{context};

use crate::following::kinds_from;
use crate::kinds::package_kind;
use crate::scope::Scope;
use crate::type_names::resolve_at;
use crate::unit_context::UnitContext;
use crate::variables::variable_kind;
use java_env::Env;
use java_tree::{Items, JType, NameKind, Text};
use std::alloc::{AllocError, Global};

/// The type that a simple name means, else the package (JLS 6.5.2).
fn type_or_package(env: &Env, t: &JType, name: &[Text]) -> NameKind
    ensures { (n : _) → name.now ≡ n ∷ [] → result ≡ type_or_package env.now t.now n }
{
    match t {
        JType::Class(t) => NameKind::Class(*t),
        _ => package_kind(env, name),
    }
}

/// What a simple name means that is no variable: a type, else a package.
fn type_or_package_at(
    alloc: Global,
    unit: &UnitContext<'_>,
    scope: &Scope,
    name: &str,
) -> Result<NameKind, AllocError>
    ensures { IfOk result (λ k. k ≡ type_or_package unit.now.env.now (resolve_at (context unit.now) scope.now (name.now ∷ [])) name.now) }
{
    let names = [Text::from_str(alloc, name)?];
    let t = resolve_at(alloc, unit, scope, &names)?;
    Ok(type_or_package(unit.env, &t, &names))
}

/// What a simple ambiguous name means: a variable, else a type, else a package (JLS 6.5.2).
pub fn simple_kind(
    alloc: Global,
    unit: &UnitContext<'_>,
    scope: &Scope,
    name: &str,
) -> Result<NameKind, AllocError>
    ensures { IfOk result (λ k. k ≡ simple_kind (context unit.now) scope.now name.now) }
{
    match variable_kind(alloc, unit, scope, name)? {
        Some(kind) => Ok(kind),
        None => type_or_package_at(alloc, unit, scope, name),
    }
}

/// What each identifier of an ambiguous name means (JLS 6.5.2).
pub fn ambiguous_kinds(
    alloc: Global,
    unit: &UnitContext<'_>,
    scope: &Scope,
    names: &[Text],
) -> Result<Items<NameKind>, AllocError>
    ensures { IfOk result (λ ks. ks ≡ ambiguous_kinds (context unit.now) scope.now names.now) }
{
    match names {
        [] => Ok(Items::new(alloc)),
        [name, ..] => {
            let first = simple_kind(alloc, unit, scope, name.as_str())?;
            kinds_from(alloc, unit.env, first, names)
        }
    }
}

/// What an ambiguous name means at a place.
pub fn classify(
    alloc: Global,
    unit: &UnitContext<'_>,
    scope: &Scope,
    names: &[Text],
) -> Result<NameKind, AllocError>
    ensures { IfOk result (λ k. k ≡ classify (context unit.now) scope.now names.now) }
{
    let mut kinds = ambiguous_kinds(alloc, unit, scope, names)?;
    Ok(kinds.pop().unwrap_or(NameKind::Nothing))
}
