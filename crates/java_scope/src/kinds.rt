//! What a name means in a package or in a type.

ghost use Rattle.std.specs.Prelude.{◌≡◌, IfOk};
ghost use Rattle.java_tree.specs.declared.types.NameKind.TheVariants as kinds;
ghost use Rattle.java_model.specs.Names.Fields.{field_named};
ghost use Rattle.java_model.specs.Scopes.NameKinds.{array_field, field_kind, kind_or_nothing, package_kind, selected_field, type_kind};

use java_env::Env;
use java_tree::{JType, NameKind, Primitive, Text, TypeId};
use std::alloc::{AllocError, Global};

/// A package where it is known, else nothing (JLS 7.1).
pub(crate) fn package_kind(env: &Env, name: &[Text]) -> NameKind
    ensures { result ≡ package_kind env.now name.now }
{
    if env.types().is_known_package(name) {
        NameKind::Package
    } else {
        NameKind::Nothing
    }
}

pub(crate) fn type_kind(types: &[TypeId]) -> Option<NameKind>
    ensures { result ≡ type_kind types.now }
{
    match types {
        [] => None,
        [t] => Some(NameKind::Class(*t)),
        _ => Some(NameKind::Nothing),
    }
}

pub(crate) fn or_nothing(kind: Option<NameKind>) -> NameKind
    ensures { result ≡ kind_or_nothing (λ k. k) kind }
{
    match kind {
        Some(kind) => kind,
        None => NameKind::Nothing,
    }
}

/// The field that a name means in a type that has fields of that name.
fn field_or_nothing(alloc: Global, env: &Env, t: TypeId, name: &str) -> Result<NameKind, AllocError>
    ensures { IfOk result (λ k. k ≡ kind_or_nothing kinds.Field (field_named env.now t name.now)) }
{
    match env.field_named(alloc, t, name)? {
        Some(field) => Ok(NameKind::Field(field)),
        None => Ok(NameKind::Nothing),
    }
}

/// The field of a name that a type has. Two different ones that are inherited are none (JLS 8.3.3).
pub(crate) fn field_kind(
    alloc: Global,
    env: &Env,
    t: TypeId,
    name: &str,
) -> Result<Option<NameKind>, AllocError>
    ensures { IfOk result (λ k. k ≡ field_kind env.now t name.now) }
{
    let fields = env.fields(alloc, t, name)?;
    if fields.is_empty() {
        return Ok(None);
    }
    Ok(Some(field_or_nothing(alloc, env, t, name)?))
}

/// The one field of an array (JLS 10.7).
fn array_field(name: &str) -> NameKind
    ensures { result ≡ array_field name.now }
{
    if name == "length" {
        NameKind::Local(JType::Primitive(Primitive::Int))
    } else {
        NameKind::Nothing
    }
}

/// What a name selects of a value (JLS 6.5.6.2, 15.11.1).
pub fn selected_field(
    alloc: Global,
    env: &Env,
    t: &JType,
    name: &str,
) -> Result<NameKind, AllocError>
    ensures { IfOk result (λ k. k ≡ selected_field env.now t.now name.now) }
{
    match t {
        JType::Class(t) => Ok(or_nothing(field_kind(alloc, env, *t, name)?)),
        JType::Array(_, _) => Ok(array_field(name)),
        _ => Ok(NameKind::Nothing),
    }
}
