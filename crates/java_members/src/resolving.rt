//! What type names mean once the member types are known (JLS 6.5.4, 6.5.5).

ghost use Rattle.std.specs.Prelude.{◌≡◌, IfOk};
ghost use Rattle.java_model.specs.Names.MemberTypes.{member_types, resolve, resolve_in_body};
ghost use Rattle.java_model.specs.Names.TypeNames.{import_type};
ghost use Rattle.java_model.specs.Scopes.TypeNames.{kinds_by, kinds_in_import};
ghost use Rattle.java_resolve.specs.Resolving.{scope_of};

use crate::finding_types::member_types;
use java_resolve::{AskFault, Asks, TypeBound, body_bounds};
use java_supers::Hierarchy;
use java_tree::{Items, JType, NameKind, Outline, Text, TypeId};
use java_types::DeclaredType;
use std::alloc::{AllocError, Global};
use std::marker::Model;

/// What tells the member types that types have.
#[derive(Drop)]
struct MemberTypes<'a> {
    hierarchy: &'a Hierarchy,
}

impl<'a> Model for MemberTypes<'a> {
    ghost use Rattle.std.specs.Prelude.{List};
    ghost use Rattle.java_model.specs.Names.Environments.{EnvDocument};

    ghost Value = { List EnvDocument };

    ghost view = { λ m. m.hierarchy.now };
}

impl<'a> Asks for MemberTypes<'a> {
    ghost use Rattle.std.specs.Prelude.{◌≡◌};
    ghost use Rattle.java_model.specs.Names.MemberTypes.{member_types};

    ghost Fits = { λ e a. a ≡ member_types e };

    ghost IsAt = { λ e o. e ≡ o.env };

    fn ask(&mut self, alloc: Global, t: TypeId, name: &str) -> Result<Items<TypeId>, AskFault> {
        let types = member_types(alloc, self.hierarchy, t, name)?;
        Ok(types)
    }
}

/// What a type name means at a place of a document with these bounds around it, innermost first: a class, or absent
/// (JLS 6.5.5).
pub fn resolve(
    alloc: Global,
    env: &Hierarchy,
    outline: &Outline,
    bounds: &[TypeBound],
    name: &[Text],
) -> Result<JType, AllocError>
    ensures { IfOk result (λ t. t ≡ resolve env.now (scope_of outline.now bounds.now) name.now) }
{
    let mut asker = MemberTypes { hierarchy: env };
    match java_resolve::resolve(alloc, env.types(), &mut asker, outline, bounds, name) {
        Ok(of) => Ok(of),
        Err(_fault) => Err(AllocError),
    }
}

/// What a type name in the body of a type means.
pub fn resolve_in_body(
    alloc: Global,
    env: &Hierarchy,
    d: &DeclaredType<'_>,
    name: &[Text],
) -> Result<JType, AllocError>
    ensures { IfOk result (λ t. t ≡ resolve_in_body env.now d.now name.now) }
{
    let bounds = body_bounds(alloc, d)?;
    let of = resolve(alloc, env, d.outline(), bounds.as_slice(), name)?;
    Ok(of)
}

/// What each identifier of a type name means at a place of a document with these bounds around it, innermost first
/// (JLS 6.5.4, 6.5.5).
pub fn type_name_kinds(
    alloc: Global,
    env: &Hierarchy,
    outline: &Outline,
    bounds: &[TypeBound],
    name: &[Text],
) -> Result<Items<NameKind>, AllocError>
    ensures { IfOk result (λ ks. ks ≡ kinds_by env.now (member_types env.now) (resolve env.now (scope_of outline.now bounds.now)) name.now) }
{
    let mut asker = MemberTypes { hierarchy: env };
    match java_resolve::type_name_kinds(alloc, env.types(), &mut asker, outline, bounds, name) {
        Ok(kinds) => Ok(kinds),
        Err(_fault) => Err(AllocError),
    }
}

/// What the name of an import means (JLS 7.5).
pub fn import_type(alloc: Global, env: &Hierarchy, name: &[Text]) -> Result<JType, AllocError>
    ensures { IfOk result (λ t. t ≡ import_type env.now (member_types env.now) name.now) }
{
    let mut asker = MemberTypes { hierarchy: env };
    match java_resolve::import_type(alloc, env.types(), &mut asker, name) {
        Ok(of) => Ok(of),
        Err(_fault) => Err(AllocError),
    }
}

/// What each identifier of the name of an import means, which `.*` follows or not (JLS 7.5).
pub fn kinds_in_import(
    alloc: Global,
    env: &Hierarchy,
    star: bool,
    name: &[Text],
) -> Result<Items<NameKind>, AllocError>
    ensures { IfOk result (λ ks. ks ≡ kinds_in_import env.now star name.now) }
{
    let mut asker = MemberTypes { hierarchy: env };
    match java_resolve::kinds_in_import(alloc, env.types(), &mut asker, star, name) {
        Ok(kinds) => Ok(kinds),
        Err(_fault) => Err(AllocError),
    }
}
