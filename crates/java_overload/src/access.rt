//! Access at a place (JLS 6.6.1).

ghost use Rattle.std.specs.Prelude.{◌≡◌, Some, IfOk};
ghost use Rattle.std.specs.List.{filter, list_any};
ghost use Rattle.java_model.specs.Names.Accessibility.{accessible_by, is_accessible, is_protected_in, is_within, top_level};
ghost use Rattle.java_model.specs.Names.Environments.{Declared, declared_at, package_of};
ghost use Rattle.java_env.specs.Visibilities.{visibility_of};

use java_env::{Env, Visibility, member_visibility};
use java_tree::{Items, MethodId, TypeId};
use std::alloc::{AllocError, Global};

/// Whether a type is in the body of a top level type (JLS 7.6).
fn is_within(env: &Env, top: Option<TypeId>, t: TypeId) -> bool
    ensures { result ≡ is_within env.now top t }
{
    let Some(u) = top else {
        return false;
    };
    match env.top_level(t) {
        Some(v) => u.0 == v.0,
        None => false,
    }
}

/// Whether a place is in the body of a type or of a subclass (JLS 6.6.2).
fn is_protected_in(env: &Env, owner: TypeId, t: TypeId) -> bool
    ensures { result ≡ is_protected_in env.now owner t }
{
    owner.0 == t.0 || env.is_sub(t, owner)
}

fn any_within(env: &Env, top: Option<TypeId>, bodies: &[TypeId]) -> bool
    ensures { result ≡ list_any (is_within env.now top) bodies.now }
{
    bodies.iter().any(|t| is_within(env, top, *t))
}

fn any_protected(env: &Env, owner: TypeId, bodies: &[TypeId]) -> bool
    ensures { result ≡ list_any (is_protected_in env.now owner) bodies.now }
{
    bodies.iter().any(|t| is_protected_in(env, owner, *t))
}

/// Whether a member of this access of a type is accessible.
fn accessible_by(
    env: &Env,
    access: Visibility,
    bodies: &[TypeId],
    here: &str,
    owner: TypeId,
    qualifier: &str,
) -> bool
    ensures { (d : Declared) → declared_at env.now owner ≡ Some d → qualifier.now ≡ package_of d
        → result ≡ accessible_by (visibility_of access) env.now bodies.now here.now d owner }
{
    match access {
        Visibility::Private => any_within(env, env.top_level(owner), bodies),
        Visibility::Default => here == qualifier,
        Visibility::Protected => here == qualifier || any_protected(env, owner, bodies),
        Visibility::Public => true,
    }
}

/// Whether a method or constructor is accessible.
fn is_accessible(env: &Env, bodies: &[TypeId], here: &str, m: MethodId) -> bool
    ensures { result ≡ is_accessible env.now bodies.now here.now m }
{
    if !env.types().has(m.of) {
        return false;
    }
    let owner = env.types().type_info(m.of);
    let access = member_visibility(owner.kind, env.method_modifiers(m));
    accessible_by(env, access, bodies, here, m.of, owner.package.as_str())
}

/// Those methods and constructors that are accessible in a package, where the bodies of these types are around
/// (JLS 6.6.1, 6.6.2).
pub fn accessible(
    alloc: Global,
    env: &Env,
    bodies: &[TypeId],
    here: &str,
    methods: &[MethodId],
) -> Result<Items<MethodId>, AllocError>
    ensures { IfOk result (λ ms. ms ≡ filter (is_accessible env.now bodies.now here.now) methods.now) }
{
    let mut found = Items::new(alloc);
    for m in methods {
        if is_accessible(env, bodies, here, *m) {
            found.push(*m)?;
        }
    }
    Ok(found)
}
