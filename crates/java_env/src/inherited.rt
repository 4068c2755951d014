//! The methods that a type has: those that it declares, and those that it inherits (JLS 8.4, 9.4).

ghost use Rattle.std.specs.Prelude.{◌≡◌, ◌<◌, ◌∷◌, ◌++◌, [], cond, false, IfOk, OnOk};
ghost use Rattle.std.specs.List.{filter, list_any};
ghost use Rattle.std.specs.Option.{option_map_or};
ghost use Rattle.java_tree.specs.declared.occurrence.TypeId.{TypeId as AnId};
ghost use Rattle.java_model.specs.Names.Access.{is_public, visibility};
ghost use Rattle.java_model.specs.Names.Environments.{declared_at, object};
ghost use Rattle.java_model.specs.Names.Lists.{is_among};
ghost use Rattle.java_model.specs.Names.Methods.{declared_methods, inherits_method, method_modifiers, method_name, methods, public_methods, same_method, same_signature};
ghost use Rattle.java_model.specs.Names.Supertypes.{count, known_supers};
ghost use Rattle.java_env.specs.Inheriting.{has_method, is_bare, is_of_object, ways};
ghost use Rattle.java_env.specs.Members.{method_count, methods_of};
ghost use Rattle.java_env.specs.Walks.{Adds, Goes, IsReached, has};

use crate::env::Env;
use crate::visibility::{Visibility, info, member_visibility};
use crate::walks::{add_classes, add_one};
use java_supers::passes_on;
use java_tree::{Items, JType, MethodId, TypeId, TypeKind};
use std::alloc::{AllocError, Global};
use std::collections::BTreeSet;

/// Whether a type is an interface without superinterfaces, which has the public methods of Object (JLS 9.2).
fn is_bare(env: &Env, t: TypeId) -> bool
    ensures { result ≡ is_bare env.now t }
{
    match env.types().declared_type(t) {
        Some(d) => matches!(d.of().kind, TypeKind::Interface)
            && d.of().extends.as_slice().get(0).is_none(),
        None => false,
    }
}

/// Whether a method is public (JLS 6.6.1, 9.4).
fn is_public(env: &Env, m: MethodId) -> bool
    ensures { result ≡ option_map_or (λ d. is_public (visibility d (method_modifiers env.now m))) (declared_at env.now m.of) false }
{
    match info(env.types(), m.of) {
        Some(owner) => matches!(
            member_visibility(owner.kind, env.method_modifiers(m)),
            Visibility::Public
        ),
        None => false,
    }
}

fn is_public_of_object(env: &Env, m: MethodId) -> bool
    ensures { result ≡ is_among same_method m (public_methods env.now (object env.now) (method_name env.now m)) }
{
    if m.of.0 != env.object().0 {
        return false;
    }
    if m.place >= env.method_count(m.of) {
        return false;
    }
    is_public(env, m)
}

/// Whether a method is one that such an interface has of Object.
fn is_of_object(env: &Env, t: TypeId, m: MethodId) -> bool
    ensures { result ≡ is_of_object env.now t m }
{
    is_bare(env, t) && is_public_of_object(env, m)
}

/// Whether a type declares a method of this signature (JLS 8.4.2).
fn declares_alike(env: &Env, t: TypeId, m: MethodId) -> bool
    ensures { result ≡ list_any (same_signature env.now m) (declared_methods env.now t (method_name env.now m)) }
{
    for place in 0..env.method_count(t) {
        if env.same_signature(m, MethodId { of: t, place }) {
            return true;
        }
    }
    false
}

/// Whether a type inherits a method of a supertype that it doesn't override or hide (JLS 8.4.6, 9.4.1).
fn inherits_method(env: &Env, t: TypeId, m: MethodId) -> bool
    ensures { result ≡ inherits_method env.now t m }
{
    passes_on(env.types(), m.of, env.method_modifiers(m), t) && !declares_alike(env, t, m)
}

/// Adds the supertypes of a type, and Object if it has methods of it.
fn add_supers(
    env: &Env,
    t: TypeId,
    of_object: bool,
    seen: &mut BTreeSet<u64>,
    new: &mut Items<TypeId>,
) -> Result<(), AllocError>
    ensures { OnOk result (Adds (has seen.old) new.old (known_supers env.now t ++ cond of_object (object env.now ∷ []) []) (has seen.new) new.new) }
{
    add_classes(seen, env.supers(t), new)?;
    if of_object {
        add_one(seen, env.object(), new)?;
    }
    Ok(())
}

/// Adds the types of which a type may have a method, or any method.
fn add_next(
    env: &Env,
    of: Option<MethodId>,
    t: TypeId,
    seen: &mut BTreeSet<u64>,
    new: &mut Items<TypeId>,
) -> Result<(), AllocError>
    ensures { OnOk result (Adds (has seen.old) new.old (ways env.now of t) (has seen.new) new.new) }
{
    let Some(m) = of else {
        return add_supers(env, t, is_bare(env, t), seen, new);
    };
    if inherits_method(env, t, m) {
        add_supers(env, t, is_of_object(env, t, m), seen, new)
    } else {
        Ok(())
    }
}

/// The types that weren't seen, next to those of a front.
fn next_front(
    alloc: Global,
    env: &Env,
    of: Option<MethodId>,
    front: &[TypeId],
    seen: &mut BTreeSet<u64>,
) -> Result<Items<TypeId>, AllocError>
    ensures { IfOk result (λ new. Goes (ways env.now of) front.now (has seen.old) new (has seen.new)) }
{
    let mut new = Items::new(alloc);
    for t in front {
        add_next(env, of, *t, seen, &mut new)?;
    }
    Ok(new)
}

/// The types to which the ways of a method, or of any method, lead from a type, each looked at once.
fn reached(
    alloc: Global,
    env: &Env,
    of: Option<MethodId>,
    t: TypeId,
) -> Result<BTreeSet<u64>, AllocError>
    ensures { IfOk result (λ seen. IsReached (ways env.now of) (count env.now) t (has seen)) }
{
    let mut seen = BTreeSet::new(alloc);
    let mut front = Items::new(alloc);
    add_one(&mut seen, t, &mut front)?;
    for step in 0..env.types().len() {
        if front.is_empty() {
            return Ok(seen);
        }
        front = next_front(alloc, env, of, front.as_slice(), &mut seen)?;
    }
    Ok(seen)
}

/// Whether a type has a method that its own type declares.
fn has_method(alloc: Global, env: &Env, t: TypeId, m: MethodId) -> Result<bool, AllocError>
    requires { m.place < method_count env.now m.of }
    ensures { IfOk result (λ b. b ≡ has_method env.now t (method_name env.now m) m) }
{
    let seen = reached(alloc, env, Some(m), t)?;
    Ok(seen.contains(&m.of.0))
}

/// Whether a type has a method by this name.
fn has_method_named(
    alloc: Global,
    env: &Env,
    t: TypeId,
    name: &str,
    m: MethodId,
) -> Result<bool, AllocError>
    requires { m.place < method_count env.now m.of }
    ensures { IfOk result (λ b. b ≡ has_method env.now t name.now m) }
{
    if name == env.method_name(m) {
        let had = has_method(alloc, env, t, m)?;
        return Ok(had);
    }
    Ok(false)
}

/// Adds a method, if a type has it by this name.
fn add_method(
    alloc: Global,
    env: &Env,
    t: TypeId,
    name: &str,
    m: MethodId,
    found: &mut Items<MethodId>,
) -> Result<(), AllocError>
    requires { m.place < method_count env.now m.of }
    ensures { OnOk result (found.new ≡ found.old ++ filter (has_method env.now t name.now) (m ∷ [])) }
{
    if has_method_named(alloc, env, t, name, m)? {
        found.push(m)?;
    }
    Ok(())
}

/// Adds those methods of a name that one type declares and another has.
fn add_methods(
    alloc: Global,
    env: &Env,
    t: TypeId,
    name: &str,
    owner: TypeId,
    found: &mut Items<MethodId>,
) -> Result<(), AllocError>
    ensures { OnOk result (found.new ≡ found.old ++ filter (has_method env.now t name.now) (methods_of env.now owner)) }
{
    for place in 0..env.method_count(owner) {
        add_method(alloc, env, t, name, MethodId { of: owner, place }, found)?;
    }
    Ok(())
}

impl Env {
    /// The methods of a name that a type has, in order of declaration (JLS 8.4, 9.4). It goes over the methods of the
    /// type and its supertypes, and for each of this name over the types between.
    pub fn methods(
        &self,
        alloc: Global,
        t: TypeId,
        name: &str,
    ) -> Result<Items<MethodId>, AllocError>
        ensures { IfOk result (λ ms. ms ≡ methods self.now t name.now) }
    {
        let types = reached(alloc, self, None, t)?;
        let mut found = Items::new(alloc);
        for number in &types {
            add_methods(alloc, self, t, name, TypeId(*number), &mut found)?;
        }
        Ok(found)
    }
}
