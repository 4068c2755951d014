//! What calls are bound to (JLS 15.12).

ghost use Rattle.std.specs.Prelude.{◌≡◌, false, None, Some, if◌then◌else◌, IfOk};
ghost use Rattle.std.specs.List.{filter};
ghost use Rattle.std.specs.Option.{option_map, option_map_or};
ghost use Rattle.java_model.specs.Names.Environments.{declared_at};
ghost use Rattle.java_model.specs.Names.Methods.{methods};
ghost use Rattle.java_model.specs.Names.Supertypes.{has_superclass, superclass};
ghost use Rattle.java_model.specs.Bindings.Calls.{call_in, chosen_at, constructor_in, enclosing_type, if_any, is_accessible_at, only_choice, receiving_type, super_type, this_class};
ghost use Rattle.java_model.specs.Bindings.Chains.{named_call, super_call, super_of, type_before};
ghost use Rattle.java_scope.specs.Units.{context};
ghost use Rattle.java_bind_expr.specs.Around.{first_with_method, type_after};

use crate::parts::{but_last, last_name};
use crate::variables::{qualifying_type, whole_kind};
use java_env::Env;
use java_overload::{accessible, choose};
use java_scope::{
    Scope, UnitContext, ambiguous_kinds, bodies, classify, reaching_types, resolve_at,
    spelled_name, this_type,
};
use java_tree::{Choice, Items, JType, MethodId, Name, NameKind, Text, TypeId, TypeKind};
use java_types::{DeclaredTypes, with_dots};
use std::alloc::{AllocError, Global};

fn only_choice(choice: Choice) -> Option<MethodId>
    ensures { result ≡ only_choice choice }
{
    match choice {
        Choice::One(method) => Some(method),
        Choice::Ambiguous(_) | Choice::NoMethod | Choice::UnknownArgs => None,
    }
}

/// Those methods that are accessible at a place (JLS 6.6).
fn accessible_at(
    alloc: Global,
    unit: &UnitContext<'_>,
    scope: &Scope,
    methods: &[MethodId],
) -> Result<Items<MethodId>, AllocError>
    ensures { IfOk result (λ ms. ms ≡ filter (is_accessible_at (context unit.now) scope.now) methods.now) }
{
    let reaching = reaching_types(alloc, scope)?;
    let here = with_dots(alloc, unit.outline.package.as_slice())?;
    accessible(alloc, unit.env, reaching.as_slice(), here.as_str(), methods)
}

/// The chosen one of those methods that are accessible at a place (JLS 15.12.2).
pub fn chosen_at(
    alloc: Global,
    unit: &UnitContext<'_>,
    scope: &Scope,
    methods: &[MethodId],
    arguments: &[JType],
) -> Result<Option<MethodId>, AllocError>
    ensures { IfOk result (λ m. m ≡ chosen_at (context unit.now) scope.now methods.now arguments.now) }
{
    let methods = accessible_at(alloc, unit, scope, methods)?;
    let choice = choose(alloc, unit.env, methods.as_slice(), arguments)?;
    Ok(only_choice(choice))
}

/// The type to whose methods a receiver of that type leads. An array has those of Object (JLS 10.7).
pub fn receiving_type(env: &Env, t: &JType) -> Option<TypeId>
    ensures { result ≡ receiving_type env.now t.now }
{
    match t {
        JType::Class(id) => Some(*id),
        JType::Array(_, _) => Some(env.object()),
        _ => None,
    }
}

/// The method of a type that a call is bound to.
pub fn call_in(
    alloc: Global,
    unit: &UnitContext<'_>,
    scope: &Scope,
    name: &str,
    arguments: &[JType],
    t: Option<TypeId>,
) -> Result<Option<MethodId>, AllocError>
    ensures { IfOk result (λ m. m ≡ call_in (context unit.now) scope.now name.now arguments.now t) }
{
    let Some(t) = t else {
        return Ok(None);
    };
    let methods = unit.env.methods(alloc, t, name)?;
    chosen_at(alloc, unit, scope, methods.as_slice(), arguments)
}

fn has_method(alloc: Global, env: &Env, name: &str, t: TypeId) -> Result<bool, AllocError>
    ensures { IfOk result (λ b. (if b then Some t else None) ≡ if_any t (methods env.now t name.now)) }
{
    let methods = env.methods(alloc, t, name)?;
    Ok(!methods.is_empty())
}

/// The innermost type around a place that has a method of that name (JLS 15.12.1).
pub fn enclosing_type(
    alloc: Global,
    unit: &UnitContext<'_>,
    scope: &Scope,
    name: &str,
) -> Result<Option<TypeId>, AllocError>
    ensures { IfOk result (λ t. t ≡ enclosing_type (context unit.now) scope.now name.now) }
{
    let around = bodies(alloc, scope)?;
    let found = first_with_method(alloc, unit.env, name, around.as_slice())?;
    Ok(found)
}

/// The first of these types that has a method of that name.
fn first_with_method(
    alloc: Global,
    env: &Env,
    name: &str,
    types: &[TypeId],
) -> Result<Option<TypeId>, AllocError>
    ensures { IfOk result (λ t. t ≡ first_with_method env.now name.now types.now) }
{
    for t in types {
        if has_method(alloc, env, name, *t)? {
            return Ok(Some(*t));
        }
    }
    Ok(None)
}

/// The type before the name of a method, none where a simple name means no method around (JLS 15.12.1).
pub fn type_before(
    alloc: Global,
    unit: &UnitContext<'_>,
    scope: &Scope,
    names: &[Text],
    name: &str,
) -> Result<Option<TypeId>, AllocError>
    ensures { IfOk result (λ t. t ≡ type_before (context unit.now) scope.now names.now name.now) }
{
    match names {
        [] => enclosing_type(alloc, unit, scope, name),
        [_, ..] => {
            let kind = classify(alloc, unit, scope, names)?;
            let qualifier = qualifying_type(alloc, unit.env, kind)?;
            Ok(receiving_type(unit.env, &qualifier))
        }
    }
}

/// The methods of that name that a type has, where it has any.
fn methods_if_any(
    alloc: Global,
    env: &Env,
    name: &str,
    t: TypeId,
) -> Result<Option<Items<MethodId>>, AllocError>
    ensures { IfOk result (λ ms. ms ≡ option_map (λ u. methods env.now u name.now) (if_any t (methods env.now t name.now))) }
{
    let methods = env.methods(alloc, t, name)?;
    if methods.is_empty() {
        return Ok(None);
    }
    Ok(Some(methods))
}

/// The methods of that name of the first of these types that has any.
fn methods_around(
    alloc: Global,
    env: &Env,
    name: &str,
    types: &[TypeId],
) -> Result<Option<Items<MethodId>>, AllocError>
    ensures { IfOk result (λ ms. ms ≡ option_map (λ u. methods env.now u name.now) (first_with_method env.now name.now types.now)) }
{
    for t in types {
        if let Some(found) = methods_if_any(alloc, env, name, *t)? {
            return Ok(Some(found));
        }
    }
    Ok(None)
}

/// The method that a simple name with arguments is bound to. The methods of a type around are asked for once (JLS 15.12.1).
pub fn simple_call(
    alloc: Global,
    unit: &UnitContext<'_>,
    scope: &Scope,
    name: &str,
    arguments: &[JType],
) -> Result<Option<MethodId>, AllocError>
    ensures { IfOk result (λ m. m ≡ call_in (context unit.now) scope.now name.now arguments.now (enclosing_type (context unit.now) scope.now name.now)) }
{
    let around = bodies(alloc, scope)?;
    let found = methods_around(alloc, unit.env, name, around.as_slice())?;
    match found {
        Some(methods) => chosen_at(alloc, unit, scope, methods.as_slice(), arguments),
        None => Ok(None),
    }
}

/// The method that a name with arguments is bound to, which stands after identifiers that mean this (JLS 15.12.1).
pub fn call_after(
    alloc: Global,
    unit: &UnitContext<'_>,
    scope: &Scope,
    kinds: &[NameKind],
    name: &str,
    arguments: &[JType],
) -> Result<Option<MethodId>, AllocError>
    ensures { IfOk result (λ m. m ≡ call_in (context unit.now) scope.now name.now arguments.now (type_after (context unit.now) scope.now kinds.now name.now)) }
{
    match kinds {
        [] => simple_call(alloc, unit, scope, name, arguments),
        [_, ..] => {
            let kind = whole_kind(alloc, kinds)?;
            let qualifier = qualifying_type(alloc, unit.env, kind)?;
            let t = receiving_type(unit.env, &qualifier);
            call_in(alloc, unit, scope, name, arguments, t)
        }
    }
}

/// The method that a name with arguments is bound to (JLS 15.12).
#[tactic(auto, using(crate::proofs::Called::named_after))]
pub fn named_call(
    alloc: Global,
    unit: &UnitContext<'_>,
    scope: &Scope,
    names: &[Text],
    arguments: &[JType],
) -> Result<Option<MethodId>, AllocError>
    ensures { IfOk result (λ m. m ≡ named_call (context unit.now) scope.now names.now arguments.now) }
{
    let kinds = ambiguous_kinds(alloc, unit, scope, but_last(names))?;
    call_after(
        alloc,
        unit,
        scope,
        kinds.as_slice(),
        last_name(names),
        arguments,
    )
}

fn has_superclass(env: &DeclaredTypes, t: TypeId) -> bool
    ensures { result ≡ option_map_or (λ d. has_superclass d.type.kind) (declared_at env.now t) false }
{
    env.has(t) && !matches!(env.type_info(t).kind, TypeKind::Interface)
}

/// The superclass of a class other than Object (JLS 8.1.3).
fn superclass(alloc: Global, env: &Env, t: TypeId) -> Result<Option<JType>, AllocError>
    ensures { IfOk result (λ of. of ≡ superclass env.now t) }
{
    if !env.types().has(t) || !has_superclass(env.types(), t) {
        return Ok(None);
    }
    match env.hierarchy().supers(t).first() {
        Some(of) => Ok(Some(of.copy(alloc)?)),
        None => Ok(None),
    }
}

/// The superclass of a type, Unknown without one (JLS 15.11.2, 15.12.1).
pub fn super_type(alloc: Global, env: &Env, t: &JType) -> Result<JType, AllocError>
    ensures { IfOk result (λ of. of ≡ super_type env.now t.now) }
{
    let JType::Class(t) = t else {
        return Ok(JType::Unknown);
    };
    match superclass(alloc, env, *t)? {
        Some(of) => Ok(of),
        None => Ok(JType::Unknown),
    }
}

/// The type of `this` (JLS 15.8.3).
pub fn this_class(scope: &Scope) -> JType
    ensures { result ≡ this_class scope.now }
{
    match this_type(scope) {
        Some(t) => JType::Class(t),
        None => JType::Unknown,
    }
}

/// The superclass of the class that is named before `super`, else of the class around (JLS 15.11.2, 15.12.1).
pub fn super_of(
    alloc: Global,
    unit: &UnitContext<'_>,
    scope: &Scope,
    name: &Option<Name>,
) -> Result<JType, AllocError>
    ensures { IfOk result (λ t. t ≡ super_of (context unit.now) scope.now name.now) }
{
    match name {
        None => super_type(alloc, unit.env, &this_class(scope)),
        Some(name) => {
            let spelled = spelled_name(alloc, name.as_slice())?;
            let class = resolve_at(alloc, unit, scope, spelled.as_slice())?;
            super_type(alloc, unit.env, &class)
        }
    }
}

/// The method that a call by `super` is bound to (JLS 15.12.1).
pub fn super_call(
    alloc: Global,
    unit: &UnitContext<'_>,
    scope: &Scope,
    class: &Option<Name>,
    name: &str,
    arguments: &[JType],
) -> Result<Option<MethodId>, AllocError>
    ensures { IfOk result (λ m. m ≡ super_call (context unit.now) scope.now class.now name.now arguments.now) }
{
    let receiver = super_of(alloc, unit, scope, class)?;
    let t = receiving_type(unit.env, &receiver);
    call_in(alloc, unit, scope, name, arguments, t)
}

/// The constructor of a class itself that a creation is bound to (JLS 15.9.3).
pub fn constructor_in(
    alloc: Global,
    unit: &UnitContext<'_>,
    scope: &Scope,
    t: &JType,
    arguments: &[JType],
) -> Result<Option<MethodId>, AllocError>
    ensures { IfOk result (λ m. m ≡ constructor_in (context unit.now) scope.now t.now arguments.now) }
{
    match t {
        JType::Class(id) => {
            let constructors = unit.env.constructors(alloc, *id)?;
            chosen_at(alloc, unit, scope, constructors.as_slice(), arguments)
        }
        _ => Ok(None),
    }
}
