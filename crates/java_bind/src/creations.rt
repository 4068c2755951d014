//! The occurrences in class instance creations (JLS 15.9).

ghost use Rattle.std.specs.Prelude.{◌≡◌, [], ◌∷◌, ◌++◌, IfOk, OnOk};
ghost use Rattle.java_scope.specs.Units.{context};
ghost use Rattle.std.specs.Option.{option_and_then};
ghost use Rattle.java_model.specs.Names.Environments.{declared_at};
ghost use Rattle.java_model.specs.Names.Supertypes.{is_interface_type};
ghost use Rattle.java_model.specs.Bindings.Calls.{constructor_in, inner_class};
ghost use Rattle.java_model.specs.Bindings.Chains.{anonymous_class, last_name};
ghost use Rattle.java_model.specs.Occurrences.Expressions.{at_created, in_creation, in_inner_creation, is_interface_of, super_of_anonymous, constructor_reference};
ghost use Rattle.java_model.specs.Outlines.{spelled_name};
ghost use Rattle.java_model.specs.Scopes.NameKinds.{kind_or_nothing};
ghost use Rattle.java_model.specs.Scopes.Scoping.{creation_bound};
ghost use Rattle.java_tree.specs.declared.types.NameKind.TheVariants as kinds;

use crate::bindings::{constructor_reference, type_binding};
use crate::making::mention;
use crate::name_parts::{last_name, last_of, only_last, spelled_name};
use crate::names::occurrences_in;
use crate::role::Role;
use java_bind_expr::{constructor_in, created_class, inner_class, inner_created};
use java_env::Env;
use java_nodes::Node;
use java_scope::{Scope, UnitContext, anonymous_number, created_kinds, opens};
use java_tree::{Creation, Ident, Items, JType, NameKind, OccKind, Occurrence, TypeId, TypeKind};
use std::alloc::{AllocError, Global};

/// The class or the interface in an anonymous creation is a supertype (JLS 15.9.5).
fn super_of_anonymous(
    alloc: Global,
    body: Option<u32>,
    i: &Ident,
    t: &JType,
    found: &mut Vec<Occurrence>,
) -> Result<(), AllocError>
    ensures { OnOk result (found.new.items ≡ found.old.items ++ super_of_anonymous body i.now t.now) }
{
    match body {
        Some(_) => {
            found.push(mention(alloc, OccKind::Super, i, type_binding(t))?)?;
            Ok(())
        }
        None => Ok(()),
    }
}

fn is_interface_of(env: &Env, t: &JType) -> bool
    ensures { result ≡ is_interface_of env.now t.now }
{
    match t {
        JType::Class(id) => is_interface_type(env, *id),
        _ => false,
    }
}

fn is_interface_type(env: &Env, id: TypeId) -> bool
    ensures { result ≡ is_interface_type env.now id }
{
    let types = env.types();
    if types.has(id) {
        matches!(types.type_info(id).kind, TypeKind::Interface)
    } else {
        false
    }
}

/// The anonymous class that a creation declares (JLS 15.9.5).
fn anonymous_class(unit: &UnitContext<'_>, c: &Creation) -> Result<Option<TypeId>, AllocError>
    ensures { IfOk result (λ t. option_and_then (declared_at unit.now.env.now) t ≡ anonymous_class (context unit.now) c.now) }
{
    match anonymous_number(unit, c) {
        Some(number) => Ok(Some(unit.numbered_id(number)?)),
        None => Ok(None),
    }
}

/// The constructor that a creation invokes, at its name.
#[tactic(auto, using(crate::proofs::Scopes::cut_back))]
fn constructor_at(
    alloc: Global,
    unit: &UnitContext<'_>,
    scope: &mut Scope,
    c: &Creation,
    t: &JType,
    arguments: &[JType],
    i: &Ident,
) -> Result<Occurrence, AllocError>
    ensures same { OnOk result (scope.new ≡ scope.old) }
    ensures value { IfOk result (λ o. o ≡ constructor_reference i.now c.now.arguments (constructor_in (context unit.now) (scope.old ++ creation_bound (context unit.now) c.now.body) t.now arguments.now)) }
{
    let outside = scope.len();
    opens(alloc, unit, scope, Node::Creation(c))?;
    let m = constructor_in(alloc, unit, scope, t, arguments)?;
    scope.cut(outside);
    let found = constructor_reference(alloc, i, &c.arguments, m)?;
    Ok(found)
}

/// The created class at an identifier: a supertype of an anonymous class, and its constructor unless it is an interface.
fn at_identifier(
    alloc: Global,
    unit: &UnitContext<'_>,
    scope: &mut Scope,
    c: &Creation,
    t: &JType,
    arguments: &[JType],
    i: &Ident,
    found: &mut Vec<Occurrence>,
) -> Result<(), AllocError>
    ensures same { OnOk result (scope.new ≡ scope.old) }
    ensures adds { OnOk result (found.new.items ≡ found.old.items ++ at_created (context unit.now) scope.old c.now t.now arguments.now (i.now ∷ [])) }
{
    super_of_anonymous(alloc, c.body, i, t, found)?;
    if is_interface_of(unit.env, t) {
        return Ok(());
    }
    let constructor = constructor_at(alloc, unit, scope, c, t, arguments, i)?;
    found.push(constructor)?;
    Ok(())
}

/// The created class at the last identifier of its name.
#[tactic(auto, using(crate::proofs::Lasts::created_at_last, crate::proofs::Lasts::created_nowhere))]
fn at_created(
    alloc: Global,
    unit: &UnitContext<'_>,
    scope: &mut Scope,
    c: &Creation,
    t: &JType,
    arguments: &[JType],
    found: &mut Vec<Occurrence>,
) -> Result<(), AllocError>
    ensures same { OnOk result (scope.new ≡ scope.old) }
    ensures adds { OnOk result (found.new.items ≡ found.old.items ++ at_created (context unit.now) scope.old c.now t.now arguments.now c.now.class) }
{
    match last_of(c.class.as_slice()) {
        Some(i) => {
            at_identifier(alloc, unit, scope, c, t, arguments, i, found)?;
            Ok(())
        }
        None => Ok(()),
    }
}

/// A creation (JLS 15.9).
pub(crate) fn in_creation(
    alloc: Global,
    unit: &UnitContext<'_>,
    scope: &mut Scope,
    c: &Creation,
    arguments: &[JType],
    found: &mut Vec<Occurrence>,
) -> Result<(), AllocError>
    ensures same { OnOk result (scope.new ≡ scope.old) }
    ensures adds { OnOk result (found.new.items ≡ found.old.items ++ in_creation (context unit.now) scope.old c.now arguments.now) }
{
    let spelled = spelled_name(alloc, c.class.as_slice())?;
    let anonymous = anonymous_class(unit, c)?;
    let kinds = created_kinds(alloc, unit, scope, anonymous, spelled.as_slice())?;
    occurrences_in(alloc, Role::Type, c.class.as_slice(), kinds, found)?;
    let t = created_class(alloc, unit, scope, c)?;
    at_created(alloc, unit, scope, c, &t, arguments, found)
}

/// What the name in a creation after a value of that type means.
fn inner_kind(
    alloc: Global,
    env: &Env,
    t: &JType,
    c: &Creation,
) -> Result<Items<NameKind>, AllocError>
    ensures { IfOk result (λ ks. ks ≡ kind_or_nothing kinds.Class (inner_class env.now t.now (last_name (spelled_name c.now.class))) ∷ []) }
{
    let mut kinds = Items::new(alloc);
    match inner_class(alloc, env, t, last_name(c.class.as_slice()))? {
        Some(id) => kinds.push(NameKind::Class(id))?,
        None => kinds.push(NameKind::Nothing)?,
    }
    Ok(kinds)
}

/// A creation after a value of that type (JLS 15.9).
pub(crate) fn in_inner_creation(
    alloc: Global,
    unit: &UnitContext<'_>,
    scope: &mut Scope,
    t: &JType,
    c: &Creation,
    arguments: &[JType],
    found: &mut Vec<Occurrence>,
) -> Result<(), AllocError>
    ensures same { OnOk result (scope.new ≡ scope.old) }
    ensures adds { OnOk result (found.new.items ≡ found.old.items ++ in_inner_creation (context unit.now) scope.old t.now c.now arguments.now) }
{
    let kinds = inner_kind(alloc, unit.env, t, c)?;
    occurrences_in(
        alloc,
        Role::Type,
        only_last(c.class.as_slice()),
        kinds,
        found,
    )?;
    let of = inner_created(alloc, unit.env, t, c)?;
    at_created(alloc, unit, scope, c, &of, arguments, found)
}
