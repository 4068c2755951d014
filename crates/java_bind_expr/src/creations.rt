//! The classes that creations name and declare (JLS 15.9).

ghost use Rattle.std.specs.Prelude.{◌≡◌, IfOk};
ghost use Rattle.std.specs.Option.{option_map};
ghost use Rattle.java_model.specs.Scopes.Contexts.{numbered_id};
ghost use Rattle.java_model.specs.Bindings.Calls.{inner_class};
ghost use Rattle.java_model.specs.Bindings.Chains.{anonymous_number, anonymous_or, created_class, inner_created, inner_or_absent};
ghost use Rattle.java_scope.specs.Units.{context};

use crate::parts::last_name;
use java_env::Env;
use java_scope::{Scope, UnitContext, anonymous_number, created_type, spelled_name};
use java_tree::{Creation, Items, JType, Text, TypeId};
use std::alloc::{AllocError, Global};

/// The anonymous class that a creation declares (JLS 15.9.5).
fn anonymous_id(unit: &UnitContext<'_>, creation: &Creation) -> Result<Option<TypeId>, AllocError>
    ensures { IfOk result (λ t. t ≡ option_map (numbered_id (context unit.now)) (anonymous_number (context unit.now) creation.now)) }
{
    match anonymous_number(unit, creation) {
        Some(number) => Ok(Some(unit.numbered_id(number)?)),
        None => Ok(None),
    }
}

/// The anonymous class that a creation declares, else the class that it names (JLS 15.9.1).
pub fn anonymous_or(
    unit: &UnitContext<'_>,
    creation: &Creation,
    named: JType,
) -> Result<JType, AllocError>
    ensures { IfOk result (λ t. t ≡ anonymous_or (context unit.now) creation.now named) }
{
    match anonymous_id(unit, creation)? {
        Some(t) => Ok(JType::Class(t)),
        None => Ok(named),
    }
}

/// The class that a creation names (JLS 15.9.1).
pub fn created_class(
    alloc: Global,
    unit: &UnitContext<'_>,
    scope: &Scope,
    creation: &Creation,
) -> Result<JType, AllocError>
    ensures { IfOk result (λ t. t ≡ created_class (context unit.now) scope.now creation.now) }
{
    let anonymous = anonymous_id(unit, creation)?;
    let spelled = spelled_name(alloc, creation.class.as_slice())?;
    created_type(alloc, unit, scope, anonymous, spelled.as_slice())
}

/// The member class that a qualified creation names (JLS 15.9.1).
pub fn inner_class(
    alloc: Global,
    env: &Env,
    t: &JType,
    name: &str,
) -> Result<Option<TypeId>, AllocError>
    ensures { IfOk result (λ of. of ≡ inner_class env.now t.now name.now) }
{
    let JType::Class(t) = t else {
        return Ok(None);
    };
    let types = env.member_types(alloc, *t, name)?;
    match types.as_slice() {
        [of] => Ok(Some(*of)),
        _ => Ok(None),
    }
}

fn inner_or_absent(spelled: Items<Text>, t: Option<TypeId>) -> JType
    ensures { result ≡ inner_or_absent spelled t }
{
    match t {
        Some(t) => JType::Class(t),
        None => JType::Absent(spelled),
    }
}

/// The class that a creation names after a value and a dot: a member class of the value's type (JLS 15.9.1).
pub fn inner_created(
    alloc: Global,
    env: &Env,
    t: &JType,
    creation: &Creation,
) -> Result<JType, AllocError>
    ensures { IfOk result (λ of. of ≡ inner_created env.now t.now creation.now) }
{
    let spelled = spelled_name(alloc, creation.class.as_slice())?;
    let inner = inner_class(alloc, env, t, last_name(spelled.as_slice()))?;
    Ok(inner_or_absent(spelled, inner))
}
