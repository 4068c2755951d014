//! What is kept of a field, method or constructor.

ghost use Rattle.std.specs.Prelude.{◌≡◌, slice_get};
ghost use Rattle.std.specs.Option.{option_copied};
ghost use Rattle.java_model.specs.Names.Environments.{Env as AnEnv, declared_at};
ghost use Rattle.java_model.specs.Names.Fields.{field_info};
ghost use Rattle.java_model.specs.Names.Methods.{method_info};
ghost use Rattle.java_supers.specs.Reaching.{HasAll};
ghost use Rattle.java_env.specs.Members.{body_count, members_of, method_count, top_kept};

use crate::members::Members;
use java_tree::{FieldId, FieldInfo, MethodId, MethodInfo, TypeId};

fn members_in(members: &[Members], t: TypeId) -> Option<&Members>
    ensures { option_copied result ≡ slice_get members.now t.0 }
{
    members.get(t.0 as usize)
}

pub(crate) fn field_in(members: &[Members], f: FieldId) -> Option<&FieldInfo>
    ensures { (env : AnEnv) → HasAll (members_of env) env members.now → option_copied result ≡ field_info env f }
{
    match members_in(members, f.of) {
        Some(of) => of.fields.as_slice().get(f.place as usize),
        None => None,
    }
}

pub(crate) fn body_in(members: &[Members], m: MethodId) -> Option<&MethodInfo>
    ensures { (env : AnEnv) → HasAll (members_of env) env members.now → option_copied result ≡ method_info env m }
{
    match members_in(members, m.of) {
        Some(of) => of.bodies.as_slice().get(m.place as usize),
        None => None,
    }
}

/// How many methods a type declares.
pub(crate) fn methods_in(members: &[Members], t: TypeId) -> u64
    ensures { (env : AnEnv) → HasAll (members_of env) env members.now → result ≡ method_count env t }
{
    match members_in(members, t) {
        Some(of) => of.methods,
        None => 0,
    }
}

/// How many methods and constructors a type declares.
pub(crate) fn bodies_in(members: &[Members], t: TypeId) -> u64
    ensures { (env : AnEnv) → HasAll (members_of env) env members.now → result ≡ body_count env t }
{
    match members_in(members, t) {
        Some(of) => of.bodies.len() as u64,
        None => 0,
    }
}

/// The top level type around a type (JLS 7.6).
pub(crate) fn top_in(members: &[Members], t: TypeId) -> Option<TypeId>
    ensures { (env : AnEnv) → HasAll (members_of env) env members.now → result ≡ top_kept (declared_at env t) }
{
    match members_in(members, t) {
        Some(of) => of.top,
        None => None,
    }
}
