//! The occurrences in calls and field accesses.

ghost use Rattle.std.specs.Prelude.{◌≡◌, ◌++◌, OnOk};
ghost use Rattle.java_scope.specs.Units.{context};
ghost use Rattle.java_model.specs.Occurrences.Expressions.{at_last, field_reference, in_call};

use crate::bindings::method_reference;
use crate::name_parts::{all_but_last, last_of, spelled_name};
use crate::names::{identifier_in, occurrences_in};
use crate::role::Role;
use java_bind_expr::named_call;
use java_scope::{Scope, UnitContext, ambiguous_kinds};
use java_tree::{Access, Expr, Ident, Items, JType, MethodId, NameKind, Occurrence};
use std::alloc::{AllocError, Global};

/// The last identifier of a field access (JLS 15.11).
pub(crate) fn field_reference(
    alloc: Global,
    how: Access,
    i: &Ident,
    kind: &NameKind,
    found: &mut Vec<Occurrence>,
) -> Result<(), AllocError>
    ensures { OnOk result (found.new.items ≡ found.old.items ++ field_reference how i.now kind.now) }
{
    identifier_in(alloc, Role::Variable(how), how, i, kind, found)
}

/// The method's name in a call.
#[tactic(auto, using(crate::proofs::Lasts::at_last_there, crate::proofs::Lasts::at_no_last))]
fn at_last(
    alloc: Global,
    name: &[Ident],
    arguments: &Items<Expr>,
    m: Option<MethodId>,
    found: &mut Vec<Occurrence>,
) -> Result<(), AllocError>
    ensures { OnOk result (found.new.items ≡ found.old.items ++ at_last name.now arguments.now m) }
{
    match last_of(name) {
        Some(i) => {
            found.push(method_reference(alloc, i, arguments, m)?)?;
            Ok(())
        }
        None => Ok(()),
    }
}

/// The name in a call, and what stands before its last dot (JLS 6.5.1, 15.12).
pub(crate) fn in_call(
    alloc: Global,
    unit: &UnitContext<'_>,
    scope: &Scope,
    name: &[Ident],
    arguments: &Items<Expr>,
    types: &[JType],
    found: &mut Vec<Occurrence>,
) -> Result<(), AllocError>
    ensures { OnOk result (found.new.items ≡ found.old.items ++ in_call (context unit.now) scope.now name.now arguments.now types.now) }
{
    let before = all_but_last(name);
    let qualifier = spelled_name(alloc, before)?;
    let kinds = ambiguous_kinds(alloc, unit, scope, qualifier.as_slice())?;
    occurrences_in(alloc, Role::Qualifier, before, kinds, found)?;
    let spelled = spelled_name(alloc, name)?;
    let m = named_call(alloc, unit, scope, spelled.as_slice(), types)?;
    at_last(alloc, name, arguments, m, found)
}
