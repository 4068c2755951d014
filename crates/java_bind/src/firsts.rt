//! The occurrences in what a primary expression begins with (JLS 15.8 to 15.12).

ghost use Rattle.std.specs.Prelude.{◌≡◌, [], ◌∷◌, ◌++◌, OnOk};
ghost use Rattle.java_scope.specs.Units.{context};
ghost use Rattle.java_tree.specs.declared.expr.First.{out-First};
ghost use Rattle.java_model.specs.Bindings.Chains.{flat_types, super_call, super_of};
ghost use Rattle.java_model.specs.Outlines.{spelled_name};
ghost use Rattle.java_model.specs.Occurrences.References.{as_variable, occurrences_in};
ghost use Rattle.java_model.specs.Scopes.NameKinds.{ambiguous_kinds, selected_field};
ghost use Rattle.java_model.specs.Occurrences.Expressions.{field_reference, in_optional_type, method_reference, names_in_first};

use crate::bindings::method_reference;
use crate::calls::{field_reference, in_call};
use crate::creations::in_creation;
use crate::name_parts::spelled_name;
use crate::names::occurrences_in;
use crate::role::Role;
use crate::type_uses::{in_optional_type, in_type_name};
use java_bind_expr::{flat_types, super_call, super_of};
use java_scope::{Scope, UnitContext, ambiguous_kinds, selected_field};
use java_tree::{Access, Expr, First, Ident, Items, JType, Name, Occurrence};
use std::alloc::{AllocError, Global};

/// An expression name (JLS 6.5.6).
fn in_variable(
    alloc: Global,
    unit: &UnitContext<'_>,
    scope: &Scope,
    how: Access,
    name: &[Ident],
    found: &mut Vec<Occurrence>,
) -> Result<(), AllocError>
    ensures { OnOk result (found.new.items ≡ found.old.items ++ occurrences_in (as_variable how) name.now (ambiguous_kinds (context unit.now) scope.now (spelled_name name.now))) }
{
    let spelled = spelled_name(alloc, name)?;
    let kinds = ambiguous_kinds(alloc, unit, scope, spelled.as_slice())?;
    occurrences_in(alloc, Role::Variable(how), name, kinds, found)
}

/// A field of the superclass (JLS 15.11.2).
fn in_super_field(
    alloc: Global,
    unit: &UnitContext<'_>,
    scope: &Scope,
    how: Access,
    name: &Option<Name>,
    i: &Ident,
    found: &mut Vec<Occurrence>,
) -> Result<(), AllocError>
    ensures { OnOk result (found.new.items ≡ found.old.items ++ (in_optional_type (context unit.now) scope.now name.now ++ field_reference how i.now (selected_field unit.now.env.now (super_of (context unit.now) scope.now name.now) i.now.name))) }
{
    in_optional_type(alloc, unit, scope, name, found)?;
    let of = super_of(alloc, unit, scope, name)?;
    let kind = selected_field(alloc, unit.env, &of, i.name.as_str())?;
    field_reference(alloc, how, i, &kind, found)
}

/// A call of a method of the superclass (JLS 15.12).
fn in_super_call(
    alloc: Global,
    unit: &UnitContext<'_>,
    scope: &Scope,
    name: &Option<Name>,
    i: &Ident,
    arguments: &Items<Expr>,
    parts: &[Items<JType>],
    found: &mut Vec<Occurrence>,
) -> Result<(), AllocError>
    ensures { OnOk result (found.new.items ≡ found.old.items ++ (in_optional_type (context unit.now) scope.now name.now ++ method_reference i.now arguments.now (super_call (context unit.now) scope.now name.now i.now.name (flat_types parts.now)) ∷ [])) }
{
    in_optional_type(alloc, unit, scope, name, found)?;
    let types = flat_types(alloc, parts)?;
    let m = super_call(alloc, unit, scope, name, i.name.as_str(), types.as_slice())?;
    found.push(method_reference(alloc, i, arguments, m)?)?;
    Ok(())
}

/// What a primary expression begins with.
pub(crate) fn names_in_first(
    alloc: Global,
    unit: &UnitContext<'_>,
    scope: &mut Scope,
    how: Access,
    f: &First,
    parts: &[Items<JType>],
    found: &mut Vec<Occurrence>,
) -> Result<(), AllocError>
    ensures same { OnOk result (scope.new ≡ scope.old) }
    ensures adds { OnOk result (found.new.items ≡ found.old.items ++ names_in_first (context unit.now) scope.old how (out-First f.now) parts.now) }
{
    match f {
        First::Name(n) => in_variable(alloc, unit, scope, how, n.as_slice(), found),
        First::QualifiedThis(n, _) => in_type_name(alloc, unit, scope, n.as_slice(), found),
        First::SuperField(n, _, i) => in_super_field(alloc, unit, scope, how, n, i, found),
        First::Call(n, arguments) => {
            let types = flat_types(alloc, parts)?;
            in_call(
                alloc,
                unit,
                scope,
                n.as_slice(),
                arguments,
                types.as_slice(),
                found,
            )
        }
        First::SuperCall(n, _, i, arguments) => {
            in_super_call(alloc, unit, scope, n, i, arguments, parts, found)
        }
        First::New(c) => {
            let types = flat_types(alloc, parts)?;
            in_creation(alloc, unit, scope, c, types.as_slice(), found)
        }
        First::Literal(_) => Ok(()),
        First::This(_) => Ok(()),
        First::Parenthesized(_) => Ok(()),
        First::ClassLiteral(_) => Ok(()),
        First::VoidClass => Ok(()),
        First::NewArray(_, _, _) => Ok(()),
        First::NewArrayOf(_, _, _) => Ok(()),
    }
}
