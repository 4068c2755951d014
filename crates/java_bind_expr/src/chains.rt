//! The types of primary expressions (JLS 15.8 to 15.13).

ghost use Rattle.std.specs.Prelude.{◌≡◌, IfOk};
ghost use Rattle.std.specs.List.{zip};
ghost use Rattle.java_tree.specs.declared.expr.First.{out-First};
ghost use Rattle.java_tree.specs.declared.expr.Selector.{out-Selector};
ghost use Rattle.java_model.specs.Outlines.{spelled_name};
ghost use Rattle.java_model.specs.Scopes.Contexts.{resolve_at};
ghost use Rattle.java_model.specs.Scopes.NameKinds.{classify, selected_field};
ghost use Rattle.java_model.specs.Bindings.Calls.{call_in, receiving_type, result_of};
ghost use Rattle.java_model.specs.Bindings.Chains.{anonymous_or, chain_type, created_class, first_type, flat_types, inner_created, named_call, selector_type, super_call, super_of, variable_type};
ghost use Rattle.java_scope.specs.Units.{context};

use crate::calls::{call_in, named_call, receiving_type, super_call, super_of, this_class};
use crate::creations::{anonymous_or, created_class, inner_created};
use crate::parts::{flat_types, part};
use crate::variables::{class_type, literal_type, variable_type};
use java_jtypes::component;
use java_scope::{Scope, UnitContext, classify, resolve_at, selected_field, spelled_name};
use java_tree::{Creation, First, Items, JType, Name, Selector, Text};
use std::alloc::{AllocError, Global};

/// The type of a name that stands for a value (JLS 6.5.6).
fn name_type(
    alloc: Global,
    unit: &UnitContext<'_>,
    scope: &Scope,
    name: &Name,
) -> Result<JType, AllocError>
    ensures { IfOk result (λ t. t ≡ variable_type unit.now.env.now (classify (context unit.now) scope.now (spelled_name name.now))) }
{
    let spelled = spelled_name(alloc, name.as_slice())?;
    let kind = classify(alloc, unit, scope, spelled.as_slice())?;
    variable_type(alloc, unit.env, kind)
}

/// The class that is named before `this` (JLS 15.8.4).
fn named_class(
    alloc: Global,
    unit: &UnitContext<'_>,
    scope: &Scope,
    name: &Name,
) -> Result<JType, AllocError>
    ensures { IfOk result (λ t. t ≡ resolve_at (context unit.now) scope.now (spelled_name name.now)) }
{
    let spelled = spelled_name(alloc, name.as_slice())?;
    resolve_at(alloc, unit, scope, spelled.as_slice())
}

/// The type of the field that a name selects of a value (JLS 15.11.1).
fn field_of(
    alloc: Global,
    unit: &UnitContext<'_>,
    t: &JType,
    name: &Text,
) -> Result<JType, AllocError>
    ensures { IfOk result (λ of. of ≡ variable_type unit.now.env.now (selected_field unit.now.env.now t.now name.now)) }
{
    let kind = selected_field(alloc, unit.env, t, name.as_str())?;
    variable_type(alloc, unit.env, kind)
}

/// The type of a field of a superclass (JLS 15.11.2).
fn super_field_type(
    alloc: Global,
    unit: &UnitContext<'_>,
    scope: &Scope,
    class: &Option<Name>,
    name: &Text,
) -> Result<JType, AllocError>
    ensures { IfOk result (λ t. t ≡ variable_type unit.now.env.now (selected_field unit.now.env.now (super_of (context unit.now) scope.now class.now) name.now)) }
{
    let of = super_of(alloc, unit, scope, class)?;
    field_of(alloc, unit, &of, name)
}

/// The type of a call by a name (JLS 15.12.3).
fn call_type(
    alloc: Global,
    unit: &UnitContext<'_>,
    scope: &Scope,
    name: &Name,
    parts: &[Items<JType>],
) -> Result<JType, AllocError>
    ensures { IfOk result (λ t. t ≡ result_of unit.now.env.now (named_call (context unit.now) scope.now (spelled_name name.now) (flat_types parts.now))) }
{
    let spelled = spelled_name(alloc, name.as_slice())?;
    let arguments = flat_types(alloc, parts)?;
    let method = named_call(alloc, unit, scope, spelled.as_slice(), arguments.as_slice())?;
    unit.env.result_of(alloc, method)
}

/// The type of a call by `super` (JLS 15.12.3).
fn super_call_type(
    alloc: Global,
    unit: &UnitContext<'_>,
    scope: &Scope,
    class: &Option<Name>,
    name: &Text,
    parts: &[Items<JType>],
) -> Result<JType, AllocError>
    ensures { IfOk result (λ t. t ≡ result_of unit.now.env.now (super_call (context unit.now) scope.now class.now name.now (flat_types parts.now))) }
{
    let arguments = flat_types(alloc, parts)?;
    let method = super_call(
        alloc,
        unit,
        scope,
        class,
        name.as_str(),
        arguments.as_slice(),
    )?;
    unit.env.result_of(alloc, method)
}

/// The type of a creation (JLS 15.9.1).
fn new_type(
    alloc: Global,
    unit: &UnitContext<'_>,
    scope: &Scope,
    creation: &Creation,
) -> Result<JType, AllocError>
    ensures { IfOk result (λ t. t ≡ anonymous_or (context unit.now) creation.now (created_class (context unit.now) scope.now creation.now)) }
{
    let named = created_class(alloc, unit, scope, creation)?;
    anonymous_or(unit, creation, named)
}

/// The type of what a primary expression begins with (JLS 15.8).
pub fn first_type(
    alloc: Global,
    unit: &UnitContext<'_>,
    scope: &Scope,
    first: &First,
    parts: &[Items<JType>],
) -> Result<JType, AllocError>
    ensures { IfOk result (λ t. t ≡ first_type (context unit.now) scope.now (out-First first.now) parts.now) }
{
    match first {
        First::Literal(literal) => literal_type(alloc, unit.env, literal),
        First::This(_) => Ok(this_class(scope)),
        First::Name(name) => name_type(alloc, unit, scope, name),
        First::Parenthesized(_) => part(alloc, 0, parts),
        First::ClassLiteral(_) => class_type(alloc, unit.env),
        First::VoidClass => class_type(alloc, unit.env),
        First::QualifiedThis(name, _) => named_class(alloc, unit, scope, name),
        First::SuperField(class, _, field) => {
            super_field_type(alloc, unit, scope, class, &field.name)
        }
        First::Call(name, _) => call_type(alloc, unit, scope, name, parts),
        First::SuperCall(class, _, method, _) => {
            super_call_type(alloc, unit, scope, class, &method.name, parts)
        }
        First::New(creation) => new_type(alloc, unit, scope, creation),
        First::NewArray(_, _, _) => part(alloc, 0, parts),
        First::NewArrayOf(_, _, _) => part(alloc, 0, parts),
    }
}

/// The type of a call of a method of a value (JLS 15.12.3).
fn member_call_type(
    alloc: Global,
    unit: &UnitContext<'_>,
    scope: &Scope,
    t: &JType,
    name: &Text,
    arguments: &[JType],
) -> Result<JType, AllocError>
    ensures { IfOk result (λ of. of ≡ result_of unit.now.env.now (call_in (context unit.now) scope.now name.now arguments.now (receiving_type unit.now.env.now t.now))) }
{
    let receiver = receiving_type(unit.env, t);
    let method = call_in(alloc, unit, scope, name.as_str(), arguments, receiver)?;
    unit.env.result_of(alloc, method)
}

/// The type of a creation after a value and a dot (JLS 15.9.1).
fn qualified_new_type(
    alloc: Global,
    unit: &UnitContext<'_>,
    t: &JType,
    creation: &Creation,
) -> Result<JType, AllocError>
    ensures { IfOk result (λ of. of ≡ anonymous_or (context unit.now) creation.now (inner_created unit.now.env.now t.now creation.now)) }
{
    let named = inner_created(alloc, unit.env, t, creation)?;
    anonymous_or(unit, creation, named)
}

/// The type of what a selector selects from a value of that type (JLS 15.11 to 15.13).
pub fn selector_type(
    alloc: Global,
    unit: &UnitContext<'_>,
    scope: &Scope,
    t: JType,
    selector: &Selector,
    arguments: &[JType],
) -> Result<JType, AllocError>
    ensures { IfOk result (λ of. of ≡ selector_type (context unit.now) scope.now t (out-Selector selector.now) arguments.now) }
{
    match selector {
        Selector::Field(field) => field_of(alloc, unit, &t, &field.name),
        Selector::MemberCall(method, _) => {
            member_call_type(alloc, unit, scope, &t, &method.name, arguments)
        }
        Selector::Index(_) => Ok(component(t)),
        Selector::QualifiedNew(creation) => qualified_new_type(alloc, unit, &t, creation),
    }
}

/// The type after all selectors, each with the types of its arguments, in one pass.
pub fn chain_type(
    alloc: Global,
    unit: &UnitContext<'_>,
    scope: &Scope,
    t: JType,
    selectors: &[Selector],
    parts: &[Items<JType>],
) -> Result<JType, AllocError>
    ensures { IfOk result (λ of. of ≡ chain_type (context unit.now) scope.now t (zip selectors.now parts.now)) }
{
    let mut t = t;
    let mut rest = parts;
    for selector in selectors {
        let [arguments, ..] = rest else {
            return Ok(t);
        };
        t = selector_type(alloc, unit, scope, t, selector, arguments.as_slice())?;
        rest = &rest[1..];
    }
    Ok(t)
}
