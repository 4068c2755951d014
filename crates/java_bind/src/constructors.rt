//! The occurrences of constructors that are invoked, by a word or by none (JLS 8.8.5, 8.8.7).

ghost use Rattle.std.specs.Prelude.{◌≡◌, [], ◌++◌, drop, IfOk, OnOk};
ghost use Rattle.java_scope.specs.Units.{context};
ghost use Rattle.std.specs.Option.{option_and_then, option_copied, option_map_or};
ghost use Rattle.java_model.specs.Bindings.Calls.{constructor_in, super_type, this_class};
ghost use Rattle.java_model.specs.Bindings.Chains.{flat_types};
ghost use Rattle.java_model.specs.Occurrences.Expressions.{method_binding};
ghost use Rattle.java_model.specs.Occurrences.References.{occurrence};
ghost use Rattle.java_model.specs.Occurrences.Declarations.{head_of, implicit_in, implicit_super, names_in_explicit, simple_name, spelled_superclass, super_reference, superclass_name};

use crate::bindings::method_binding;
use crate::making::occurrence;
use crate::name_parts::last_name;
use java_bind_expr::{constructor_in, flat_types, super_type, this_class};
use java_scope::{Scope, UnitContext};
use java_tree::{Access, Callee, Constructor, Items, JType, OccKind, Occurrence, Span, TypeHead};
use std::alloc::{AllocError, Global};

/// The name after `extends`, if a class spells it (JLS 8.1.3).
pub(crate) fn spelled_superclass(head: &TypeHead) -> Option<&str>
    ensures { option_copied result ≡ spelled_superclass head.now }
{
    match head {
        TypeHead::Class(c) => match &c.extends {
            Some(name) => Some(last_name(name.as_slice())),
            None => None,
        },
        _ => None,
    }
}

/// `super(..)`, spelled or not, by the name of the superclass (JLS 8.8.5).
fn super_reference(
    alloc: Global,
    unit: &UnitContext<'_>,
    scope: &Scope,
    span: Span,
    name: &str,
    count: u64,
    arguments: &[JType],
) -> Result<Occurrence, AllocError>
    ensures { IfOk result (λ o. o ≡ super_reference (context unit.now) scope.now span name.now count arguments.now) }
{
    let class = this_class(scope);
    let of = super_type(alloc, unit.env, &class)?;
    let m = constructor_in(alloc, unit, scope, &of, arguments)?;
    let binding = method_binding(m);
    let found = occurrence(
        alloc,
        OccKind::CtorRef,
        span,
        name,
        count,
        binding,
        Access::NoAccess,
    )?;
    Ok(found)
}

/// The constructor of the superclass that is invoked without a word (JLS 8.8.7).
pub(crate) fn implicit_super(
    alloc: Global,
    unit: &UnitContext<'_>,
    scope: &Scope,
    span: Span,
    name: Option<&str>,
    found: &mut Vec<Occurrence>,
) -> Result<(), AllocError>
    ensures { OnOk result (found.new.items ≡ found.old.items ++ implicit_super (context unit.now) scope.now span (option_copied name.entry)) }
{
    match name {
        Some(name) => {
            let none = Items::new(alloc);
            found.push(super_reference(alloc, unit, scope, span, name, 0, none.as_slice())?)?;
            Ok(())
        }
        None => Ok(()),
    }
}

/// The head of the type of that number.
fn head_of<'a>(unit: &UnitContext<'a>, number: u64) -> Option<&'a TypeHead>
    ensures { option_copied result ≡ head_of (context unit.now) number }
{
    match unit.types.types.get(number as usize) {
        Some(declared) => Some(&declared.head),
        None => None,
    }
}

/// What a constructor that begins with no explicit invocation invokes (JLS 8.8.5).
pub(crate) fn implicit_in(
    alloc: Global,
    unit: &UnitContext<'_>,
    scope: &Scope,
    number: u64,
    c: &Constructor,
    found: &mut Vec<Occurrence>,
) -> Result<(), AllocError>
    ensures { OnOk result (found.new.items ≡ found.old.items ++ implicit_in (context unit.now) scope.now number c.now c.now.explicit) }
{
    match &c.explicit {
        Some(_) => Ok(()),
        None => {
            let name = spelled_superclass_of(head_of(unit, number));
            implicit_super(alloc, unit, scope, c.name.span, name, found)
        }
    }
}

fn spelled_superclass_of<'a>(head: Option<&'a TypeHead>) -> Option<&'a str>
    ensures { option_copied result ≡ option_and_then spelled_superclass (option_copied head.entry) }
{
    match head {
        Some(head) => spelled_superclass(head),
        None => None,
    }
}

/// The simple name of a type, empty for an anonymous class.
fn simple_name(head: &TypeHead) -> &str
    ensures { result.now ≡ simple_name head.now }
{
    match head {
        TypeHead::Class(c) => c.name.name.as_str(),
        TypeHead::Interface(i) => i.name.name.as_str(),
        TypeHead::Anonymous => "",
    }
}

fn simple_name_of<'a>(head: Option<&'a TypeHead>) -> &'a str
    ensures { result.now ≡ option_map_or simple_name (option_copied head.entry) [] }
{
    match head {
        Some(head) => simple_name(head),
        None => "",
    }
}

/// The spelled superclass, or Object (JLS 8.8.5.1).
fn superclass_name<'a>(head: Option<&'a TypeHead>) -> &'a str
    ensures { result.now ≡ superclass_name (option_copied head.entry) }
{
    match spelled_superclass_of(head) {
        Some(name) => name,
        None => "Object",
    }
}

/// `this(..)` (JLS 8.8.5.1).
fn this_reference(
    alloc: Global,
    unit: &UnitContext<'_>,
    scope: &Scope,
    span: Span,
    name: &str,
    count: u64,
    arguments: &[JType],
) -> Result<Occurrence, AllocError>
    ensures { IfOk result (λ o. o ≡ occurrence OccKind.CtorRef span name.now count (method_binding (constructor_in (context unit.now) scope.now (this_class scope.now) arguments.now)) Access.NoAccess) }
{
    let class = this_class(scope);
    let m = constructor_in(alloc, unit, scope, &class, arguments)?;
    let binding = method_binding(m);
    let found = occurrence(
        alloc,
        OccKind::CtorRef,
        span,
        name,
        count,
        binding,
        Access::NoAccess,
    )?;
    Ok(found)
}

/// All but the first part.
pub(crate) fn after_first(parts: &[Items<JType>]) -> &[Items<JType>]
    ensures { result.now ≡ drop 1 parts.now }
{
    match parts {
        [] => parts,
        [_, ..] => &parts[1..],
    }
}

/// `this(..)` or `super(..)` (JLS 8.8.5.1).
pub(crate) fn names_in_explicit(
    alloc: Global,
    unit: &UnitContext<'_>,
    scope: &Scope,
    number: u64,
    count: u64,
    callee: &Callee,
    parts: &[Items<JType>],
) -> Result<Occurrence, AllocError>
    ensures { IfOk result (λ o. o ≡ names_in_explicit (context unit.now) scope.now number count callee.now parts.now) }
{
    let head = head_of(unit, number);
    match callee {
        Callee::This(span) => {
            let types = flat_types(alloc, parts)?;
            let name = simple_name_of(head);
            let found = this_reference(alloc, unit, scope, *span, name, count, types.as_slice())?;
            Ok(found)
        }
        Callee::Super(None, span) => {
            let types = flat_types(alloc, parts)?;
            let name = superclass_name(head);
            let found = super_reference(alloc, unit, scope, *span, name, count, types.as_slice())?;
            Ok(found)
        }
        Callee::Super(Some(_), span) => {
            let types = flat_types(alloc, after_first(parts))?;
            let name = superclass_name(head);
            let found = super_reference(alloc, unit, scope, *span, name, count, types.as_slice())?;
            Ok(found)
        }
    }
}
