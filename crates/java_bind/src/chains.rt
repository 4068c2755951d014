//! The occurrences in the selectors after a primary expression (JLS 15.9, 15.11 to 15.13).

ghost use Rattle.std.specs.Prelude.{◌≡◌, ◌++◌, IfOk, OnOk};
ghost use Rattle.java_scope.specs.Units.{context};
ghost use Rattle.std.specs.List.{zip};
ghost use Rattle.java_tree.specs.declared.expr.Selector.{out-Selector};
ghost use Rattle.java_model.specs.Bindings.Chains.{selector_type};
ghost use Rattle.java_model.specs.Occurrences.Expressions.{names_in_chain, names_in_selector};

use crate::bindings::method_reference;
use crate::calls::field_reference;
use crate::creations::in_inner_creation;
use java_bind_expr::{call_in, receiving_type, selector_type};
use java_scope::{Scope, UnitContext, selected_field};
use java_tree::{Access, Items, JType, Occurrence, Selector};
use std::alloc::{AllocError, Global};

/// A selector after a value of that type.
fn names_in_selector(
    alloc: Global,
    unit: &UnitContext<'_>,
    scope: &mut Scope,
    how: Access,
    t: &JType,
    selector: &Selector,
    arguments: &Items<JType>,
    found: &mut Vec<Occurrence>,
) -> Result<(), AllocError>
    ensures same { OnOk result (scope.new ≡ scope.old) }
    ensures adds { OnOk result (found.new.items ≡ found.old.items ++ names_in_selector (context unit.now) scope.old how t.now (out-Selector selector.now) arguments.now) }
{
    match selector {
        Selector::Field(i) => {
            let kind = selected_field(alloc, unit.env, t, i.name.as_str())?;
            field_reference(alloc, how, i, &kind, found)
        }
        Selector::MemberCall(i, xs) => {
            let of = receiving_type(unit.env, t);
            let types = arguments.as_slice();
            let m = call_in(alloc, unit, scope, i.name.as_str(), types, of)?;
            found.push(method_reference(alloc, i, xs, m)?)?;
            Ok(())
        }
        Selector::Index(_) => Ok(()),
        Selector::QualifiedNew(c) => {
            in_inner_creation(alloc, unit, scope, t, c, arguments.as_slice(), found)
        }
    }
}

/// A selector that others follow, whose value is read. It answers the type of what it selects.
fn names_before_others(
    alloc: Global,
    unit: &UnitContext<'_>,
    scope: &mut Scope,
    t: JType,
    selector: &Selector,
    arguments: &Items<JType>,
    found: &mut Vec<Occurrence>,
) -> Result<JType, AllocError>
    ensures same { OnOk result (scope.new ≡ scope.old) }
    ensures adds { OnOk result (found.new.items ≡ found.old.items ++ names_in_selector (context unit.now) scope.old Access.Read t (out-Selector selector.now) arguments.now) }
    ensures of { IfOk result (λ of. of ≡ selector_type (context unit.now) scope.old t (out-Selector selector.now) arguments.now) }
{
    let how = Access::Read;
    names_in_selector(alloc, unit, scope, how, &t, selector, arguments, found)?;
    let of = selector_type(alloc, unit, scope, t, selector, arguments.as_slice())?;
    Ok(of)
}

/// The selectors from left to right: what the last one selects has the access of the whole.
pub(crate) fn names_in_chain(
    alloc: Global,
    unit: &UnitContext<'_>,
    scope: &mut Scope,
    how: Access,
    t: JType,
    selectors: &[Selector],
    arguments: &[Items<JType>],
    found: &mut Vec<Occurrence>,
) -> Result<(), AllocError>
    ensures same { OnOk result (scope.new ≡ scope.old) }
    ensures adds { OnOk result (found.new.items ≡ found.old.items ++ names_in_chain (context unit.now) scope.old how t (zip selectors.now arguments.now)) }
{
    let mut t = t;
    let mut left = selectors;
    let mut types_left = arguments;
    while let [s, ..] = left {
        let [types, ..] = types_left else {
            return Ok(());
        };
        if left.len() == 1 {
            names_in_selector(alloc, unit, scope, how, &t, s, types, found)?;
            return Ok(());
        }
        if types_left.len() == 1 {
            names_in_selector(alloc, unit, scope, how, &t, s, types, found)?;
            return Ok(());
        }
        t = names_before_others(alloc, unit, scope, t, s, types, found)?;
        left = &left[1..];
        types_left = &types_left[1..];
    }
    Ok(())
}
