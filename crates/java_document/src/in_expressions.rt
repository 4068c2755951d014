//! The types that are declared in an expression: the bodies of anonymous classes (JLS 15.9.5).

ghost use Rattle.std.specs.Prelude.{◌≡◌, map, OnOk};
ghost use Rattle.java_model.specs.Grammar.Pieces.{each};
ghost use Rattle.java_model.specs.Grammar.YieldExpr.{yield_expr, yield_first, yield_initializer, yield_operation, yield_selector, yield_array, yield_creation, yield_primary, yield_body};
ghost use Rattle.java_document.specs.Holes.{locals_in, Finds};

use crate::finding::find;
use crate::hole::FoundHole;
use crate::scope::Scope;
use java_tree::{
    ArrayInitializer, Creation, Expr, First, Ident, Initializer, Operation, Primary, Selector,
    TypePlace,
};
use std::alloc::AllocError;

/// The body of an anonymous class, of which the creation gives the name.
#[tactic(auto, using(crate::proofs::InExpressions::in_no_body))]
fn in_body(
    class: &[Ident],
    body: Option<u32>,
    scope: &Scope<'_>,
    found: &mut Vec<FoundHole>,
) -> Result<(), AllocError>
    ensures { OnOk result (Finds (locals_in scope.now) (yield_body class.now body) found.old.items found.new.items) }
{
    match body {
        Some(brace) => find(scope, brace, TypePlace::Anonymous, class, found),
        None => Ok(()),
    }
}

/// Finds the types of an expression (JLS 15), from left to right.
#[cycle(expressions)]
#[tactic(auto, using(crate::proofs::InExpressions::in_assign, crate::proofs::InExpressions::in_conditional, crate::proofs::InExpressions::in_binary, crate::proofs::InExpressions::in_prefix, crate::proofs::InExpressions::in_cast, crate::proofs::InExpressions::in_postfix))]
pub(crate) fn in_expr(
    x: &Expr,
    scope: &Scope<'_>,
    found: &mut Vec<FoundHole>,
) -> Result<(), AllocError>
    ensures { OnOk result (Finds (locals_in scope.now) (yield_expr x.now) found.old.items found.new.items) }
{
    match x {
        Expr::Assign(target, _, value) => {
            in_primary(target, scope, found)?;
            in_expr(value.get(), scope, found)
        }
        Expr::Conditional(test, then, other) => {
            in_expr(test.get(), scope, found)?;
            in_expr(then.get(), scope, found)?;
            in_expr(other.get(), scope, found)
        }
        Expr::Binary(first, rest) => {
            in_expr(first.get(), scope, found)?;
            in_operations(rest.as_slice(), scope, found)
        }
        Expr::Prefix(_, operand) => in_expr(operand.get(), scope, found),
        Expr::Cast(_, operand) => in_expr(operand.get(), scope, found),
        Expr::Postfix(primary, _) => in_primary(primary, scope, found),
    }
}

#[cycle(expressions)]
#[tactic(auto, using(crate::proofs::Seeing::finds_none, crate::proofs::Seeing::finds_next))]
fn in_operations(
    operations: &[Operation],
    scope: &Scope<'_>,
    found: &mut Vec<FoundHole>,
) -> Result<(), AllocError>
    ensures { OnOk result (Finds (locals_in scope.now) (each (map yield_operation operations.now)) found.old.items found.new.items) }
{
    for operation in operations {
        in_operation(operation, scope, found)?;
    }
    Ok(())
}

#[cycle(expressions)]
#[tactic(auto, using(crate::proofs::InExpressions::in_infix, crate::proofs::InExpressions::in_instance_of))]
fn in_operation(
    operation: &Operation,
    scope: &Scope<'_>,
    found: &mut Vec<FoundHole>,
) -> Result<(), AllocError>
    ensures { OnOk result (Finds (locals_in scope.now) (yield_operation operation.now) found.old.items found.new.items) }
{
    match operation {
        Operation::Infix(_, operand) => in_expr(operand, scope, found),
        Operation::InstanceOf(_) => Ok(()),
    }
}

/// Finds the types of a primary expression (JLS 15.8).
#[cycle(expressions)]
#[tactic(auto, using(crate::proofs::InExpressions::in_parts))]
pub(crate) fn in_primary(
    primary: &Primary,
    scope: &Scope<'_>,
    found: &mut Vec<FoundHole>,
) -> Result<(), AllocError>
    ensures { OnOk result (Finds (locals_in scope.now) (yield_primary primary.now) found.old.items found.new.items) }
{
    in_first(&primary.first, scope, found)?;
    in_selectors(primary.selectors.as_slice(), scope, found)
}

#[cycle(expressions)]
#[tactic(auto, using(crate::proofs::InExpressions::in_parenthesized, crate::proofs::InExpressions::in_call, crate::proofs::InExpressions::in_super_call, crate::proofs::InExpressions::in_new, crate::proofs::InExpressions::in_new_sizes, crate::proofs::InExpressions::in_new_elements, crate::proofs::InExpressions::in_literal, crate::proofs::InExpressions::in_this, crate::proofs::InExpressions::in_name, crate::proofs::InExpressions::in_class_literal, crate::proofs::InExpressions::in_void_class, crate::proofs::InExpressions::in_qualified_this, crate::proofs::InExpressions::in_super_field))]
fn in_first(first: &First, scope: &Scope<'_>, found: &mut Vec<FoundHole>) -> Result<(), AllocError>
    ensures { OnOk result (Finds (locals_in scope.now) (yield_first first.now) found.old.items found.new.items) }
{
    match first {
        First::Parenthesized(x) => in_expr(x.get(), scope, found),
        First::Call(_, arguments) => in_exprs(arguments.as_slice(), scope, found),
        First::SuperCall(_, _, _, arguments) => in_exprs(arguments.as_slice(), scope, found),
        First::New(creation) => in_creation(creation, scope, found),
        First::NewArray(_, sizes, _) => in_exprs(sizes.as_slice(), scope, found),
        First::NewArrayOf(_, _, array) => in_array(array, scope, found),
        First::Literal(_) => Ok(()),
        First::This(_) => Ok(()),
        First::Name(_) => Ok(()),
        First::ClassLiteral(_) => Ok(()),
        First::VoidClass => Ok(()),
        First::QualifiedThis(_, _) => Ok(()),
        First::SuperField(_, _, _) => Ok(()),
    }
}

#[cycle(expressions)]
#[tactic(auto, using(crate::proofs::Seeing::finds_none, crate::proofs::Seeing::finds_next))]
fn in_selectors(
    selectors: &[Selector],
    scope: &Scope<'_>,
    found: &mut Vec<FoundHole>,
) -> Result<(), AllocError>
    ensures { OnOk result (Finds (locals_in scope.now) (each (map yield_selector selectors.now)) found.old.items found.new.items) }
{
    for selector in selectors {
        in_selector(selector, scope, found)?;
    }
    Ok(())
}

#[cycle(expressions)]
#[tactic(auto, using(crate::proofs::InExpressions::in_field, crate::proofs::InExpressions::in_member_call, crate::proofs::InExpressions::in_index, crate::proofs::InExpressions::in_qualified_new))]
fn in_selector(
    selector: &Selector,
    scope: &Scope<'_>,
    found: &mut Vec<FoundHole>,
) -> Result<(), AllocError>
    ensures { OnOk result (Finds (locals_in scope.now) (yield_selector selector.now) found.old.items found.new.items) }
{
    match selector {
        Selector::Field(_) => Ok(()),
        Selector::MemberCall(_, arguments) => in_exprs(arguments.as_slice(), scope, found),
        Selector::Index(x) => in_expr(x.get(), scope, found),
        Selector::QualifiedNew(creation) => in_creation(creation, scope, found),
    }
}

/// Finds the types of expressions, in their order.
#[cycle(expressions)]
#[tactic(auto, using(crate::proofs::Seeing::finds_none, crate::proofs::Seeing::finds_next))]
pub(crate) fn in_exprs(
    exprs: &[Expr],
    scope: &Scope<'_>,
    found: &mut Vec<FoundHole>,
) -> Result<(), AllocError>
    ensures { OnOk result (Finds (locals_in scope.now) (each (map yield_expr exprs.now)) found.old.items found.new.items) }
{
    for x in exprs {
        in_expr(x, scope, found)?;
    }
    Ok(())
}

#[cycle(expressions)]
#[tactic(auto, using(crate::proofs::InExpressions::in_created))]
fn in_creation(
    creation: &Creation,
    scope: &Scope<'_>,
    found: &mut Vec<FoundHole>,
) -> Result<(), AllocError>
    ensures { OnOk result (Finds (locals_in scope.now) (yield_creation creation.now) found.old.items found.new.items) }
{
    in_exprs(creation.arguments.as_slice(), scope, found)?;
    in_body(creation.class.as_slice(), creation.body, scope, found)
}

/// Finds the types of the initializer of a variable or an element (JLS 8.3, 10.6).
#[cycle(expressions)]
#[tactic(auto, using(crate::proofs::InExpressions::in_value, crate::proofs::InExpressions::in_array_value))]
pub(crate) fn in_initializer(
    initializer: &Initializer,
    scope: &Scope<'_>,
    found: &mut Vec<FoundHole>,
) -> Result<(), AllocError>
    ensures { OnOk result (Finds (locals_in scope.now) (yield_initializer initializer.now) found.old.items found.new.items) }
{
    match initializer {
        Initializer::Value(x) => in_expr(x, scope, found),
        Initializer::Array(array) => in_array(array, scope, found),
    }
}

#[cycle(expressions)]
#[tactic(auto, using(crate::proofs::InExpressions::in_all_elements))]
fn in_array(
    array: &ArrayInitializer,
    scope: &Scope<'_>,
    found: &mut Vec<FoundHole>,
) -> Result<(), AllocError>
    ensures { OnOk result (Finds (locals_in scope.now) (yield_array array.now) found.old.items found.new.items) }
{
    in_initializers(array.elements.as_slice(), scope, found)
}

#[cycle(expressions)]
#[tactic(auto, using(crate::proofs::Seeing::finds_none, crate::proofs::Seeing::finds_next))]
fn in_initializers(
    initializers: &[Initializer],
    scope: &Scope<'_>,
    found: &mut Vec<FoundHole>,
) -> Result<(), AllocError>
    ensures { OnOk result (Finds (locals_in scope.now) (each (map yield_initializer initializers.now)) found.old.items found.new.items) }
{
    for initializer in initializers {
        in_initializer(initializer, scope, found)?;
    }
    Ok(())
}
