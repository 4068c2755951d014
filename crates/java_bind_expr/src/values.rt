//! The types of the nodes of a unit, from those of their parts (JLS 15).

ghost use Rattle.std.specs.Prelude.{◌≡◌, [], ◌∷◌, drop, IfOk};
ghost use Rattle.std.specs.List.{zip};
ghost use Rattle.java_tree.specs.declared.expr.Expr.{out-Expr};
ghost use Rattle.java_tree.specs.declared.expr.Operation.{out-Operation};
ghost use Rattle.java_tree.specs.declared.names.ElementType.TheVariants as elements;
ghost use Rattle.java_model.specs.Scopes.Contexts.{type_at_place};
ghost use Rattle.java_model.specs.Bindings.Chains.{chain_type, part};
ghost use Rattle.java_model.specs.Bindings.Conditionals.{conditional_type, int_literal};
ghost use Rattle.java_model.specs.Bindings.Values.{expression_type, node_types, operation_type, operations_type};
ghost use Rattle.java_nodes.specs.Seen.{seen};
ghost use Rattle.java_scope.specs.Units.{context};

use crate::arithmetic::{infix_type, prefix_type};
use crate::chains::{chain_type, first_type};
use crate::conditionals::conditional_type;
use crate::literals::int_literal;
use crate::parts::{flat_types, part, sole};
use java_env::Env;
use java_jtypes::with_dims;
use java_nodes::Node;
use java_scope::{Scope, UnitContext, resolve_at, spelled_name, type_at_place};
use java_tree::{Expr, Items, JType, Name, Operation, Primary, Primitive};
use std::alloc::{AllocError, Global};

/// An operator after a value of that type, with the type of its right operand.
fn operation_type(
    alloc: Global,
    env: &Env,
    t: &JType,
    operation: &Operation,
    right: &JType,
) -> Result<JType, AllocError>
    ensures { IfOk result (λ of. of ≡ operation_type env.now t.now (out-Operation operation.now) right.now) }
{
    match operation {
        Operation::Infix(op, _) => infix_type(alloc, env, *op, t, right),
        Operation::InstanceOf(_) => Ok(JType::Primitive(Primitive::Boolean)),
    }
}

/// A chain of operators of one level, from left to right, in one pass (JLS 15.7).
fn operations_type(
    alloc: Global,
    env: &Env,
    t: JType,
    operations: &[Operation],
    parts: &[Items<JType>],
) -> Result<JType, AllocError>
    ensures { IfOk result (λ of. of ≡ operations_type env.now t (zip operations.now parts.now)) }
{
    let mut t = t;
    let mut rest = parts;
    for operation in operations {
        let [types, ..] = rest else {
            return Ok(t);
        };
        let right = sole(alloc, types.as_slice())?;
        t = operation_type(alloc, env, &t, operation, &right)?;
        rest = &rest[1..];
    }
    Ok(t)
}

/// All parts but the first.
fn after_first(parts: &[Items<JType>]) -> &[Items<JType>]
    ensures { result.now ≡ drop 1 parts.now }
{
    match parts {
        [] => parts,
        [_, rest @ ..] => rest,
    }
}

/// The type of `a ? b : c` (JLS 15.25).
fn choice_type(
    alloc: Global,
    env: &Env,
    first: &Expr,
    second: &Expr,
    parts: &[Items<JType>],
) -> Result<JType, AllocError>
    ensures { IfOk result (λ t. t ≡ conditional_type env.now (part 1 parts.now) (int_literal first.now) (part 2 parts.now) (int_literal second.now)) }
{
    let a = part(alloc, 1, parts)?;
    let b = part(alloc, 2, parts)?;
    Ok(conditional_type(env, a, int_literal(first), b, int_literal(second)))
}

/// The type of an expression, from those of its parts (JLS 15).
fn expression_type(
    alloc: Global,
    env: &Env,
    x: &Expr,
    parts: &[Items<JType>],
) -> Result<JType, AllocError>
    ensures { IfOk result (λ t. t ≡ expression_type env.now (out-Expr x.now) parts.now) }
{
    match x {
        Expr::Assign(_, _, _) => part(alloc, 0, parts),
        Expr::Conditional(_, first, second) => {
            choice_type(alloc, env, first.get(), second.get(), parts)
        }
        Expr::Binary(_, operations) => {
            let t = part(alloc, 0, parts)?;
            operations_type(alloc, env, t, operations.as_slice(), after_first(parts))
        }
        Expr::Prefix(op, _) => Ok(prefix_type(*op, part(alloc, 0, parts)?)),
        Expr::Cast(_, _) => part(alloc, 0, parts),
        Expr::Postfix(_, _) => part(alloc, 0, parts),
    }
}

/// The type of a primary expression (JLS 15.8).
fn primary_type(
    alloc: Global,
    unit: &UnitContext<'_>,
    scope: &Scope,
    p: &Primary,
    parts: &[Items<JType>],
) -> Result<JType, AllocError>
    ensures { IfOk result (λ t. t ≡ chain_type (context unit.now) scope.now (part 0 parts.now) (zip p.now.selectors (drop 1 parts.now))) }
{
    let t = part(alloc, 0, parts)?;
    chain_type(
        alloc,
        unit,
        scope,
        t,
        p.selectors.as_slice(),
        after_first(parts),
    )
}

fn single(alloc: Global, t: JType) -> Result<Items<JType>, AllocError>
    ensures { IfOk result (λ ts. ts ≡ t ∷ []) }
{
    let mut types = Items::new(alloc);
    types.push(t)?;
    Ok(types)
}

/// The type of a name where a type alone can stand (JLS 6.5.5).
fn type_name(
    alloc: Global,
    unit: &UnitContext<'_>,
    scope: &Scope,
    name: &Name,
) -> Result<JType, AllocError>
    ensures { IfOk result (λ t. t ≡ type_at_place (context unit.now) scope.now (elements.Named name.now) 0) }
{
    let spelled = spelled_name(alloc, name.as_slice())?;
    let t = resolve_at(alloc, unit, scope, spelled.as_slice())?;
    with_dims(t, 0)
}

/// The types that a node has at a place, from those of its parts: one of an expression, those of the arguments of a
/// call, none of a statement.
pub fn node_types(
    alloc: Global,
    unit: &UnitContext<'_>,
    scope: &Scope,
    node: Node<'_>,
    parts: &[Items<JType>],
) -> Result<Items<JType>, AllocError>
    ensures { IfOk result (λ ts. ts ≡ node_types (context unit.now) scope.now (seen node.entry) parts.now) }
{
    match node {
        Node::TypeUse(element, dims) => {
            single(alloc, type_at_place(alloc, unit, scope, element, dims)?)
        }
        Node::TypeName(name) => single(alloc, type_name(alloc, unit, scope, name)?),
        Node::Expression(_, x) => single(alloc, expression_type(alloc, unit.env, x, parts)?),
        Node::Primary(_, p) => single(alloc, primary_type(alloc, unit, scope, p, parts)?),
        Node::First(_, f) => single(alloc, first_type(alloc, unit, scope, f, parts)?),
        Node::Selector(_) => flat_types(alloc, parts),
        Node::Creation(_) => flat_types(alloc, parts),
        _ => Ok(Items::new(alloc)),
    }
}
