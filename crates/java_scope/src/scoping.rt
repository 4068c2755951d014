//! What each part of a unit brings into scope (JLS 6.3).

ghost use Rattle.std.specs.Prelude.{◌≡◌, ◌+◌, [], ◌∷◌, ◌++◌, map, IfOk, OnOk};
ghost use Rattle.std.specs.Option.{option_map};
ghost use Rattle.java_tree.specs.declared.bound.Bound.TheVariants as bounds;
ghost use Rattle.java_model.specs.Tree.InStatements.{block_statement};
ghost use Rattle.java_model.specs.Scopes.Contexts.{type_at_place};
ghost use Rattle.java_model.specs.Scopes.Scoping.{creation_bound, declared_locally, leaves, leaves_each, leaves_one, local_class, local_variable, opens, parameter_bound, within_body};
ghost use Rattle.java_nodes.specs.Seen.{seen, seen_type};
ghost use Rattle.java_scope.specs.Units.{context};

use crate::created::anonymous_number;
use crate::scope::Scope;
use crate::type_names::type_at_place;
use crate::unit_context::UnitContext;
use java_nodes::{Node, NumberedType};
use java_tree::{
    BlockStatement, Bound, Creation, Ident, LocalVariables, Parameter, TypePlace, TypeUse, Variable,
};
use std::alloc::{AllocError, Global};

/// A variable of a type with so many `[]` more (JLS 10.2).
fn bound_of(
    alloc: Global,
    unit: &UnitContext<'_>,
    scope: &Scope,
    of: &TypeUse,
    name: &Ident,
    dims: u32,
) -> Result<Bound, AllocError>
    ensures { IfOk result (λ b. b ≡ bounds.Variable name.now.name (type_at_place (context unit.now) scope.now of.now.element (of.now.dims + dims))) }
{
    let name = name.name.copy(alloc)?;
    let all = u64::from(of.dims) + u64::from(dims);
    let t = type_at_place(alloc, unit, scope, &of.element, all)?;
    Ok(Bound::Variable(name, t))
}

fn push_variable(
    alloc: Global,
    unit: &UnitContext<'_>,
    scope: &mut Scope,
    of: &TypeUse,
    variable: &Variable,
) -> Result<(), AllocError>
    ensures { OnOk result (scope.new ≡ scope.old ++ local_variable (context unit.now) scope.old of.now variable.now ∷ []) }
{
    let bound = bound_of(alloc, unit, scope, of, &variable.name, variable.dims)?;
    scope.push(bound)
}

fn push_parameter(
    alloc: Global,
    unit: &UnitContext<'_>,
    scope: &mut Scope,
    parameter: &Parameter,
) -> Result<(), AllocError>
    ensures { OnOk result (scope.new ≡ scope.old ++ parameter_bound (context unit.now) scope.old parameter.now ∷ []) }
{
    let bound = bound_of(
        alloc,
        unit,
        scope,
        &parameter.of,
        &parameter.name,
        parameter.dims,
    )?;
    scope.push(bound)
}

/// The variables of a declaration. None of them changes what the type of another means.
fn push_locals(
    alloc: Global,
    unit: &UnitContext<'_>,
    scope: &mut Scope,
    locals: &LocalVariables,
) -> Result<(), AllocError>
    ensures { OnOk result (scope.new ≡ scope.old ++ map (local_variable (context unit.now) scope.old locals.now.of) locals.now.variables) }
{
    for variable in locals.variables.as_slice() {
        push_variable(alloc, unit, scope, &locals.of, variable)?;
    }
    Ok(())
}

/// A local class (JLS 14.3).
fn push_local_class(
    unit: &UnitContext<'_>,
    scope: &mut Scope,
    number: u64,
    place: TypePlace,
) -> Result<(), AllocError>
    ensures { OnOk result (scope.new ≡ scope.old ++ local_class (context unit.now) number place) }
{
    match place {
        TypePlace::Local => scope.push(Bound::Class(unit.numbered_id(number)?)),
        _ => Ok(()),
    }
}

/// After its declaration a local class (JLS 14.3).
fn push_declared(
    unit: &UnitContext<'_>,
    scope: &mut Scope,
    t: Option<NumberedType<'_>>,
) -> Result<(), AllocError>
    ensures { OnOk result (scope.new ≡ scope.old ++ declared_locally (context unit.now) (option_map seen_type t.entry)) }
{
    match t {
        Some(t) => push_local_class(unit, scope, t.number, t.declared.place),
        None => Ok(()),
    }
}

/// Within its body a local class itself, and the members of the type (JLS 8.1.5, 14.3).
fn push_body(
    unit: &UnitContext<'_>,
    scope: &mut Scope,
    t: Option<NumberedType<'_>>,
) -> Result<(), AllocError>
    ensures { OnOk result (scope.new ≡ scope.old ++ within_body (context unit.now) (option_map seen_type t.entry)) }
{
    match t {
        Some(t) => {
            push_local_class(unit, scope, t.number, t.declared.place)?;
            scope.push(Bound::Members(unit.numbered_id(t.number)?))
        }
        None => Ok(()),
    }
}

/// In the arguments of a creation with a body, its anonymous class (JLS 6.6.2, 15.9.5).
fn push_creation(
    unit: &UnitContext<'_>,
    scope: &mut Scope,
    creation: &Creation,
) -> Result<(), AllocError>
    ensures { OnOk result (scope.new ≡ scope.old ++ creation_bound (context unit.now) creation.now.body) }
{
    match anonymous_number(unit, creation) {
        Some(number) => scope.push(Bound::Arguments(unit.numbered_id(number)?)),
        None => Ok(()),
    }
}

/// Brings into scope what a node does inside itself (JLS 8.1.5, 14.3, 14.4.2).
pub fn opens(
    alloc: Global,
    unit: &UnitContext<'_>,
    scope: &mut Scope,
    node: Node<'_>,
) -> Result<(), AllocError>
    ensures { OnOk result (scope.new ≡ scope.old ++ opens (context unit.now) scope.old (seen node.entry)) }
{
    match node {
        Node::Unit(_) => Ok(()),
        Node::PackageClause(_) => Ok(()),
        Node::Imported(_) => Ok(()),
        Node::Declaration(_) => Ok(()),
        Node::Supertype(_, _) => Ok(()),
        Node::Body(brace) => push_body(unit, scope, unit.types.numbered(brace)),
        Node::Member(_, _) => Ok(()),
        Node::Field(_, _) => Ok(()),
        Node::Variable(of, variable) => push_variable(alloc, unit, scope, of, variable),
        Node::Parameter(_) => Ok(()),
        Node::TypeUse(_, _) => Ok(()),
        Node::TypeName(_) => Ok(()),
        Node::Explicit(_, _) => Ok(()),
        Node::Block(_) => Ok(()),
        Node::Statement(_) => Ok(()),
        Node::Locals(_) => Ok(()),
        Node::Arm(_) => Ok(()),
        Node::Group(_) => Ok(()),
        Node::CatchClause(_) => Ok(()),
        Node::Expression(_, _) => Ok(()),
        Node::Primary(_, _) => Ok(()),
        Node::First(_, _) => Ok(()),
        Node::Selector(_) => Ok(()),
        Node::Creation(creation) => push_creation(unit, scope, creation),
        Node::Array(_) => Ok(()),
    }
}

/// Brings into scope what a statement of a block does after itself (JLS 14.3, 14.4.2).
fn leaves_statement(
    alloc: Global,
    unit: &UnitContext<'_>,
    scope: &mut Scope,
    statement: &BlockStatement,
) -> Result<(), AllocError>
    ensures { OnOk result (scope.new ≡ scope.old ++ leaves_one (context unit.now) scope.old (block_statement statement.now)) }
{
    match statement {
        BlockStatement::LocalClass(brace) => {
            push_declared(unit, scope, unit.types.numbered(*brace))
        }
        BlockStatement::Local(locals) => push_locals(alloc, unit, scope, locals),
        BlockStatement::Statement(_) => Ok(()),
    }
}

/// Brings into scope what each of these statements does.
fn leaves_each(
    alloc: Global,
    unit: &UnitContext<'_>,
    scope: &mut Scope,
    statements: &[BlockStatement],
) -> Result<(), AllocError>
    ensures { OnOk result (scope.new ≡ scope.old ++ leaves_each (context unit.now) scope.old (map block_statement statements.now)) }
{
    for statement in statements {
        leaves_statement(alloc, unit, scope, statement)?;
    }
    Ok(())
}

/// Brings into scope what a node does after itself, up to the end of the node around it (JLS 8.4.1, 14.3, 14.4.2,
/// 14.10, 14.13).
pub fn leaves(
    alloc: Global,
    unit: &UnitContext<'_>,
    scope: &mut Scope,
    node: Node<'_>,
) -> Result<(), AllocError>
    ensures { OnOk result (scope.new ≡ scope.old ++ leaves (context unit.now) scope.old (seen node.entry)) }
{
    match node {
        Node::Unit(_) => Ok(()),
        Node::PackageClause(_) => Ok(()),
        Node::Imported(_) => Ok(()),
        Node::Declaration(brace) => push_declared(unit, scope, unit.types.numbered(brace)),
        Node::Supertype(_, _) => Ok(()),
        Node::Body(_) => Ok(()),
        Node::Member(_, _) => Ok(()),
        Node::Field(_, _) => Ok(()),
        Node::Variable(of, variable) => push_variable(alloc, unit, scope, of, variable),
        Node::Parameter(parameter) => push_parameter(alloc, unit, scope, parameter),
        Node::TypeUse(_, _) => Ok(()),
        Node::TypeName(_) => Ok(()),
        Node::Explicit(_, _) => Ok(()),
        Node::Block(_) => Ok(()),
        Node::Statement(_) => Ok(()),
        Node::Locals(locals) => push_locals(alloc, unit, scope, locals),
        Node::Arm(_) => Ok(()),
        Node::Group(group) => leaves_each(alloc, unit, scope, group.statements.as_slice()),
        Node::CatchClause(_) => Ok(()),
        Node::Expression(_, _) => Ok(()),
        Node::Primary(_, _) => Ok(()),
        Node::First(_, _) => Ok(()),
        Node::Selector(_) => Ok(()),
        Node::Creation(_) => Ok(()),
        Node::Array(_) => Ok(()),
    }
}
