//! What a type name means in a node (JLS 6.3).

ghost use Rattle.std.specs.Prelude.{◌≡◌, IfOk};
ghost use Rattle.std.specs.Option.{option_and_then};
ghost use Rattle.java_tree.specs.declared.expr.First.{out-First};
ghost use Rattle.java_model.specs.Names.Environments.{declared_at};
ghost use Rattle.java_model.specs.Outlines.{spelled_name};
ghost use Rattle.java_model.specs.Scopes.Contexts.{numbered_id};
ghost use Rattle.java_model.specs.Scopes.TypeNames.{created_type};
ghost use Rattle.java_model.specs.Bindings.Chains.{anonymous_class};
ghost use Rattle.java_model.specs.Occurrences.Occurrences.{header_type, type_in_first, type_in_node};
ghost use Rattle.java_nodes.specs.Seen.{seen};
ghost use Rattle.java_scope.specs.Units.{context};

use crate::created::{anonymous_number, created_type, held};
use crate::scope::Scope;
use crate::type_names::{copied, resolve_at};
use crate::unit_context::UnitContext;
use java_nodes::Node;
use java_tree::{Creation, First, JType, Text, TypeId};
use std::alloc::{AllocError, Global};

/// The anonymous class that a creation declares (JLS 15.9.5).
fn anonymous_id(unit: &UnitContext<'_>, creation: &Creation) -> Result<Option<TypeId>, AllocError>
    ensures { IfOk result (λ t. option_and_then (declared_at unit.now.env.now) t ≡ anonymous_class (context unit.now) creation.now) }
{
    match anonymous_number(unit, creation) {
        Some(number) => Ok(Some(unit.numbered_id(number)?)),
        None => Ok(None),
    }
}

/// In a creation with a body its name is that of a supertype (JLS 15.9.5).
fn anonymous_type(
    alloc: Global,
    unit: &UnitContext<'_>,
    scope: &Scope,
    creation: &Creation,
    name: &[Text],
) -> Result<JType, AllocError>
    ensures { IfOk result (λ t. t ≡ created_type (context unit.now) scope.now (anonymous_class (context unit.now) creation.now) name.now) }
{
    let anonymous = anonymous_id(unit, creation)?;
    created_type(alloc, unit, scope, anonymous, name)
}

fn type_in_first(
    alloc: Global,
    unit: &UnitContext<'_>,
    scope: &Scope,
    first: &First,
    name: &[Text],
) -> Result<JType, AllocError>
    ensures { IfOk result (λ t. t ≡ type_in_first (context unit.now) scope.now (out-First first.now) name.now) }
{
    match first {
        First::Literal(_) => resolve_at(alloc, unit, scope, name),
        First::This(_) => resolve_at(alloc, unit, scope, name),
        First::Name(_) => resolve_at(alloc, unit, scope, name),
        First::Parenthesized(_) => resolve_at(alloc, unit, scope, name),
        First::ClassLiteral(_) => resolve_at(alloc, unit, scope, name),
        First::VoidClass => resolve_at(alloc, unit, scope, name),
        First::QualifiedThis(_, _) => resolve_at(alloc, unit, scope, name),
        First::SuperField(_, _, _) => resolve_at(alloc, unit, scope, name),
        First::Call(_, _) => resolve_at(alloc, unit, scope, name),
        First::SuperCall(_, _, _, _) => resolve_at(alloc, unit, scope, name),
        First::New(creation) => anonymous_type(alloc, unit, scope, creation, name),
        First::NewArray(_, _, _) => resolve_at(alloc, unit, scope, name),
        First::NewArrayOf(_, _, _) => resolve_at(alloc, unit, scope, name),
    }
}

/// In the header of a type (JLS 8.1.3, 8.1.4, 9.1.2).
fn header_type(
    alloc: Global,
    unit: &UnitContext<'_>,
    number: u64,
    name: &[Text],
) -> Result<JType, AllocError>
    ensures { IfOk result (λ t. t ≡ header_type unit.now.env.now (numbered_id (context unit.now) number) (declared_at unit.now.env.now (numbered_id (context unit.now) number)) name.now) }
{
    let id = unit.numbered_id(number)?;
    match held(unit.env, Some(id)) {
        Some(t) => unit.env.resolve_in_header(alloc, t, name),
        None => {
            let words = copied(alloc, name)?;
            Ok(JType::Absent(words))
        }
    }
}

/// What a type name means in a node. Imports and what stands before them ask no scope (JLS 7.5).
pub(crate) fn type_in_node(
    alloc: Global,
    unit: &UnitContext<'_>,
    scope: &Scope,
    node: Node<'_>,
    name: &[Text],
) -> Result<JType, AllocError>
    ensures { IfOk result (λ t. t ≡ type_in_node (context unit.now) scope.now (seen node.entry) name.now) }
{
    match node {
        Node::Unit(_) => resolve_at(alloc, unit, scope, name),
        Node::PackageClause(_) => unit.env.import_type(alloc, name),
        Node::Imported(_) => unit.env.import_type(alloc, name),
        Node::Declaration(_) => resolve_at(alloc, unit, scope, name),
        Node::Supertype(number, _) => header_type(alloc, unit, number, name),
        Node::Body(_) => resolve_at(alloc, unit, scope, name),
        Node::Member(_, _) => resolve_at(alloc, unit, scope, name),
        Node::Field(_, _) => resolve_at(alloc, unit, scope, name),
        Node::Variable(_, _) => resolve_at(alloc, unit, scope, name),
        Node::Parameter(_) => resolve_at(alloc, unit, scope, name),
        Node::TypeUse(_, _) => resolve_at(alloc, unit, scope, name),
        Node::TypeName(_) => resolve_at(alloc, unit, scope, name),
        Node::Explicit(_, _) => resolve_at(alloc, unit, scope, name),
        Node::Block(_) => resolve_at(alloc, unit, scope, name),
        Node::Statement(_) => resolve_at(alloc, unit, scope, name),
        Node::Locals(_) => resolve_at(alloc, unit, scope, name),
        Node::Arm(_) => resolve_at(alloc, unit, scope, name),
        Node::Group(_) => resolve_at(alloc, unit, scope, name),
        Node::CatchClause(_) => resolve_at(alloc, unit, scope, name),
        Node::Expression(_, _) => resolve_at(alloc, unit, scope, name),
        Node::Primary(_, _) => resolve_at(alloc, unit, scope, name),
        Node::First(_, first) => type_in_first(alloc, unit, scope, first, name),
        Node::Selector(_) => resolve_at(alloc, unit, scope, name),
        Node::Creation(_) => resolve_at(alloc, unit, scope, name),
        Node::Array(_) => resolve_at(alloc, unit, scope, name),
    }
}
