//! The occurrences that a node itself has.

ghost use Rattle.std.specs.Prelude.{◌≡◌, [], ◌∷◌, ◌++◌, OnOk};
ghost use Rattle.java_scope.specs.Units.{context};
ghost use Rattle.java_nodes.specs.Seen.{seen};
ghost use Rattle.java_model.specs.Occurrences.Occurrences.{node_names};
ghost use Rattle.java_model.specs.Tree.Nodes.{explicit, primary};

use crate::chains::names_in_chain;
use crate::constructors::{after_first, names_in_explicit};
use crate::declarations::{in_supertype, names_in_declaration, names_in_member};
use crate::declared::{field_declaration, in_import, package_declaration};
use crate::firsts::names_in_first;
use crate::type_uses::{in_element, in_type_name};
use java_bind_expr::part;
use java_nodes::Node;
use java_scope::{Scope, UnitContext};
use java_tree::{Access, Explicit, Items, JType, Occurrence, Primary};
use std::alloc::{AllocError, Global};

/// One occurrence more.
fn add(found: &mut Vec<Occurrence>, one: Occurrence) -> Result<(), AllocError>
    ensures { OnOk result (found.new.items ≡ found.old.items ++ one ∷ []) }
{
    found.push(one)?;
    Ok(())
}

/// A primary expression with its selectors (JLS 15.8).
fn in_primary(
    alloc: Global,
    unit: &UnitContext<'_>,
    scope: &mut Scope,
    how: Access,
    p: &Primary,
    parts: &[Items<JType>],
    found: &mut Vec<Occurrence>,
) -> Result<(), AllocError>
    ensures same { OnOk result (scope.new ≡ scope.old) }
    ensures adds { OnOk result (found.new.items ≡ found.old.items ++ node_names (context unit.now) scope.old (primary how p.now) parts.now) }
{
    let t = part(alloc, 0, parts)?;
    let arguments = after_first(parts);
    names_in_chain(
        alloc,
        unit,
        scope,
        how,
        t,
        p.selectors.as_slice(),
        arguments,
        found,
    )
}

/// The name of an ExplicitConstructorInvocation (JLS 8.8.5.1).
fn in_explicit(
    alloc: Global,
    unit: &UnitContext<'_>,
    scope: &Scope,
    number: u64,
    e: &Explicit,
    parts: &[Items<JType>],
    found: &mut Vec<Occurrence>,
) -> Result<(), AllocError>
    ensures { OnOk result (found.new.items ≡ found.old.items ++ node_names (context unit.now) scope.now (explicit number e.now) parts.now) }
{
    let count = e.arguments.len() as u64;
    let named = names_in_explicit(alloc, unit, scope, number, count, &e.callee, parts)?;
    add(found, named)
}

/// The occurrences that a node itself has at a place, given the types of its parts.
pub(crate) fn node_names(
    alloc: Global,
    unit: &UnitContext<'_>,
    scope: &mut Scope,
    node: Node<'_>,
    parts: &[Items<JType>],
    found: &mut Vec<Occurrence>,
) -> Result<(), AllocError>
    ensures same { OnOk result (scope.new ≡ scope.old) }
    ensures adds { OnOk result (found.new.items ≡ found.old.items ++ node_names (context unit.now) scope.old (seen node.entry) parts.now) }
{
    match node {
        Node::PackageClause(n) => add(found, package_declaration(alloc, n.as_slice())?),
        Node::Imported(i) => in_import(alloc, unit.env, i, found),
        Node::Declaration(brace) => names_in_declaration(alloc, unit, scope, brace, found),
        Node::Supertype(number, n) => in_supertype(alloc, unit, number, n.as_slice(), found),
        Node::Member(number, m) => names_in_member(alloc, unit, scope, number, m, found),
        Node::Field(number, v) => add(found, field_declaration(alloc, unit, number, &v.name)?),
        Node::TypeUse(e, _) => in_element(alloc, unit, scope, e, found),
        Node::TypeName(n) => in_type_name(alloc, unit, scope, n.as_slice(), found),
        Node::Explicit(number, e) => in_explicit(alloc, unit, scope, number, e, parts, found),
        Node::Primary(how, p) => in_primary(alloc, unit, scope, how, p, parts, found),
        Node::First(how, f) => names_in_first(alloc, unit, scope, how, f, parts, found),
        Node::Unit(_) | Node::Body(_) | Node::Variable(_, _) | Node::Parameter(_) => Ok(()),
        Node::Block(_) | Node::Statement(_) | Node::Locals(_) | Node::Arm(_) => Ok(()),
        Node::Group(_) | Node::CatchClause(_) | Node::Expression(_, _) => Ok(()),
        Node::Selector(_) | Node::Creation(_) | Node::Array(_) => Ok(()),
    }
}
