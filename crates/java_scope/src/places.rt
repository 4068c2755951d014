//! Places of a unit.

ghost use Rattle.std.specs.Prelude.{◌≡◌, [], None, Some, slice_get, IfOk, MatchOption};
ghost use Rattle.std.specs.Option.{option_map};
ghost use Rattle.java_model.specs.Scopes.Contexts.{Context, context_of};
ghost use Rattle.java_model.specs.Scopes.Scoping.{inside};
ghost use Rattle.java_model.specs.Occurrences.Occurrences.{spot_at, MeansKind, MeansType};
ghost use Rattle.java_nodes.specs.Seen.{seen};
ghost use Rattle.java_scope.specs.Spots.{spot, spot_of};
ghost use Rattle.java_scope.specs.Units.{context};

use crate::name_kinds::classify;
use crate::scope::Scope;
use crate::scoping::{leaves, opens};
use crate::type_in_node::type_in_node;
use crate::unit_context::UnitContext;
use java_env::Env;
use java_nodes::{Node, Tree};
use java_tree::{DocPath, JType, NameKind, Text};
use std::alloc::{AllocError, Global};

/// Goes into the child with a number: what the node opens and what the children before leave comes into scope.
fn enter<'a>(
    alloc: Global,
    unit: &UnitContext<'_>,
    tree: &'a Tree<'_>,
    scope: &mut Scope,
    node: Node<'a>,
    at: usize,
) -> Result<Option<Node<'a>>, AllocError>
    requires { tree.now.unit.now.types ≡ unit.now.types.types.now }
    ensures { IfOk result (λ n. option_map (spot_of scope.new) n ≡ slice_get (inside (context unit.now) (spot scope.old (seen node.entry))) at) }
{
    opens(alloc, unit, scope, node)?;
    for before in 0..at {
        let Some(child) = tree.child(node, before) else {
            return Ok(None);
        };
        leaves(alloc, unit, scope, child)?;
    }
    Ok(tree.child(node, at))
}

/// The node at a place of a unit, with what is in scope there.
fn spot_at<'a>(
    alloc: Global,
    unit: &UnitContext<'_>,
    tree: &'a Tree<'_>,
    scope: &mut Scope,
    place: &[usize],
) -> Result<Option<Node<'a>>, AllocError>
    requires types { tree.now.unit.now.types ≡ unit.now.types.types.now }
    requires empty { scope.old ≡ [] }
    ensures { IfOk result (λ n. option_map (spot_of scope.new) n ≡ spot_at (context unit.now) tree.now.unit.now place.now) }
{
    let mut node = tree.root();
    for at in place {
        let found = enter(alloc, unit, tree, scope, node, *at)?;
        let Some(next) = found else {
            return Ok(None);
        };
        node = next;
    }
    Ok(Some(node))
}

fn type_at(
    alloc: Global,
    unit: &UnitContext<'_>,
    tree: &Tree<'_>,
    place: &[usize],
    name: &[Text],
) -> Result<Option<JType>, AllocError>
    requires { tree.now.unit.now.types ≡ unit.now.types.types.now }
    ensures { IfOk result (λ t. MatchOption t (spot_at (context unit.now) tree.now.unit.now place.now ≡ None) (MeansType (context unit.now) tree.now.unit.now place.now name.now)) }
{
    let mut scope = Scope::new(alloc);
    let found = spot_at(alloc, unit, tree, &mut scope, place)?;
    let Some(node) = found else {
        return Ok(None);
    };
    let t = type_in_node(alloc, unit, &scope, node, name)?;
    Ok(Some(t))
}

fn kind_at(
    alloc: Global,
    unit: &UnitContext<'_>,
    tree: &Tree<'_>,
    place: &[usize],
    name: &[Text],
) -> Result<Option<NameKind>, AllocError>
    requires { tree.now.unit.now.types ≡ unit.now.types.types.now }
    ensures { IfOk result (λ k. MatchOption k (spot_at (context unit.now) tree.now.unit.now place.now ≡ None) (MeansKind (context unit.now) tree.now.unit.now place.now name.now)) }
{
    let mut scope = Scope::new(alloc);
    let found = spot_at(alloc, unit, tree, &mut scope, place)?;
    let Some(_node) = found else {
        return Ok(None);
    };
    let kind = classify(alloc, unit, &scope, name)?;
    Ok(Some(kind))
}

/// What a type name means at a place of a unit (JLS 6.5.5), none where there is no such place.
pub fn resolve_type(
    alloc: Global,
    env: &Env,
    doc: &DocPath,
    tree: &Tree<'_>,
    place: &[usize],
    name: &[Text],
) -> Result<Option<JType>, AllocError>
    ensures some { (C : Context) → context_of env.now doc.now tree.now.unit.now ≡ Some C → IfOk result (λ t. MatchOption t (spot_at C tree.now.unit.now place.now ≡ None) (MeansType C tree.now.unit.now place.now name.now)) }
    ensures none { context_of env.now doc.now tree.now.unit.now ≡ None → IfOk result (λ t. t ≡ None) }
{
    match UnitContext::of(env, doc, tree.unit) {
        Some(unit) => type_at(alloc, &unit, tree, place, name),
        None => Ok(None),
    }
}

/// What an ambiguous name means at a place of a unit (JLS 6.5.2), none where there is no such place.
pub fn classify_at(
    alloc: Global,
    env: &Env,
    doc: &DocPath,
    tree: &Tree<'_>,
    place: &[usize],
    name: &[Text],
) -> Result<Option<NameKind>, AllocError>
    ensures some { (C : Context) → context_of env.now doc.now tree.now.unit.now ≡ Some C → IfOk result (λ k. MatchOption k (spot_at C tree.now.unit.now place.now ≡ None) (MeansKind C tree.now.unit.now place.now name.now)) }
    ensures none { context_of env.now doc.now tree.now.unit.now ≡ None → IfOk result (λ k. k ≡ None) }
{
    match UnitContext::of(env, doc, tree.unit) {
        Some(unit) => kind_at(alloc, &unit, tree, place, name),
        None => Ok(None),
    }
}
