//! What a node is worth, and what it names.

ghost use Rattle.std.specs.Prelude.{◌≡◌, ◌++◌, IfOk, OnOk};
ghost use Rattle.java_scope.specs.Units.{context};
ghost use Rattle.java_nodes.specs.Seen.{seen};
ghost use Rattle.java_model.specs.Bindings.Values.{node_types};
ghost use Rattle.java_model.specs.Occurrences.Occurrences.{node_names};

use crate::node_names::node_names;
use java_bind_expr::node_types;
use java_nodes::Node;
use java_scope::{Scope, UnitContext};
use java_tree::{Items, JType, Occurrence};
use std::alloc::{AllocError, Global};

/// The types of a node at a place, given those of its parts. What it names is added.
pub(crate) fn finish(
    alloc: Global,
    unit: &UnitContext<'_>,
    scope: &mut Scope,
    node: Node<'_>,
    parts: &[Items<JType>],
    found: &mut Vec<Occurrence>,
) -> Result<Items<JType>, AllocError>
    ensures same { OnOk result (scope.new ≡ scope.old) }
    ensures types { IfOk result (λ ts. ts ≡ node_types (context unit.now) scope.old (seen node.entry) parts.now) }
    ensures names { OnOk result (found.new.items ≡ found.old.items ++ node_names (context unit.now) scope.old (seen node.entry) parts.now) }
{
    let types = node_types(alloc, unit, scope, node, parts)?;
    node_names(alloc, unit, scope, node, parts, found)?;
    Ok(types)
}
