//! The occurrences of a unit.

ghost use Rattle.std.specs.Prelude.{◌≡◌, Some, IfOk};
ghost use Rattle.java_scope.specs.Units.{context};
ghost use Rattle.java_model.specs.Scopes.Contexts.{Context, context_of};
ghost use Rattle.java_model.specs.Occurrences.Occurrences.{Occurrences};

use crate::order::sorted;
use crate::walking::walk;
use java_env::Env;
use java_nodes::Tree;
use java_scope::{Scope, UnitContext};
use java_tree::{DocPath, Items, Occurrence, Unit};
use std::alloc::{AllocError, Global};

/// How deep the tree of a unit may be: over what 256 levels of expressions with an operator of each kind around every
/// one take, about 14 nodes a level.
const MAX_NODES: u32 = 8192;

/// What the places of a unit in its context name, in order.
fn in_context(
    alloc: Global,
    placed: &UnitContext<'_>,
    unit: &Unit,
) -> Result<Items<Occurrence>, AllocError>
    requires { unit.now.types ≡ placed.now.types.types.now }
    ensures { IfOk result (λ os. Occurrences (context placed.now) unit.now os) }
{
    let tree = Tree::of(alloc, unit)?;
    let mut scope = Scope::new(alloc);
    let mut found = Vec::new(alloc);
    let root = tree.root();
    let _types = walk(
        alloc, placed, &tree, root, MAX_NODES, &mut scope, &mut found,
    )?;
    let in_order = sorted(found)?;
    Ok(Items::from_vec(in_order))
}

/// The occurrences of a unit whose document has this path in the environment, in the order of their spans: what all
/// places of its tree declare and refer to. It goes through the tree once, and sorts what it found.
pub fn occurrences(
    alloc: Global,
    env: &Env,
    doc: &DocPath,
    unit: &Unit,
) -> Result<Items<Occurrence>, AllocError>
    ensures { (C : Context) → context_of env.now doc.now unit.now ≡ Some C → IfOk result (λ os. Occurrences C unit.now os) }
{
    match UnitContext::of(env, doc, unit) {
        Some(placed) => {
            let found = in_context(alloc, &placed, unit)?;
            Ok(found)
        }
        None => Ok(Items::new(alloc)),
    }
}
