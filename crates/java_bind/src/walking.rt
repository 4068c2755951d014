//! The walk through a unit's tree.

ghost use Rattle.std.specs.Prelude.{◌≡◌, IfOk, OnOk};
ghost use Rattle.java_scope.specs.Units.{context};
ghost use Rattle.java_nodes.specs.Seen.{seen};
ghost use Rattle.java_bind.specs.Walking.{IsWalked};

use crate::finishing::finish;
use java_nodes::{Node, Tree};
use java_scope::{Scope, UnitContext, leaves, opens};
use java_tree::{Items, JType, Occurrence};
use std::alloc::{AllocError, Global};

/// Goes through a node, its parts first, and adds what they all name. The tree may be this deep at most.
pub(crate) fn walk<'a>(
    alloc: Global,
    unit: &UnitContext<'_>,
    tree: &'a Tree<'_>,
    node: Node<'a>,
    room: u32,
    scope: &mut Scope,
    found: &mut Vec<Occurrence>,
) -> Result<Items<JType>, AllocError>
    requires { tree.now.unit.now.types ≡ unit.now.types.types.now }
    ensures same { OnOk result (scope.new ≡ scope.old) }
    ensures walked { IfOk result (λ ts. IsWalked (context unit.now) (record { scope = scope.old; node = seen node.entry }) found.old.items found.new.items ts) }
{
    if room == 0 {
        return Err(AllocError);
    }
    let outside = scope.len();
    opens(alloc, unit, scope, node)?;
    let mut values = Items::new(alloc);
    for at in 0..usize::MAX {
        match tree.child(node, at) {
            Some(child) => {
                let value = walk(alloc, unit, tree, child, room - 1, scope, found)?;
                values.push(value)?;
                leaves(alloc, unit, scope, child)?;
            }
            None => {
                scope.cut(outside);
                let types = finish(alloc, unit, scope, node, values.as_slice(), found)?;
                return Ok(types);
            }
        }
    }
    Err(AllocError)
}
