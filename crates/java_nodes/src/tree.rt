ghost use Rattle.std.specs.Prelude.{◌≡◌, [], ◌∷◌, ◌++◌, IsTrue, IfOk, OnOk, slice_get};
ghost use Rattle.std.specs.Option.{option_map, option_and_then};
ghost use Rattle.java_model.specs.Tree.Nodes.{unit};
ghost use Rattle.java_model.specs.Tree.Children.{children};
ghost use Rattle.java_nodes.specs.Holes.{top_holes, AreInOrder};

use crate::children::child_in;
use crate::node::Node;
use crate::numbered::are_in_order;
use crate::root::Root;
use java_tree::{TopLevel, Unit};
use std::alloc::{AllocError, Global};

/// A unit whose nodes can be gone through.
#[derive(Drop)]
pub struct Tree<'a> {
    /// The unit.
    pub unit: &'a Unit,
    holes: Vec<u32>,
    in_order: bool,
    ghost top: { holes.items ≡ top_holes unit.now.declarations },
    ghost order: { IsTrue in_order → AreInOrder unit.now.types },
}

fn push_hole(declaration: &TopLevel, holes: &mut Vec<u32>) -> Result<(), AllocError>
    ensures { OnOk result (holes.new.items ≡ holes.old.items ++ top_holes (declaration.now ∷ [])) }
{
    match declaration {
        TopLevel::Type(brace) => {
            holes.push(*brace)?;
            Ok(())
        }
        TopLevel::Empty => Ok(()),
    }
}

/// The `{` of top-level types (JLS 7.6).
fn top_holes(alloc: Global, declarations: &[TopLevel]) -> Result<Vec<u32>, AllocError>
    ensures { IfOk result (λ holes. holes.items ≡ top_holes declarations.now) }
{
    let mut holes = Vec::new(alloc);
    for declaration in declarations {
        push_hole(declaration, &mut holes)?;
    }
    Ok(holes)
}

impl<'a> Tree<'a> {
    ghost use Rattle.java_nodes.specs.Leading.{node_at};
    ghost use Rattle.java_nodes.specs.Seen.{seen};

    /// The tree of a unit, in one pass over its types.
    pub fn of(alloc: Global, unit: &'a Unit) -> Result<Tree<'a>, AllocError>
        ensures { IfOk result (λ t. t.unit.now ≡ unit.now) }
    {
        let holes = top_holes(alloc, unit.declarations.as_slice())?;
        let in_order = are_in_order(unit.types.as_slice());
        Ok(Tree {
            unit,
            holes,
            in_order,
        })
    }

    /// The unit itself.
    pub fn root(&self) -> Node<'_>
        ensures { seen result ≡ unit self.now.unit.now }
    {
        Node::Unit(Root {
            unit: self.unit,
            holes: self.holes.as_slice(),
        })
    }

    /// The node with a number directly inside a node, in constant time but for a binary search of a type.
    pub fn child<'b>(&'b self, node: Node<'b>, at: usize) -> Option<Node<'b>>
        ensures { option_map seen result ≡ slice_get (children self.now.unit.now.types (seen node.entry)) at }
    {
        child_in(&self.unit.types, self.in_order, node, at)
    }

    fn next<'b>(&'b self, node: Option<Node<'b>>, at: usize) -> Option<Node<'b>>
        ensures { option_map seen result ≡ option_and_then (λ n. slice_get (children self.now.unit.now.types n) at) (option_map seen node.entry) }
    {
        match node {
            Some(node) => self.child(node, at),
            None => None,
        }
    }

    /// The node to which child numbers lead from the unit.
    pub fn node_at(&self, place: &[usize]) -> Option<Node<'_>>
        ensures { option_map seen result ≡ node_at self.now.unit.now place.now }
    {
        let mut node = Some(self.root());
        for at in place {
            node = self.next(node, *at);
        }
        node
    }
}
