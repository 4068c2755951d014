//! What lies directly inside a node, by its kind.

ghost use Rattle.std.specs.Prelude.{◌≡◌, IsTrue, slice_get};
ghost use Rattle.std.specs.Option.{option_map};
ghost use Rattle.java_model.specs.Tree.Children.{children};
ghost use Rattle.java_nodes.specs.Holes.{AreInOrder};
ghost use Rattle.java_nodes.specs.Seen.{seen};

use crate::in_expressions::{
    in_creation, in_expression, in_first, in_primary, in_selector, reads, spelled,
};
use crate::in_members::{in_explicit, in_member};
use crate::in_statements::{in_group, in_locals, in_statement, in_variable};
use crate::in_types::{in_body, in_declaration, in_unit};
use crate::laying::{pair, single};
use crate::lists::{block_statements, initializers};
use crate::node::Node;
use crate::numbered::numbered;
use java_tree::{Items, TypeDecl};

/// The node with a number directly inside a node of a unit with these types.
pub(crate) fn child_in<'a>(
    types: &'a Items<TypeDecl>,
    in_order: bool,
    node: Node<'a>,
    at: usize,
) -> Option<Node<'a>>
    requires { IsTrue in_order → AreInOrder types.now }
    ensures { option_map seen result ≡ slice_get (children types.now (seen node.entry)) at }
{
    match node {
        Node::Unit(root) => in_unit(root, at),
        Node::PackageClause(_) => None,
        Node::Imported(_) => None,
        Node::Declaration(brace) => in_declaration(brace, numbered(types, in_order, brace), at),
        Node::Supertype(_, _) => None,
        Node::Body(brace) => in_body(numbered(types, in_order, brace), at),
        Node::Member(number, m) => in_member(number, m, at),
        Node::Field(_, v) => in_variable(v, at),
        Node::Variable(_, v) => in_variable(v, at),
        Node::Parameter(p) => single(spelled(&p.of), at),
        Node::TypeUse(_, _) => None,
        Node::TypeName(_) => None,
        Node::Explicit(_, e) => in_explicit(e, at),
        Node::Block(b) => block_statements(&b.statements, at),
        Node::Statement(s) => in_statement(s, at),
        Node::Locals(l) => in_locals(l, at),
        Node::Arm(a) => pair(reads(a.condition.get()), Node::Statement(&a.then), at),
        Node::Group(g) => in_group(g, at),
        Node::CatchClause(c) => pair(Node::Parameter(&c.parameter), Node::Block(&c.block), at),
        Node::Expression(how, x) => in_expression(how, x, at),
        Node::Primary(how, p) => in_primary(how, p, at),
        Node::First(how, f) => in_first(how, f, at),
        Node::Selector(s) => in_selector(s, at),
        Node::Creation(c) => in_creation(c, at),
        Node::Array(a) => initializers(&a.elements, at),
    }
}
