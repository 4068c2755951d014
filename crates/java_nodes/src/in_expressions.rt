//! What lies directly inside a part of an expression (JLS 15).

ghost use Rattle.std.specs.Prelude.{◌≡◌, ◌+◌, ◌∷◌, ◌++◌, length, map, slice_get};
ghost use Rattle.std.specs.Option.{option_map, option_to_list};
ghost use Rattle.java_tree.specs.declared.expr.Expr.{out-Expr};
ghost use Rattle.java_tree.specs.declared.expr.First.{out-First};
ghost use Rattle.java_tree.specs.declared.expr.Selector.{out-Selector};
ghost use Rattle.java_model.specs.Tree.Nodes.{body, type_use, first, selector};
ghost use Rattle.java_model.specs.Tree.InExpressions.{reads, spelled, initializer, operand, assigned, prefixed, postfixed, selected};
ghost use Rattle.java_model.specs.Tree.InExpressions.{in_expression, in_first, in_selector};
ghost use Rattle.java_model.specs.Tree.Children.{in_creation};
ghost use Rattle.java_nodes.specs.Seen.{seen};

use crate::laying::{pair, single, triple};
use crate::lists::{expressions, operands, selectors};
use crate::node::Node;
use java_tree::{
    Access, AssignOp, Creation, ElementType, Expr, First, Initializer, Items, Operation, PostfixOp,
    PrefixOp, Primary, Selector, TypeUse,
};

/// An expression whose value is read.
pub(crate) fn reads<'a>(x: &'a Expr) -> Node<'a>
    ensures { seen result ≡ reads x.now }
{
    Node::Expression(Access::Read, x)
}

/// A type as it is spelled.
pub(crate) fn spelled<'a>(t: &'a TypeUse) -> Node<'a>
    ensures { seen result ≡ spelled t.now }
{
    Node::TypeUse(&t.element, t.dims as u64)
}

/// The initializer of a variable or of an element (JLS 8.3, 10.6).
pub(crate) fn initializer<'a>(i: &'a Initializer) -> Node<'a>
    ensures { seen result ≡ initializer i.now }
{
    match i {
        Initializer::Value(x) => reads(x),
        Initializer::Array(a) => Node::Array(a),
    }
}

/// What stands to the right of an operator (JLS 15.17 to 15.24).
pub(crate) fn operand<'a>(operation: &'a Operation) -> Node<'a>
    ensures { seen result ≡ operand operation.now }
{
    match operation {
        Operation::Infix(_, x) => reads(x),
        Operation::InstanceOf(t) => spelled(t),
    }
}

/// The access of a target (JLS 15.26).
fn assigned(op: AssignOp) -> Access
    ensures { result ≡ assigned op }
{
    match op {
        AssignOp::Assign => Access::Write,
        _ => Access::Update,
    }
}

/// The access of an operand (JLS 15.15).
fn prefixed(op: PrefixOp) -> Access
    ensures { result ≡ prefixed op }
{
    match op {
        PrefixOp::Increment | PrefixOp::Decrement => Access::Update,
        _ => Access::Read,
    }
}

/// The access of a primary expression before these operators (JLS 15.14).
fn postfixed(how: Access, ops: &[PostfixOp]) -> Access
    ensures { result ≡ postfixed how ops.now }
{
    if ops.is_empty() { how } else { Access::Update }
}

/// The access of what a primary expression begins with, before these selectors.
pub(crate) fn selected(how: Access, selectors: &[Selector]) -> Access
    ensures { result ≡ selected how selectors.now }
{
    if selectors.is_empty() {
        how
    } else {
        Access::Read
    }
}

/// The operands of a chain of binary operators (JLS 15.17 to 15.24).
fn in_binary<'a>(x: &'a Expr, rest: &'a Items<Operation>, at: usize) -> Option<Node<'a>>
    ensures { option_map seen result ≡ slice_get (reads x.now ∷ map operand rest.now) at }
{
    match at {
        0 => Some(reads(x)),
        _ => operands(rest, at - 1),
    }
}

/// What lies directly inside an expression (JLS 15).
pub(crate) fn in_expression<'a>(how: Access, x: &'a Expr, at: usize) -> Option<Node<'a>>
    ensures { option_map seen result ≡ slice_get (in_expression how (out-Expr x.now)) at }
{
    match x {
        Expr::Assign(target, op, value) => pair(
            Node::Primary(assigned(*op), target),
            reads(value.get()),
            at,
        ),
        Expr::Conditional(test, first, second) => triple(
            reads(test.get()),
            reads(first.get()),
            reads(second.get()),
            at,
        ),
        Expr::Binary(x, rest) => in_binary(x.get(), rest, at),
        Expr::Prefix(op, x) => single(Node::Expression(prefixed(*op), x.get()), at),
        Expr::Cast(t, x) => pair(spelled(t), reads(x.get()), at),
        Expr::Postfix(p, ops) => single(Node::Primary(postfixed(how, ops.as_slice()), p), at),
    }
}

/// What a primary expression begins with, and its selectors (JLS 15.8).
pub(crate) fn in_primary<'a>(how: Access, p: &'a Primary, at: usize) -> Option<Node<'a>>
    ensures { option_map seen result ≡ slice_get (first (selected how p.now.selectors) p.now.first ∷ map selector p.now.selectors) at }
{
    match at {
        0 => Some(Node::First(selected(how, p.selectors.as_slice()), &p.first)),
        _ => selectors(&p.selectors, at - 1),
    }
}

/// The creation of an array with sizes (JLS 15.10).
fn in_new_array<'a>(
    of: &'a ElementType,
    sizes: &'a Items<Expr>,
    dims: u32,
    at: usize,
) -> Option<Node<'a>>
    ensures { option_map seen result ≡ slice_get (type_use of.now (length sizes.now + dims) ∷ map reads sizes.now) at }
{
    match at {
        0 => Some(Node::TypeUse(of, sizes.as_slice().len() as u64 + dims as u64)),
        _ => expressions(sizes, at - 1),
    }
}

/// What lies directly inside what a primary expression begins with (JLS 15.8).
pub(crate) fn in_first<'a>(how: Access, f: &'a First, at: usize) -> Option<Node<'a>>
    ensures { option_map seen result ≡ slice_get (in_first how (out-First f.now)) at }
{
    match f {
        First::Parenthesized(x) => single(Node::Expression(how, x.get()), at),
        First::ClassLiteral(t) => single(spelled(t), at),
        First::Call(_, arguments) => expressions(arguments, at),
        First::SuperCall(_, _, _, arguments) => expressions(arguments, at),
        First::New(c) => single(Node::Creation(c), at),
        First::NewArray(of, sizes, dims) => in_new_array(of, sizes, *dims, at),
        First::NewArrayOf(of, dims, a) => {
            pair(Node::TypeUse(of, *dims as u64), Node::Array(a), at)
        }
        First::Literal(_) => None,
        First::This(_) => None,
        First::Name(_) => None,
        First::VoidClass => None,
        First::QualifiedThis(_, _) => None,
        First::SuperField(_, _, _) => None,
    }
}

/// What lies directly inside a selector (JLS 15.11 to 15.13).
pub(crate) fn in_selector<'a>(s: &'a Selector, at: usize) -> Option<Node<'a>>
    ensures { option_map seen result ≡ slice_get (in_selector (out-Selector s.now)) at }
{
    match s {
        Selector::Field(_) => None,
        Selector::MemberCall(_, arguments) => expressions(arguments, at),
        Selector::Index(x) => single(reads(x.get()), at),
        Selector::QualifiedNew(c) => single(Node::Creation(c), at),
    }
}

/// The body of an anonymous class (JLS 15.9.5).
fn optional_body<'a>(hole: Option<u32>, at: usize) -> Option<Node<'a>>
    ensures { option_map seen result ≡ slice_get (map body (option_to_list hole)) at }
{
    match hole {
        Some(brace) => single(Node::Body(brace), at),
        None => None,
    }
}

/// The arguments of a class instance creation, and its body (JLS 15.9).
#[tactic(auto, using(crate::proofs::InTurn::within, crate::proofs::InTurn::beyond))]
pub(crate) fn in_creation<'a>(c: &'a Creation, at: usize) -> Option<Node<'a>>
    ensures { option_map seen result ≡ slice_get (in_creation c.now) at }
{
    let before = c.arguments.len();
    if at < before {
        expressions(&c.arguments, at)
    } else {
        optional_body(c.body, at - before)
    }
}
