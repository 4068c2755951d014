//! What lies directly inside a member of a type (JLS 8, 9).

ghost use Rattle.std.specs.Prelude.{◌≡◌, ◌∷◌, ◌++◌, map, slice_get};
ghost use Rattle.std.specs.Option.{option_map};
ghost use Rattle.java_tree.specs.declared.occurrence.Access.TheVariants.{Read};
ghost use Rattle.java_model.specs.Tree.Nodes.{parameter, field, primary};
ghost use Rattle.java_model.specs.Tree.InExpressions.{reads, spelled};
ghost use Rattle.java_model.specs.Tree.Children.{in_result, in_member, in_callee};
ghost use Rattle.java_nodes.specs.Parts.{after_parameters, after_result, constructor_body, after_constructor_parameters};
ghost use Rattle.java_nodes.specs.Seen.{seen};

use crate::in_expressions::spelled;
use crate::in_statements::optional_block;
use crate::laying::single;
use crate::lists::{block_statements, expressions, fields, parameters, type_names};
use crate::node::Node;
use java_tree::{
    Access, Callee, Constructor, Explicit, Expr, Fields, Items, Member, Method, Primary, ResultType,
};

/// What lies inside a method after its parameters (JLS 8.4).
#[tactic(auto, using(crate::proofs::InTurn::within, crate::proofs::InTurn::beyond))]
fn after_parameters<'a>(m: &'a Method, at: usize) -> Option<Node<'a>>
    ensures { option_map seen result ≡ slice_get (after_parameters m.now) at }
{
    let before = m.throws.len();
    if at < before {
        type_names(&m.throws, at)
    } else {
        optional_block(&m.body, at - before)
    }
}

/// What lies inside a method after its result.
#[tactic(auto, using(crate::proofs::InTurn::within, crate::proofs::InTurn::beyond))]
fn after_result<'a>(m: &'a Method, at: usize) -> Option<Node<'a>>
    ensures { option_map seen result ≡ slice_get (after_result m.now) at }
{
    let before = m.parameters.len();
    if at < before {
        parameters(&m.parameters, at)
    } else {
        after_parameters(m, at - before)
    }
}

/// What lies directly inside a method (JLS 8.4).
fn in_method<'a>(m: &'a Method, at: usize) -> Option<Node<'a>>
    ensures { option_map seen result ≡ slice_get (in_result m.now.result m.now.dims ++ after_result m.now) at }
{
    match &m.result {
        ResultType::Of(t) => match at {
            0 => Some(Node::TypeUse(&t.element, t.dims as u64 + m.dims as u64)),
            _ => after_result(m, at - 1),
        },
        ResultType::Void => after_result(m, at),
    }
}

/// The explicit constructor invocation, and the statements of a constructor (JLS 8.8.5).
fn in_constructor_body<'a>(number: u64, c: &'a Constructor, at: usize) -> Option<Node<'a>>
    ensures { option_map seen result ≡ slice_get (constructor_body number c.now) at }
{
    match &c.explicit {
        Some(e) => match at {
            0 => Some(Node::Explicit(number, e)),
            _ => block_statements(&c.statements, at - 1),
        },
        None => block_statements(&c.statements, at),
    }
}

/// What lies inside a constructor after its parameters.
#[tactic(auto, using(crate::proofs::InTurn::within, crate::proofs::InTurn::beyond))]
fn after_constructor_parameters<'a>(number: u64, c: &'a Constructor, at: usize) -> Option<Node<'a>>
    ensures { option_map seen result ≡ slice_get (after_constructor_parameters number c.now) at }
{
    let before = c.throws.len();
    if at < before {
        type_names(&c.throws, at)
    } else {
        in_constructor_body(number, c, at - before)
    }
}

/// What lies directly inside a constructor (JLS 8.8).
#[tactic(auto, using(crate::proofs::InTurn::within, crate::proofs::InTurn::beyond))]
fn in_constructor<'a>(number: u64, c: &'a Constructor, at: usize) -> Option<Node<'a>>
    ensures { option_map seen result ≡ slice_get (map parameter c.now.parameters ++ after_constructor_parameters number c.now) at }
{
    let before = c.parameters.len();
    if at < before {
        parameters(&c.parameters, at)
    } else {
        after_constructor_parameters(number, c, at - before)
    }
}

/// The type and the variables of a declaration (JLS 8.3).
fn in_fields<'a>(number: u64, f: &'a Fields, at: usize) -> Option<Node<'a>>
    ensures { option_map seen result ≡ slice_get (spelled f.now.of ∷ map (field number) f.now.variables) at }
{
    match at {
        0 => Some(spelled(&f.of)),
        _ => fields(number, &f.variables, at - 1),
    }
}

/// What lies directly inside a member (JLS 8.1.5, 9.1.3).
#[tactic(auto, using(crate::proofs::InTurn::four))]
pub(crate) fn in_member<'a>(number: u64, m: &'a Member, at: usize) -> Option<Node<'a>>
    ensures { option_map seen result ≡ slice_get (in_member number m.now) at }
{
    match m {
        Member::Empty => None,
        Member::Initializer(_, b) => single(Node::Block(b), at),
        Member::Type(brace) => single(Node::Declaration(*brace), at),
        Member::Method(m) => in_method(m, at),
        Member::Constructor(c) => in_constructor(number, c, at),
        Member::Field(f) => in_fields(number, f, at),
    }
}

/// The primary expression before `super`, and the arguments (JLS 8.8.5.1).
fn in_outer_call<'a>(p: &'a Primary, arguments: &'a Items<Expr>, at: usize) -> Option<Node<'a>>
    ensures { option_map seen result ≡ slice_get (primary Read p.now ∷ map reads arguments.now) at }
{
    match at {
        0 => Some(Node::Primary(Access::Read, p)),
        _ => expressions(arguments, at - 1),
    }
}

/// What lies directly inside an explicit constructor invocation (JLS 8.8.5.1).
pub(crate) fn in_explicit<'a>(e: &'a Explicit, at: usize) -> Option<Node<'a>>
    ensures { option_map seen result ≡ slice_get (in_callee e.now.callee ++ map reads e.now.arguments) at }
{
    match &e.callee {
        Callee::Super(Some(p), _) => in_outer_call(p, &e.arguments, at),
        Callee::Super(None, _) => expressions(&e.arguments, at),
        Callee::This(_) => expressions(&e.arguments, at),
    }
}
