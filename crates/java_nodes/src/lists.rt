//! The nodes of a list of parts of one kind, by number.

ghost use Rattle.std.specs.Prelude.{◌≡◌, map, slice_get};
ghost use Rattle.std.specs.Option.{option_map};
ghost use Rattle.java_model.specs.Tree.Nodes.{selector, arm, group, catch_clause, parameter, imported, supertype, member, field, variable, declaration};
ghost use Rattle.java_model.specs.Tree.InExpressions.{reads, operand, initializer, type_name};
ghost use Rattle.java_model.specs.Tree.InStatements.{block_statement};
ghost use Rattle.java_nodes.specs.Seen.{seen};

use crate::in_expressions::{initializer, operand, reads};
use crate::in_statements::block_statement;
use crate::node::Node;
use java_tree::{
    BlockStatement, Catch, Expr, IfArm, Import, Initializer, Items, Member, Name, Operation,
    Parameter, Selector, SwitchGroup, TypeUse, Variable,
};

pub(crate) fn expressions<'a>(exprs: &'a Items<Expr>, at: usize) -> Option<Node<'a>>
    ensures { option_map seen result ≡ slice_get (map reads exprs.now) at }
{
    match exprs.get(at) {
        Some(x) => Some(reads(x)),
        None => None,
    }
}

pub(crate) fn operands<'a>(operations: &'a Items<Operation>, at: usize) -> Option<Node<'a>>
    ensures { option_map seen result ≡ slice_get (map operand operations.now) at }
{
    match operations.get(at) {
        Some(o) => Some(operand(o)),
        None => None,
    }
}

pub(crate) fn initializers<'a>(elements: &'a Items<Initializer>, at: usize) -> Option<Node<'a>>
    ensures { option_map seen result ≡ slice_get (map initializer elements.now) at }
{
    match elements.get(at) {
        Some(i) => Some(initializer(i)),
        None => None,
    }
}

pub(crate) fn selectors<'a>(selectors: &'a Items<Selector>, at: usize) -> Option<Node<'a>>
    ensures { option_map seen result ≡ slice_get (map selector selectors.now) at }
{
    match selectors.get(at) {
        Some(s) => Some(Node::Selector(s)),
        None => None,
    }
}

pub(crate) fn block_statements<'a>(
    statements: &'a Items<BlockStatement>,
    at: usize,
) -> Option<Node<'a>>
    ensures { option_map seen result ≡ slice_get (map block_statement statements.now) at }
{
    match statements.get(at) {
        Some(s) => Some(block_statement(s)),
        None => None,
    }
}

pub(crate) fn arms<'a>(arms: &'a Items<IfArm>, at: usize) -> Option<Node<'a>>
    ensures { option_map seen result ≡ slice_get (map arm arms.now) at }
{
    match arms.get(at) {
        Some(a) => Some(Node::Arm(a)),
        None => None,
    }
}

pub(crate) fn groups<'a>(groups: &'a Items<SwitchGroup>, at: usize) -> Option<Node<'a>>
    ensures { option_map seen result ≡ slice_get (map group groups.now) at }
{
    match groups.get(at) {
        Some(g) => Some(Node::Group(g)),
        None => None,
    }
}

pub(crate) fn catches<'a>(catches: &'a Items<Catch>, at: usize) -> Option<Node<'a>>
    ensures { option_map seen result ≡ slice_get (map catch_clause catches.now) at }
{
    match catches.get(at) {
        Some(c) => Some(Node::CatchClause(c)),
        None => None,
    }
}

pub(crate) fn parameters<'a>(parameters: &'a Items<Parameter>, at: usize) -> Option<Node<'a>>
    ensures { option_map seen result ≡ slice_get (map parameter parameters.now) at }
{
    match parameters.get(at) {
        Some(p) => Some(Node::Parameter(p)),
        None => None,
    }
}

/// Names where types alone can stand (JLS 6.5.5).
pub(crate) fn type_names<'a>(names: &'a Items<Name>, at: usize) -> Option<Node<'a>>
    ensures { option_map seen result ≡ slice_get (map type_name names.now) at }
{
    match names.get(at) {
        Some(n) => Some(Node::TypeName(n)),
        None => None,
    }
}

pub(crate) fn supertypes<'a>(number: u64, names: &'a Items<Name>, at: usize) -> Option<Node<'a>>
    ensures { option_map seen result ≡ slice_get (map (supertype number) names.now) at }
{
    match names.get(at) {
        Some(n) => Some(Node::Supertype(number, n)),
        None => None,
    }
}

pub(crate) fn members<'a>(number: u64, members: &'a Items<Member>, at: usize) -> Option<Node<'a>>
    ensures { option_map seen result ≡ slice_get (map (member number) members.now) at }
{
    match members.get(at) {
        Some(m) => Some(Node::Member(number, m)),
        None => None,
    }
}

/// Variables of a declaration of fields (JLS 8.3).
pub(crate) fn fields<'a>(number: u64, variables: &'a Items<Variable>, at: usize) -> Option<Node<'a>>
    ensures { option_map seen result ≡ slice_get (map (field number) variables.now) at }
{
    match variables.get(at) {
        Some(v) => Some(Node::Field(number, v)),
        None => None,
    }
}

/// Variables of a declaration of local variables (JLS 14.4).
pub(crate) fn variables<'a>(
    of: &'a TypeUse,
    variables: &'a Items<Variable>,
    at: usize,
) -> Option<Node<'a>>
    ensures { option_map seen result ≡ slice_get (map (variable of.now) variables.now) at }
{
    match variables.get(at) {
        Some(v) => Some(Node::Variable(of, v)),
        None => None,
    }
}

pub(crate) fn imports<'a>(imports: &'a Items<Import>, at: usize) -> Option<Node<'a>>
    ensures { option_map seen result ≡ slice_get (map imported imports.now) at }
{
    match imports.get(at) {
        Some(i) => Some(Node::Imported(i)),
        None => None,
    }
}

pub(crate) fn declarations<'a>(holes: &'a [u32], at: usize) -> Option<Node<'a>>
    ensures { option_map seen result ≡ slice_get (map declaration holes.now) at }
{
    match holes.get(at) {
        Some(brace) => Some(Node::Declaration(*brace)),
        None => None,
    }
}
