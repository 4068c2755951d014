//! What lies directly inside a statement (JLS 14).

ghost use Rattle.std.specs.Prelude.{◌≡◌, ◌∷◌, ◌++◌, map, slice_get};
ghost use Rattle.std.specs.Option.{option_map};
ghost use Rattle.java_tree.specs.declared.stmt.Stmt.{out-Stmt};
ghost use Rattle.java_model.specs.Tree.Nodes.{block, arm, group, catch_clause, variable};
ghost use Rattle.java_model.specs.Tree.InExpressions.{reads, spelled};
ghost use Rattle.java_model.specs.Tree.InStatements.{block_statement, optional_expression, optional_block, optional_statement};
ghost use Rattle.java_model.specs.Tree.InStatements.{in_for_init, in_label, in_variable, in_statement};
ghost use Rattle.java_nodes.specs.Parts.{after_test, after_init};
ghost use Rattle.java_nodes.specs.Seen.{seen};

use crate::in_expressions::{initializer, reads, spelled};
use crate::laying::{pair, single};
use crate::lists::{arms, block_statements, catches, expressions, groups, variables};
use crate::node::Node;
use java_tree::{
    Block, BlockStatement, Boxed, Catch, Expr, ForInit, IfArm, Items, LocalVariables, Stmt,
    SwitchGroup, SwitchLabel, Variable,
};

/// What stands in a block (JLS 14.2).
pub(crate) fn block_statement<'a>(statement: &'a BlockStatement) -> Node<'a>
    ensures { seen result ≡ block_statement statement.now }
{
    match statement {
        BlockStatement::LocalClass(brace) => Node::Declaration(*brace),
        BlockStatement::Local(l) => Node::Locals(l),
        BlockStatement::Statement(s) => Node::Statement(s),
    }
}

fn optional_expression<'a>(x: &'a Option<Boxed<Expr>>, at: usize) -> Option<Node<'a>>
    ensures { option_map seen result ≡ slice_get (optional_expression x.now) at }
{
    match x {
        Some(x) => single(reads(x.get()), at),
        None => None,
    }
}

pub(crate) fn optional_block<'a>(b: &'a Option<Block>, at: usize) -> Option<Node<'a>>
    ensures { option_map seen result ≡ slice_get (optional_block b.now) at }
{
    match b {
        Some(b) => single(Node::Block(b), at),
        None => None,
    }
}

fn optional_statement<'a>(s: &'a Option<Boxed<Stmt>>, at: usize) -> Option<Node<'a>>
    ensures { option_map seen result ≡ slice_get (optional_statement s.now) at }
{
    match s {
        Some(s) => single(Node::Statement(s.get()), at),
        None => None,
    }
}

/// The initializer of a variable (JLS 8.3, 14.4).
pub(crate) fn in_variable<'a>(v: &'a Variable, at: usize) -> Option<Node<'a>>
    ensures { option_map seen result ≡ slice_get (in_variable v.now) at }
{
    match &v.initializer {
        Some(i) => single(initializer(i), at),
        None => None,
    }
}

/// The type and the variables of a declaration (JLS 14.4).
pub(crate) fn in_locals<'a>(l: &'a LocalVariables, at: usize) -> Option<Node<'a>>
    ensures { option_map seen result ≡ slice_get (spelled l.now.of ∷ map (variable l.now.of) l.now.variables) at }
{
    match at {
        0 => Some(spelled(&l.of)),
        _ => variables(&l.of, &l.variables, at - 1),
    }
}

/// The arms of an `if`, and the statement after a last `else` (JLS 14.9).
#[tactic(auto, using(crate::proofs::InTurn::within, crate::proofs::InTurn::beyond))]
fn in_if<'a>(all: &'a Items<IfArm>, last: &'a Option<Boxed<Stmt>>, at: usize) -> Option<Node<'a>>
    ensures { option_map seen result ≡ slice_get (map arm all.now ++ optional_statement last.now) at }
{
    let before = all.len();
    if at < before {
        arms(all, at)
    } else {
        optional_statement(last, at - before)
    }
}

/// The update and the statement of a `for` (JLS 14.13).
#[tactic(auto, using(crate::proofs::InTurn::within, crate::proofs::InTurn::beyond))]
fn after_test<'a>(update: &'a Items<Expr>, inner: &'a Stmt, at: usize) -> Option<Node<'a>>
    ensures { option_map seen result ≡ slice_get (after_test update.now inner.now) at }
{
    let before = update.len();
    if at < before {
        expressions(update, at)
    } else {
        single(Node::Statement(inner), at - before)
    }
}

/// What lies inside a `for` after its initialization.
fn after_init<'a>(
    test: &'a Option<Boxed<Expr>>,
    update: &'a Items<Expr>,
    inner: &'a Stmt,
    at: usize,
) -> Option<Node<'a>>
    ensures { option_map seen result ≡ slice_get (after_init test.now update.now inner.now) at }
{
    match test {
        Some(x) => match at {
            0 => Some(reads(x.get())),
            _ => after_test(update, inner, at - 1),
        },
        None => after_test(update, inner, at),
    }
}

/// What lies inside a `for` that begins with expressions.
#[tactic(auto, using(crate::proofs::InTurn::within, crate::proofs::InTurn::beyond))]
fn in_for_expressions<'a>(
    begin: &'a Items<Expr>,
    test: &'a Option<Boxed<Expr>>,
    update: &'a Items<Expr>,
    inner: &'a Stmt,
    at: usize,
) -> Option<Node<'a>>
    ensures { option_map seen result ≡ slice_get (map reads begin.now ++ after_init test.now update.now inner.now) at }
{
    let before = begin.len();
    if at < before {
        expressions(begin, at)
    } else {
        after_init(test, update, inner, at - before)
    }
}

/// What lies directly inside a `for` (JLS 14.13).
fn in_for<'a>(
    init: &'a ForInit,
    test: &'a Option<Boxed<Expr>>,
    update: &'a Items<Expr>,
    inner: &'a Stmt,
    at: usize,
) -> Option<Node<'a>>
    ensures { option_map seen result ≡ slice_get (in_for_init init.now ++ after_init test.now update.now inner.now) at }
{
    match init {
        ForInit::Local(l) => match at {
            0 => Some(Node::Locals(l)),
            _ => after_init(test, update, inner, at - 1),
        },
        ForInit::Expressions(begin) => in_for_expressions(begin, test, update, inner, at),
    }
}

/// What lies directly inside a `switch` (JLS 14.10).
fn in_switch<'a>(x: &'a Expr, all: &'a Items<SwitchGroup>, at: usize) -> Option<Node<'a>>
    ensures { option_map seen result ≡ slice_get (reads x.now ∷ map group all.now) at }
{
    match at {
        0 => Some(reads(x)),
        _ => groups(all, at - 1),
    }
}

/// Each `catch`, and the block after `finally` (JLS 14.19).
#[tactic(auto, using(crate::proofs::InTurn::within, crate::proofs::InTurn::beyond))]
fn in_catches<'a>(all: &'a Items<Catch>, last: &'a Option<Block>, at: usize) -> Option<Node<'a>>
    ensures { option_map seen result ≡ slice_get (map catch_clause all.now ++ optional_block last.now) at }
{
    let before = all.len();
    if at < before {
        catches(all, at)
    } else {
        optional_block(last, at - before)
    }
}

/// What lies directly inside a `try` (JLS 14.19).
fn in_try<'a>(
    b: &'a Block,
    all: &'a Items<Catch>,
    last: &'a Option<Block>,
    at: usize,
) -> Option<Node<'a>>
    ensures { option_map seen result ≡ slice_get (block b.now ∷ (map catch_clause all.now ++ optional_block last.now)) at }
{
    match at {
        0 => Some(Node::Block(b)),
        _ => in_catches(all, last, at - 1),
    }
}

/// What lies directly inside an `assert` (JSR 41).
fn in_assert<'a>(x: &'a Expr, detail: &'a Option<Boxed<Expr>>, at: usize) -> Option<Node<'a>>
    ensures { option_map seen result ≡ slice_get (reads x.now ∷ optional_expression detail.now) at }
{
    match at {
        0 => Some(reads(x)),
        _ => optional_expression(detail, at - 1),
    }
}

/// What lies directly inside a group of a `switch` (JLS 14.10).
pub(crate) fn in_group<'a>(g: &'a SwitchGroup, at: usize) -> Option<Node<'a>>
    ensures { option_map seen result ≡ slice_get (in_label g.now.label ++ map block_statement g.now.statements) at }
{
    match &g.label {
        SwitchLabel::Case(x) => match at {
            0 => Some(reads(x.get())),
            _ => block_statements(&g.statements, at - 1),
        },
        SwitchLabel::Default => block_statements(&g.statements, at),
    }
}

/// What lies directly inside a statement (JLS 14.5).
#[tactic(auto, using(crate::proofs::InTurn::four))]
pub(crate) fn in_statement<'a>(s: &'a Stmt, at: usize) -> Option<Node<'a>>
    ensures { option_map seen result ≡ slice_get (in_statement (out-Stmt s.now)) at }
{
    match s {
        Stmt::Block(b) => single(Node::Block(b), at),
        Stmt::Labeled(_, inner) => single(Node::Statement(inner.get()), at),
        Stmt::Expression(x) => single(reads(x.get()), at),
        Stmt::If(arms, last) => in_if(arms, last, at),
        Stmt::While(x, inner) => pair(reads(x.get()), Node::Statement(inner.get()), at),
        Stmt::Do(inner, x) => pair(Node::Statement(inner.get()), reads(x.get()), at),
        Stmt::For(init, test, update, inner) => in_for(init, test, update, inner.get(), at),
        Stmt::Switch(x, _, groups) => in_switch(x.get(), groups, at),
        Stmt::Return(x) => optional_expression(x, at),
        Stmt::Throw(x) => single(reads(x.get()), at),
        Stmt::Synchronized(x, b) => pair(reads(x.get()), Node::Block(b), at),
        Stmt::Try(b, catches, last) => in_try(b, catches, last, at),
        Stmt::Assert(x, detail) => in_assert(x.get(), detail, at),
        Stmt::Empty => None,
        Stmt::Break(_) => None,
        Stmt::Continue(_) => None,
    }
}
