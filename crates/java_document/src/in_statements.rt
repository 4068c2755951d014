//! The types that are declared in a statement: local classes (JLS 14.3), and those of its expressions.

ghost use Rattle.std.specs.Prelude.{◌≡◌, map, option_map, OnOk};
ghost use Rattle.java_tree.specs.declared.stmt.BlockStatement.TheVariants as block_statements;
ghost use Rattle.java_model.specs.Grammar.Pieces.{each};
ghost use Rattle.java_model.specs.Grammar.YieldStmt.{all_yield, in_sequence, yield_any_expr, yield_variable, yield_for_init, yield_switch_label, yield_else, yield_finally, yield_stmt, yield_block_statement, yield_block, yield_catch, yield_arm, yield_group};
ghost use Rattle.java_document.specs.Holes.{locals_in, Finds, Passes, Keeps};

use crate::finding::find;
use crate::hole::FoundHole;
use crate::in_expressions::{in_expr, in_exprs, in_initializer};
use crate::scope::Scope;
use java_tree::{
    Block, BlockStatement, Boxed, Catch, Expr, ForInit, IfArm, Stmt, SwitchGroup, SwitchLabel,
    TypePlace, Variable,
};
use std::alloc::AllocError;

#[tactic(auto, using(crate::proofs::InStatements::in_no_expr, crate::proofs::InStatements::in_some_expr))]
fn in_any_expr(
    x: &Option<Boxed<Expr>>,
    scope: &Scope<'_>,
    found: &mut Vec<FoundHole>,
) -> Result<(), AllocError>
    ensures { OnOk result (Finds (locals_in scope.now) (yield_any_expr x.now) found.old.items found.new.items) }
{
    match x {
        Some(x) => in_expr(x.get(), scope, found),
        None => Ok(()),
    }
}

#[tactic(auto, using(crate::proofs::InStatements::in_bare_variable, crate::proofs::InStatements::in_set_variable))]
fn in_variable(
    variable: &Variable,
    scope: &Scope<'_>,
    found: &mut Vec<FoundHole>,
) -> Result<(), AllocError>
    ensures { OnOk result (Finds (locals_in scope.now) (yield_variable variable.now) found.old.items found.new.items) }
{
    match &variable.initializer {
        Some(initializer) => in_initializer(initializer, scope, found),
        None => Ok(()),
    }
}

/// Finds the types of variables (JLS 8.3, 14.4).
#[tactic(auto, using(crate::proofs::Seeing::finds_none, crate::proofs::Seeing::finds_next))]
pub(crate) fn in_variables(
    variables: &[Variable],
    scope: &Scope<'_>,
    found: &mut Vec<FoundHole>,
) -> Result<(), AllocError>
    ensures { OnOk result (Finds (locals_in scope.now) (each (map yield_variable variables.now)) found.old.items found.new.items) }
{
    for variable in variables {
        in_variable(variable, scope, found)?;
    }
    Ok(())
}

#[tactic(auto, using(crate::proofs::InStatements::in_local_init, crate::proofs::InStatements::in_expressions_init))]
fn in_for_init(
    init: &ForInit,
    scope: &Scope<'_>,
    found: &mut Vec<FoundHole>,
) -> Result<(), AllocError>
    ensures { OnOk result (Finds (locals_in scope.now) (yield_for_init init.now) found.old.items found.new.items) }
{
    match init {
        ForInit::Local(l) => in_variables(l.variables.as_slice(), scope, found),
        ForInit::Expressions(exprs) => in_exprs(exprs.as_slice(), scope, found),
    }
}

#[tactic(auto, using(crate::proofs::InStatements::in_case, crate::proofs::InStatements::in_default))]
fn in_label(
    label: &SwitchLabel,
    scope: &Scope<'_>,
    found: &mut Vec<FoundHole>,
) -> Result<(), AllocError>
    ensures { OnOk result (Finds (locals_in scope.now) (yield_switch_label label.now) found.old.items found.new.items) }
{
    match label {
        SwitchLabel::Case(x) => in_expr(x.get(), scope, found),
        SwitchLabel::Default => Ok(()),
    }
}

/// A local class, which is in scope from its header on until its block ends (JLS 14.3).
#[tactic(auto, using(crate::proofs::InStatements::in_local_class))]
fn in_local_class(
    brace: u32,
    scope: &mut Scope<'_>,
    found: &mut Vec<FoundHole>,
) -> Result<(), AllocError>
    ensures { OnOk result (Passes (yield_block_statement (block_statements.LocalClass brace)) scope.old scope.new found.old.items found.new.items) }
{
    find(scope, brace, TypePlace::Local, &[], found)?;
    scope.own.push(brace)?;
    Ok(())
}

/// Finds the types of a statement (JLS 14.5), from left to right.
#[cycle(statements)]
pub(crate) fn in_stmt(
    stmt: &Stmt,
    scope: &mut Scope<'_>,
    found: &mut Vec<FoundHole>,
) -> Result<(), AllocError>
    ensures { OnOk result (Keeps (yield_stmt stmt.now) scope.old scope.new found.old.items found.new.items) }
{
    match stmt {
        Stmt::Block(block) => in_block(block, scope, found),
        Stmt::Labeled(_, inner) => in_stmt(inner.get(), scope, found),
        Stmt::Expression(x) => in_expr(x.get(), scope, found),
        Stmt::If(arms, last) => {
            in_arms(arms.as_slice(), scope, found)?;
            in_last(last, scope, found)
        }
        Stmt::While(condition, inner) => {
            in_expr(condition.get(), scope, found)?;
            in_stmt(inner.get(), scope, found)
        }
        Stmt::Do(inner, condition) => {
            in_stmt(inner.get(), scope, found)?;
            in_expr(condition.get(), scope, found)
        }
        Stmt::For(init, test, update, inner) => {
            in_for_init(init, scope, found)?;
            in_any_expr(test, scope, found)?;
            in_exprs(update.as_slice(), scope, found)?;
            in_stmt(inner.get(), scope, found)
        }
        Stmt::Switch(x, _, groups) => {
            in_expr(x.get(), scope, found)?;
            in_groups(groups.as_slice(), scope, found)
        }
        Stmt::Return(x) => in_any_expr(x, scope, found),
        Stmt::Throw(x) => in_expr(x.get(), scope, found),
        Stmt::Synchronized(x, block) => {
            in_expr(x.get(), scope, found)?;
            in_block(block, scope, found)
        }
        Stmt::Try(block, catches, last) => {
            in_block(block, scope, found)?;
            in_catches(catches.as_slice(), scope, found)?;
            in_finally(last, scope, found)
        }
        Stmt::Assert(x, detail) => {
            in_expr(x.get(), scope, found)?;
            in_any_expr(detail, scope, found)
        }
        Stmt::Empty => Ok(()),
        Stmt::Break(_) => Ok(()),
        Stmt::Continue(_) => Ok(()),
    }
}

#[cycle(statements)]
#[tactic(auto, using(crate::proofs::InStatements::keeps_none, crate::proofs::InStatements::keeps_next))]
fn in_arms(
    arms: &[IfArm],
    scope: &mut Scope<'_>,
    found: &mut Vec<FoundHole>,
) -> Result<(), AllocError>
    ensures { OnOk result (Keeps (each (map yield_arm arms.now)) scope.old scope.new found.old.items found.new.items) }
{
    for arm in arms {
        in_arm(arm, scope, found)?;
    }
    Ok(())
}

#[cycle(statements)]
#[tactic(auto, using(crate::proofs::InStatements::in_arm_parts))]
fn in_arm(arm: &IfArm, scope: &mut Scope<'_>, found: &mut Vec<FoundHole>) -> Result<(), AllocError>
    ensures { OnOk result (Keeps (yield_arm arm.now) scope.old scope.new found.old.items found.new.items) }
{
    in_expr(arm.condition.get(), scope, found)?;
    in_stmt(&arm.then, scope, found)
}

/// The statement after a last `else`.
#[cycle(statements)]
#[tactic(auto, using(crate::proofs::InStatements::in_no_last, crate::proofs::InStatements::in_some_last))]
fn in_last(
    last: &Option<Boxed<Stmt>>,
    scope: &mut Scope<'_>,
    found: &mut Vec<FoundHole>,
) -> Result<(), AllocError>
    ensures { OnOk result (Keeps (yield_else (option_map yield_stmt last.now)) scope.old scope.new found.old.items found.new.items) }
{
    match last {
        Some(stmt) => in_stmt(stmt.get(), scope, found),
        None => Ok(()),
    }
}

#[cycle(statements)]
#[tactic(auto, using(crate::proofs::InStatements::keeps_none, crate::proofs::InStatements::keeps_next))]
fn in_catches(
    catches: &[Catch],
    scope: &mut Scope<'_>,
    found: &mut Vec<FoundHole>,
) -> Result<(), AllocError>
    ensures { OnOk result (Keeps (each (map yield_catch catches.now)) scope.old scope.new found.old.items found.new.items) }
{
    for catch in catches {
        in_catch(catch, scope, found)?;
    }
    Ok(())
}

#[cycle(statements)]
#[tactic(auto, using(crate::proofs::InStatements::in_catch_block))]
fn in_catch(
    catch: &Catch,
    scope: &mut Scope<'_>,
    found: &mut Vec<FoundHole>,
) -> Result<(), AllocError>
    ensures { OnOk result (Keeps (yield_catch catch.now) scope.old scope.new found.old.items found.new.items) }
{
    in_block(&catch.block, scope, found)
}

/// The block after `finally`.
#[cycle(statements)]
#[tactic(auto, using(crate::proofs::InStatements::in_no_finally, crate::proofs::InStatements::in_some_finally))]
fn in_finally(
    last: &Option<Block>,
    scope: &mut Scope<'_>,
    found: &mut Vec<FoundHole>,
) -> Result<(), AllocError>
    ensures { OnOk result (Keeps (yield_finally (option_map yield_block last.now)) scope.old scope.new found.old.items found.new.items) }
{
    match last {
        Some(block) => in_block(block, scope, found),
        None => Ok(()),
    }
}

/// Finds the types of a block (JLS 14.2).
#[cycle(statements)]
#[tactic(auto, using(crate::proofs::InStatements::in_ended_block))]
pub(crate) fn in_block(
    block: &Block,
    scope: &mut Scope<'_>,
    found: &mut Vec<FoundHole>,
) -> Result<(), AllocError>
    ensures { OnOk result (Keeps (yield_block block.now) scope.old scope.new found.old.items found.new.items) }
{
    let depth = scope.own.len();
    in_block_statements(block.statements.as_slice(), scope, found)?;
    scope.own.truncate(depth);
    Ok(())
}

/// Finds the types of the statements of a block, after which its local classes are in scope.
#[cycle(statements)]
#[tactic(auto, using(crate::proofs::InStatements::passes_none, crate::proofs::InStatements::passes_next))]
pub(crate) fn in_block_statements(
    statements: &[BlockStatement],
    scope: &mut Scope<'_>,
    found: &mut Vec<FoundHole>,
) -> Result<(), AllocError>
    ensures { OnOk result (Passes (in_sequence (map yield_block_statement statements.now)) scope.old scope.new found.old.items found.new.items) }
{
    for statement in statements {
        in_block_statement(statement, scope, found)?;
    }
    Ok(())
}

#[cycle(statements)]
#[tactic(auto, using(crate::proofs::InStatements::in_local_variables, crate::proofs::InStatements::in_statement))]
fn in_block_statement(
    statement: &BlockStatement,
    scope: &mut Scope<'_>,
    found: &mut Vec<FoundHole>,
) -> Result<(), AllocError>
    ensures { OnOk result (Passes (yield_block_statement statement.now) scope.old scope.new found.old.items found.new.items) }
{
    match statement {
        BlockStatement::LocalClass(brace) => in_local_class(*brace, scope, found),
        BlockStatement::Local(l) => in_variables(l.variables.as_slice(), scope, found),
        BlockStatement::Statement(stmt) => in_stmt(stmt, scope, found),
    }
}

/// The groups of a `switch`, whose braces are one block (JLS 14.10).
#[cycle(statements)]
#[tactic(auto, using(crate::proofs::InStatements::in_ended_groups))]
fn in_groups(
    groups: &[SwitchGroup],
    scope: &mut Scope<'_>,
    found: &mut Vec<FoundHole>,
) -> Result<(), AllocError>
    ensures { OnOk result (Keeps (all_yield (map yield_group groups.now)) scope.old scope.new found.old.items found.new.items) }
{
    let depth = scope.own.len();
    in_each_group(groups, scope, found)?;
    scope.own.truncate(depth);
    Ok(())
}

#[cycle(statements)]
#[tactic(auto, using(crate::proofs::InStatements::passes_none, crate::proofs::InStatements::passes_next))]
fn in_each_group(
    groups: &[SwitchGroup],
    scope: &mut Scope<'_>,
    found: &mut Vec<FoundHole>,
) -> Result<(), AllocError>
    ensures { OnOk result (Passes (in_sequence (map yield_group groups.now)) scope.old scope.new found.old.items found.new.items) }
{
    for group in groups {
        in_group(group, scope, found)?;
    }
    Ok(())
}

#[cycle(statements)]
#[tactic(auto, using(crate::proofs::InStatements::in_group_parts))]
fn in_group(
    group: &SwitchGroup,
    scope: &mut Scope<'_>,
    found: &mut Vec<FoundHole>,
) -> Result<(), AllocError>
    ensures { OnOk result (Passes (yield_group group.now) scope.old scope.new found.old.items found.new.items) }
{
    in_label(&group.label, scope, found)?;
    in_block_statements(group.statements.as_slice(), scope, found)
}
