ghost use Rattle.std.specs.Prelude.{◌≡◌, ◌-◌, ◌<◌, ◌≤◌, ◌^◌, ℕ, List, length, map, IfOk, IsErrOf};
ghost use Rattle.java_tree.specs.declared.expr.Expr.{Expr};
ghost use Rattle.java_tree.specs.declared.expr.Primary.{Primary};
ghost use Rattle.java_model.specs.Grammar.Signs.{Sign, signs};
ghost use Rattle.java_model.specs.Grammar.Runs.{AtMostOneExpr};
ghost use Rattle.java_expr_reading.specs.Input.{Gives};
ghost use Rattle.java_expr_reading.specs.Answers.{
  GoalStandsAt,
  IsFound,
  IsThatUnlessMemory,
  NoneStandsAt,
  CountsSteps,
  CountsPrimarySteps,
  PrimaryStandsAt,
  IsFoundPrimary,
  IsThatPrimaryUnlessMemory,
  NoPrimaryStandsAt,
  IsReadAs,
  IsPrimaryReadAs,
  IsArrayReadAs,
  input_at,
  expr_end,
  primary_end,
};
ghost use Rattle.java_expr_reading.specs.Reading.Expressions.{read_nest, read_goal, sees_super_call, read_qualifier};

use crate::grammar;
use java_expr_reading::forms::meets;
use java_expr_reading::{Cursor, ExprFault, Goal, Marked, ParsedArray, ParsedExpr, ParsedPrimary};
use java_tree::{Expr, MAX_DEPTH, Mark, Primary, Token};
use jx_io::Steps;
use std::alloc::Global;

#[tactic(auto, unfolding(java_expr_reading::specs::Reading::Expressions::read_goal, java_expr_reading::specs::Reading::Expressions::read_expr))]
fn read_goal(
    alloc: Global,
    cursor: &mut Cursor<'_>,
    depth: usize,
    goal: Goal,
) -> Result<Expr, ExprFault>
    ensures { Gives (read_goal goal depth cursor.old) result cursor.new }
{
    let found = grammar::expr(alloc, cursor, depth)?;
    if cursor.shape().ends_expr() && meets(goal, &found) {
        Ok(found)
    } else {
        Err(ExprFault::NoExpr)
    }
}

/// Whether `.` `super` `(` comes next.
#[tactic(auto, unfolding(java_expr_reading::specs::Reading::Expressions::sees_super_call))]
fn sees_super_call(cursor: &Cursor<'_>) -> bool
    ensures { result ≡ sees_super_call cursor.now }
{
    cursor.sees(Mark::Dot) && cursor.second().is_super() && cursor.third_is(Mark::LeftParen)
}

#[tactic(auto, unfolding(java_expr_reading::specs::Reading::Expressions::read_qualifier))]
fn read_qualifier(
    alloc: Global,
    cursor: &mut Cursor<'_>,
    depth: usize,
) -> Result<Primary, ExprFault>
    ensures { Gives (read_qualifier depth cursor.old) result cursor.new }
{
    let found = grammar::primary(alloc, cursor, depth)?;
    if sees_super_call(cursor) {
        Ok(found)
    } else {
        Err(ExprFault::NoExpr)
    }
}

/// Reads the expression that begins at a place, as `expr` does, and counts no steps.
pub fn read_expr(
    alloc: Global,
    marked: &Marked<'_>,
    at: usize,
    depth: usize,
    goal: Goal,
) -> Result<ParsedExpr, ExprFault>
    requires place { at ≤ length marked.now }
    requires nesting { depth ≤ 256 }
    ensures { IsReadAs marked.now (read_goal goal (256 - depth) (input_at marked.now at)) result }
{
    let mut cursor = Cursor::new(alloc, marked, at);
    let expr = read_goal(alloc, &mut cursor, MAX_DEPTH - depth, goal)?;
    let (next, bodies) = cursor.into_parts();
    Ok(ParsedExpr { expr, next, bodies })
}

/// Reads the primary expression before an explicit constructor call, as `primary` does, and counts no steps.
pub fn read_primary(
    alloc: Global,
    marked: &Marked<'_>,
    at: usize,
    depth: usize,
) -> Result<ParsedPrimary, ExprFault>
    requires place { at ≤ length marked.now }
    requires nesting { depth ≤ 256 }
    ensures { IsPrimaryReadAs marked.now (read_qualifier (256 - depth) (input_at marked.now at)) result }
{
    let mut cursor = Cursor::new(alloc, marked, at);
    let primary = read_qualifier(alloc, &mut cursor, MAX_DEPTH - depth)?;
    let (next, bodies) = cursor.into_parts();
    Ok(ParsedPrimary {
        primary,
        next,
        bodies,
    })
}

/// Reads the array initializer that begins at a place, with so many counted symbols above it (JLS 10.6).
pub fn read_array(
    alloc: Global,
    marked: &Marked<'_>,
    at: usize,
    depth: usize,
) -> Result<ParsedArray, ExprFault>
    requires place { at ≤ length marked.now }
    requires nesting { depth ≤ 256 }
    ensures { IsArrayReadAs marked.now ((read_nest (256 - depth)).braces (input_at marked.now at)) result }
{
    let mut cursor = Cursor::new(alloc, marked, at);
    let array = grammar::braces(alloc, &mut cursor, MAX_DEPTH - depth)?;
    let (next, bodies) = cursor.into_parts();
    Ok(ParsedArray {
        array,
        next,
        bodies,
    })
}

/// How far was read: the place after the expression, or to the end of the tokens.
fn expr_end(found: &Result<ParsedExpr, ExprFault>, len: usize) -> usize
    ensures { result ≡ expr_end found.now len }
{
    match found {
        Ok(parsed) => parsed.next,
        Err(_) => len,
    }
}

fn primary_end(found: &Result<ParsedPrimary, ExprFault>, len: usize) -> usize
    ensures { result ≡ primary_end found.now len }
{
    match found {
        Ok(parsed) => parsed.next,
        Err(_) => len,
    }
}

/// The expression that begins at a place, with so many counted symbols above it (JLS 15.27). It looks at
/// each token a bounded number of times, and at the tokens of a type in parentheses once more.
pub fn expr<L>(
    alloc: Global,
    marked: &Marked<'_>,
    at: usize,
    depth: usize,
    goal: Goal,
    steps: &mut Steps<L>,
) -> Result<ParsedExpr, ExprFault>
    requires place { at ≤ length marked.now }
    requires nesting { depth ≤ 256 }
    ensures found { IfOk result (IsFound goal marked.now at depth) }
    ensures complete { (x : Expr) (next : ℕ) → GoalStandsAt goal marked.now at depth next x → IsThatUnlessMemory result x next }
    ensures none { IsErrOf result ExprFault.NoExpr → NoneStandsAt goal marked.now at depth }
    ensures read { IsReadAs marked.now (read_goal goal (256 - depth) (input_at marked.now at)) result }
    ensures steps { CountsSteps (length marked.now) at result steps.old steps.new }
{
    let found = read_expr(alloc, marked, at, depth, goal);
    steps.add(expr_end(&found, marked.len()).saturating_sub(at) as u64);
    found
}

/// The same in tokens that aren't marked yet.
pub fn parse_expr<L>(
    alloc: Global,
    tokens: &[Token],
    at: usize,
    depth: usize,
    goal: Goal,
    steps: &mut Steps<L>,
) -> Result<ParsedExpr, ExprFault>
    requires few { length tokens.now < 2 ^ 32 }
    requires place { at ≤ length tokens.now }
    requires nesting { depth ≤ 256 }
    ensures found { IfOk result (IsFound goal (signs tokens.now) at depth) }
    ensures complete { (x : Expr) (next : ℕ) → GoalStandsAt goal (signs tokens.now) at depth next x → IsThatUnlessMemory result x next }
    ensures none { IsErrOf result ExprFault.NoExpr → NoneStandsAt goal (signs tokens.now) at depth }
    ensures steps { CountsSteps (length tokens.now) at result steps.old steps.new }
{
    match Marked::of(alloc, tokens) {
        Ok(marked) => expr(alloc, &marked, at, depth, goal, steps),
        Err(_) => Err(ExprFault::NoMemory),
    }
}

/// The primary expression that begins at a place and stands before the `super` of an explicit constructor
/// call (JLS 8.8.5.1), which has so many counted symbols above it.
pub fn primary<L>(
    alloc: Global,
    marked: &Marked<'_>,
    at: usize,
    depth: usize,
    steps: &mut Steps<L>,
) -> Result<ParsedPrimary, ExprFault>
    requires place { at ≤ length marked.now }
    requires nesting { depth ≤ 256 }
    ensures found { IfOk result (IsFoundPrimary marked.now at depth) }
    ensures complete { (p : Primary) (next : ℕ) → PrimaryStandsAt marked.now at depth next p → IsThatPrimaryUnlessMemory result p next }
    ensures none { IsErrOf result ExprFault.NoExpr → NoPrimaryStandsAt marked.now at depth }
    ensures read { IsPrimaryReadAs marked.now (read_qualifier (256 - depth) (input_at marked.now at)) result }
    ensures steps { CountsPrimarySteps (length marked.now) at result steps.old steps.new }
{
    let found = read_primary(alloc, marked, at, depth);
    steps.add(primary_end(&found, marked.len()).saturating_sub(at) as u64);
    found
}
