//! The parsers of what holds expressions take the parsers of those as function values, so that each is proved by
//! itself. The knot is tied here, on the depth that is left.

ghost use Rattle.std.specs.Prelude.{◌≤◌};
ghost use Rattle.java_expr_reading.specs.Input.{Gives};
ghost use Rattle.java_expr_reading.specs.Reading.Expressions.{read_nest, read_primary};
ghost use Rattle.java_parse_expr.specs.Nests.{ParsesBy};

use java_expr_reading::{Cursor, ExprFault};
use java_tree::{ArrayInitializer, Expr, Primary};
use std::alloc::Global;

/// Parsers over what is nested, with so much of the depth left inside.
#[derive(Clone, Copy)]
pub(crate) struct Grammar<E, P, B> {
    pub(crate) alloc: Global,
    pub(crate) depth: usize,
    pub(crate) expr: E,
    pub(crate) prefix: P,
    pub(crate) braces: B,
}

impl<
    E: Fn(Global, &mut Cursor<'_>, usize) -> Result<Expr, ExprFault>,
    P: Fn(Global, &mut Cursor<'_>, usize) -> Result<Expr, ExprFault>,
    B: Fn(Global, &mut Cursor<'_>, usize) -> Result<ArrayInitializer, ExprFault>,
> Grammar<E, P, B> {
    /// A nested expression (JLS 15.27).
    pub(crate) fn expr(&self, cursor: &mut Cursor<'_>) -> Result<Expr, ExprFault>
        requires { ParsesBy (read_nest self.now.depth).expr self.now.depth (E.pre self.now.expr) (E.post self.now.expr) }
        ensures { Gives ((read_nest self.now.depth).expr cursor.old) result cursor.new }
    {
        (self.expr)(self.alloc, cursor, self.depth)
    }

    /// A nested unary operator or cast with its operand (JLS 15.15, 15.16).
    pub(crate) fn prefix(&self, cursor: &mut Cursor<'_>) -> Result<Expr, ExprFault>
        requires { ParsesBy (read_nest self.now.depth).prefix self.now.depth (P.pre self.now.prefix) (P.post self.now.prefix) }
        ensures { Gives ((read_nest self.now.depth).prefix cursor.old) result cursor.new }
    {
        (self.prefix)(self.alloc, cursor, self.depth)
    }

    /// A nested array initializer (JLS 10.6).
    pub(crate) fn braces(&self, cursor: &mut Cursor<'_>) -> Result<ArrayInitializer, ExprFault>
        requires { ParsesBy (read_nest self.now.depth).braces self.now.depth (B.pre self.now.braces) (B.post self.now.braces) }
        ensures { Gives ((read_nest self.now.depth).braces cursor.old) result cursor.new }
    {
        (self.braces)(self.alloc, cursor, self.depth)
    }
}

/// An expression, with so much of the depth left outside it (JLS 15.27).
#[cycle(nested)]
pub(crate) fn expr(alloc: Global, cursor: &mut Cursor<'_>, depth: usize) -> Result<Expr, ExprFault>
    ensures { Gives ((read_nest depth).expr cursor.old) result cursor.new }
{
    if depth == 0 {
        return Err(ExprFault::NoExpr);
    }
    Grammar {
        alloc,
        depth: depth - 1,
        expr,
        prefix,
        braces,
    }
    .expr_over(cursor)
}

/// A unary operator or a cast with its operand, with so much of the depth left outside it (JLS 15.15, 15.16).
#[cycle(nested)]
fn prefix(alloc: Global, cursor: &mut Cursor<'_>, depth: usize) -> Result<Expr, ExprFault>
    ensures { Gives ((read_nest depth).prefix cursor.old) result cursor.new }
{
    if depth == 0 {
        return Err(ExprFault::NoExpr);
    }
    Grammar {
        alloc,
        depth: depth - 1,
        expr,
        prefix,
        braces,
    }
    .prefix_over(cursor)
}

/// An array initializer, with so much of the depth left outside it (JLS 10.6).
#[cycle(nested)]
pub(crate) fn braces(
    alloc: Global,
    cursor: &mut Cursor<'_>,
    depth: usize,
) -> Result<ArrayInitializer, ExprFault>
    ensures { Gives ((read_nest depth).braces cursor.old) result cursor.new }
{
    if depth == 0 {
        return Err(ExprFault::NoExpr);
    }
    Grammar {
        alloc,
        depth: depth - 1,
        expr,
        prefix,
        braces,
    }
    .braces_over(cursor)
}

/// A primary expression, with so much of the depth left around it (JLS 15.8).
#[tactic(auto, unfolding(java_expr_reading::specs::Reading::Expressions::read_primary))]
pub(crate) fn primary(
    alloc: Global,
    cursor: &mut Cursor<'_>,
    depth: usize,
) -> Result<Primary, ExprFault>
    ensures { Gives (read_primary depth cursor.old) result cursor.new }
{
    Grammar {
        alloc,
        depth,
        expr,
        prefix,
        braces,
    }
    .primary(cursor)
}
