//! Binary operators, level by level (JLS 15.17 to 15.24), and what stands over them (JLS 15.25 to 15.27).

ghost use Rattle.std.specs.Prelude.{◌<◌, ◌≢◌, suc};
ghost use Rattle.java_expr_reading.specs.Input.{Gives, many, shape};
ghost use Rattle.java_expr_reading.specs.declared.shape.Shape.TheVariants as shapes;
ghost use Rattle.java_expr_reading.specs.Reading.Expressions as spec;
ghost use Rattle.java_expr_reading.specs.Reading.Expressions.{read_nest};
ghost use Rattle.java_parse_expr.specs.Chains.{chains};
ghost use Rattle.java_parse_expr.specs.Nests.{ParsesBy};

use crate::expressions::{assigned, chained};
use crate::grammar::Grammar;
use java_expr_reading::forms::target_of;
use java_expr_reading::names::type_use;
use java_expr_reading::{Cursor, ExprFault, Operator};
use java_tree::{ArrayInitializer, AssignOp, Boxed, Expr, Items, Mark, Operation, Primary};
use std::alloc::Global;

/// The loosest level of binary operators.
const LOOSEST: u8 = 10;

impl<
    E: Fn(Global, &mut Cursor<'_>, usize) -> Result<Expr, ExprFault>,
    P: Fn(Global, &mut Cursor<'_>, usize) -> Result<Expr, ExprFault>,
    B: Fn(Global, &mut Cursor<'_>, usize) -> Result<ArrayInitializer, ExprFault>,
> Grammar<E, P, B> {
    /// What a level holds: a unary expression, and over it chains of operators.
    #[cycle(levels)]
    pub(crate) fn binary(&self, cursor: &mut Cursor<'_>, level: u8) -> Result<Expr, ExprFault>
        requires expr { ParsesBy (read_nest self.now.depth).expr self.now.depth (E.pre self.now.expr) (E.post self.now.expr) }
        requires prefix { ParsesBy (read_nest self.now.depth).prefix self.now.depth (P.pre self.now.prefix) (P.post self.now.prefix) }
        requires braces { ParsesBy (read_nest self.now.depth).braces self.now.depth (B.pre self.now.braces) (B.post self.now.braces) }
        ensures { Gives (spec.binary self.now.depth (read_nest self.now.depth) level cursor.old) result cursor.new }
    {
        let first = self.unary(cursor)?;
        if cursor.shape().is_operator() {
            self.chains(cursor, level, first)
        } else {
            Ok(first)
        }
    }

    /// The chains of operators behind a unary expression, from the tightest level on.
    #[cycle(levels)]
    fn chains(&self, cursor: &mut Cursor<'_>, level: u8, first: Expr) -> Result<Expr, ExprFault>
        requires expr { ParsesBy (read_nest self.now.depth).expr self.now.depth (E.pre self.now.expr) (E.post self.now.expr) }
        requires prefix { ParsesBy (read_nest self.now.depth).prefix self.now.depth (P.pre self.now.prefix) (P.post self.now.prefix) }
        requires braces { ParsesBy (read_nest self.now.depth).braces self.now.depth (B.pre self.now.braces) (B.post self.now.braces) }
        ensures { Gives (chains self.now.depth (read_nest self.now.depth) level first cursor.old) result cursor.new }
    {
        let mut value = Boxed::new(self.alloc, first)?;
        for below in 0..level {
            let rest = self.operations(cursor, below, Items::new(self.alloc))?;
            value = chained(self.alloc, value, rest)?;
        }
        Ok(value.into_inner())
    }

    /// The operators that follow, behind those that were found.
    #[cycle(levels)]
    fn operations(
        &self,
        cursor: &mut Cursor<'_>,
        below: u8,
        mut found: Items<Operation>,
    ) -> Result<Items<Operation>, ExprFault>
        requires room { below < 255 }
        requires expr { ParsesBy (read_nest self.now.depth).expr self.now.depth (E.pre self.now.expr) (E.post self.now.expr) }
        requires prefix { ParsesBy (read_nest self.now.depth).prefix self.now.depth (P.pre self.now.prefix) (P.post self.now.prefix) }
        requires braces { ParsesBy (read_nest self.now.depth).braces self.now.depth (B.pre self.now.braces) (B.post self.now.braces) }
        ensures { Gives (many (spec.operation self.now.depth (read_nest self.now.depth) (suc below) (spec.binary self.now.depth (read_nest self.now.depth) below)) found cursor.old) result cursor.new }
    {
        for _turn in 0..cursor.turns() {
            match self.operation(cursor, below)? {
                Some(item) => found.push(item)?,
                None => return Ok(found),
            }
        }
        Err(ExprFault::NoExpr)
    }

    /// An operator with what stands to its right, if one comes next.
    #[cycle(levels)]
    #[tactic(auto, unfolding(java_expr_reading::specs::Reading::Expressions::operation))]
    fn operation(&self, cursor: &mut Cursor<'_>, below: u8) -> Result<Option<Operation>, ExprFault>
        requires room { below < 255 }
        requires expr { ParsesBy (read_nest self.now.depth).expr self.now.depth (E.pre self.now.expr) (E.post self.now.expr) }
        requires prefix { ParsesBy (read_nest self.now.depth).prefix self.now.depth (P.pre self.now.prefix) (P.post self.now.prefix) }
        requires braces { ParsesBy (read_nest self.now.depth).braces self.now.depth (B.pre self.now.braces) (B.post self.now.braces) }
        ensures { Gives (spec.operation self.now.depth (read_nest self.now.depth) (suc below) (spec.binary self.now.depth (read_nest self.now.depth) below) cursor.old) result cursor.new }
    {
        match cursor.shape().operator(below + 1) {
            Operator::Infix(op) => {
                cursor.take();
                let operand = self.binary(cursor, below)?;
                Ok(Some(Operation::Infix(op, operand)))
            }
            Operator::InstanceOf => {
                cursor.take();
                let of = type_use(self.alloc, cursor)?;
                Ok(Some(Operation::InstanceOf(of)))
            }
            Operator::Other => Ok(None),
        }
    }

    /// A conditional expression (JLS 15.25).
    #[tactic(auto, using(java_expr_reading::proofs::Seen::sees_some), unfolding(java_expr_reading::specs::Reading::Expressions::conditional))]
    fn conditional(&self, cursor: &mut Cursor<'_>) -> Result<Expr, ExprFault>
        requires expr { ParsesBy (read_nest self.now.depth).expr self.now.depth (E.pre self.now.expr) (E.post self.now.expr) }
        requires prefix { ParsesBy (read_nest self.now.depth).prefix self.now.depth (P.pre self.now.prefix) (P.post self.now.prefix) }
        requires braces { ParsesBy (read_nest self.now.depth).braces self.now.depth (B.pre self.now.braces) (B.post self.now.braces) }
        ensures { Gives (spec.conditional self.now.depth (read_nest self.now.depth) cursor.old) result cursor.new }
    {
        let test = self.binary(cursor, LOOSEST)?;
        if cursor.sees(Mark::Question) {
            cursor.take();
            let test = Boxed::new(self.alloc, test)?;
            self.choices(cursor, test)
        } else {
            Ok(test)
        }
    }

    /// The value that a target gets.
    fn assignment(
        &self,
        cursor: &mut Cursor<'_>,
        target: Option<Primary>,
        op: AssignOp,
    ) -> Result<Expr, ExprFault>
        requires some { shape cursor.old ≢ shapes.End }
        requires expr { ParsesBy (read_nest self.now.depth).expr self.now.depth (E.pre self.now.expr) (E.post self.now.expr) }
        ensures { Gives (spec.assign_to self.now.depth (read_nest self.now.depth) op target cursor.old) result cursor.new }
    {
        match target {
            Some(target) => {
                cursor.take();
                let value = self.expr(cursor)?;
                Ok(assigned(self.alloc, target, op, value)?)
            }
            None => Err(ExprFault::NoExpr),
        }
    }

    /// An expression (JLS 15.26, 15.27).
    #[tactic(auto, unfolding(java_expr_reading::specs::Reading::Expressions::expr_over))]
    pub(crate) fn expr_over(&self, cursor: &mut Cursor<'_>) -> Result<Expr, ExprFault>
        requires expr { ParsesBy (read_nest self.now.depth).expr self.now.depth (E.pre self.now.expr) (E.post self.now.expr) }
        requires prefix { ParsesBy (read_nest self.now.depth).prefix self.now.depth (P.pre self.now.prefix) (P.post self.now.prefix) }
        requires braces { ParsesBy (read_nest self.now.depth).braces self.now.depth (B.pre self.now.braces) (B.post self.now.braces) }
        ensures { Gives (spec.expr_over self.now.depth (read_nest self.now.depth) cursor.old) result cursor.new }
    {
        let found = self.conditional(cursor)?;
        match cursor.shape().assign_op() {
            Some(op) => self.assignment(cursor, target_of(found), op),
            None => Ok(found),
        }
    }
}
