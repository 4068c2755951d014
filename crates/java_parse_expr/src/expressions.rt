//! Expressions over primary ones (JLS 15.14 to 15.27).

ghost use Rattle.std.specs.Prelude.{◌≡◌, ◌≢◌, ◌<◌, ◌≤◌, ℕ, suc, IfOk};
ghost use Rattle.java_tree.specs.declared.expr.Expr.TheVariants as exprs;
ghost use Rattle.java_model.specs.Grammar.Forms.{is_assignment};
ghost use Rattle.java_expr_reading.specs.Input.{Gives, many, shape, next, sees};
ghost use Rattle.java_expr_reading.specs.declared.shape.Shape.TheVariants as shapes;
ghost use Rattle.java_tree.specs.declared.mark.Mark.TheVariants as marks;
ghost use Rattle.java_expr_reading.specs.Reading.Expressions as spec;
ghost use Rattle.java_expr_reading.specs.Reading.Expressions.{read_nest};
ghost use Rattle.java_expr_reading.specs.Reading.Primaries.{Nest};
ghost use Rattle.java_parse_expr.specs.Nests.{ParsesBy};

use crate::grammar::Grammar;
use java_expr_reading::forms::is_assignment;
use java_expr_reading::names::{sees_dim, sees_member, type_use};
use java_expr_reading::{Cursor, ExprFault, Shape, primitive_of};
use java_tree::{
    ArrayInitializer, AssignOp, Boxed, ElementType, Expr, Items, Mark, Operation, PostfixOp,
    PrefixOp, Primary, TypeUse,
};
use std::alloc::{AllocError, Global};

/// Passes the identifiers that follow, each after a dot.
#[tactic(auto, using(java_expr_reading::proofs::Seen::member_some, java_expr_reading::proofs::Seen::member_second))]
fn skip_names(cursor: &mut Cursor<'_>)
    ensures { cursor.new ≡ spec.skip_names cursor.old }
{
    for _turn in 0..cursor.turns() {
        if !sees_member(cursor) {
            return;
        }
        cursor.take();
        cursor.take();
    }
}

/// Passes the `[]`s that follow.
#[tactic(auto, using(java_expr_reading::proofs::Seen::dim_some, java_expr_reading::proofs::Seen::dim_second))]
fn skip_dims(cursor: &mut Cursor<'_>)
    ensures { cursor.new ≡ spec.skip_dims cursor.old }
{
    for _turn in 0..cursor.turns() {
        if !sees_dim(cursor) {
            return;
        }
        cursor.take();
        cursor.take();
    }
}

#[tactic(auto, unfolding(java_expr_reading::specs::Reading::Expressions::closes_name))]
fn closes_name(cursor: &Cursor<'_>) -> bool
    ensures { result ≡ spec.closes_name cursor.now }
{
    cursor.sees(Mark::RightParen) && cursor.second().begins_operand()
}

/// Whether a name, maybe with `[]`s, closes a cast.
fn closes_named(cursor: &mut Cursor<'_>) -> bool
    requires { shape cursor.old ≢ shapes.End }
    ensures { result ≡ spec.closes_name (spec.skip_dims (spec.skip_names (next cursor.old))) }
{
    cursor.take();
    skip_names(cursor);
    skip_dims(cursor);
    closes_name(cursor)
}

/// Whether a primitive type, maybe with `[]`s, closes a cast.
fn closes_primitive(cursor: &mut Cursor<'_>) -> bool
    requires { shape cursor.old ≢ shapes.End }
    ensures { result ≡ sees marks.RightParen (spec.skip_dims (next cursor.old)) }
{
    cursor.take();
    skip_dims(cursor);
    cursor.sees(Mark::RightParen)
}

fn closes_type(cursor: &mut Cursor<'_>) -> bool
    ensures { result ≡ spec.cast_by (shape cursor.old) (next cursor.old) }
{
    match cursor.shape() {
        Shape::Word => closes_named(cursor),
        Shape::Mark(mark) => primitive_of(mark).is_some() && closes_primitive(cursor),
        _ => false,
    }
}

fn is_named(element: &ElementType) -> bool
    ensures { result ≡ spec.is_named element.now }
{
    match element {
        ElementType::Named(_) => true,
        ElementType::Primitive(_) => false,
    }
}

fn prefixed(alloc: Global, op: PrefixOp, operand: Expr) -> Result<Expr, AllocError>
    ensures { IfOk result (λ x. x ≡ exprs.Prefix op operand) }
{
    Ok(Expr::Prefix(op, Boxed::new(alloc, operand)?))
}

fn cast_to(alloc: Global, of: TypeUse, operand: Expr) -> Result<Expr, AllocError>
    ensures { IfOk result (λ x. x ≡ exprs.Cast of operand) }
{
    Ok(Expr::Cast(of, Boxed::new(alloc, operand)?))
}

pub(crate) fn assigned(
    alloc: Global,
    target: Primary,
    op: AssignOp,
    value: Expr,
) -> Result<Expr, AllocError>
    ensures { IfOk result (λ x. x ≡ exprs.Assign target op value) }
{
    Ok(Expr::Assign(target, op, Boxed::new(alloc, value)?))
}

/// A chain of operators of one level, or its only operand.
pub(crate) fn chained(
    alloc: Global,
    first: Boxed<Expr>,
    rest: Items<Operation>,
) -> Result<Boxed<Expr>, AllocError>
    ensures { IfOk result (λ x. x ≡ spec.chain_of first rest) }
{
    if rest.is_empty() {
        Ok(first)
    } else {
        Boxed::new(alloc, Expr::Binary(first, rest))
    }
}

fn choice_of(test: Boxed<Expr>, yes: Boxed<Expr>, no: Boxed<Expr>) -> Expr
    ensures { result ≡ exprs.Conditional test yes no }
{
    Expr::Conditional(test, yes, no)
}

/// `++` or `--` after an operand, if one comes next.
#[tactic(auto, unfolding(java_expr_reading::specs::Reading::Expressions::postfix_op))]
fn postfix_op(cursor: &mut Cursor<'_>) -> Result<Option<PostfixOp>, ExprFault>
    ensures { (depth_left : ℕ) (N : Nest) → Gives (spec.postfix_op depth_left N cursor.old) result cursor.new }
{
    match cursor.shape().postfix_op() {
        Some(op) => {
            cursor.take();
            Ok(Some(op))
        }
        None => Ok(None),
    }
}

impl<
    E: Fn(Global, &mut Cursor<'_>, usize) -> Result<Expr, ExprFault>,
    P: Fn(Global, &mut Cursor<'_>, usize) -> Result<Expr, ExprFault>,
    B: Fn(Global, &mut Cursor<'_>, usize) -> Result<ArrayInitializer, ExprFault>,
> Grammar<E, P, B> {
    /// Whether a cast comes next (JLS 15.16): after `(` a type and `)`, and after a name an operand without a sign.
    #[tactic(auto, using(crate::proofs::Steps::looking_some, crate::proofs::Steps::shape_looking), unfolding(java_expr_reading::specs::Reading::Expressions::sees_cast))]
    fn sees_cast(&self, cursor: &Cursor<'_>) -> bool
        ensures { result ≡ spec.sees_cast cursor.now }
    {
        if !cursor.sees(Mark::LeftParen) {
            return false;
        }
        let mut ahead = cursor.look(self.alloc);
        ahead.take();
        closes_type(&mut ahead)
    }

    fn postfix_ops(
        &self,
        cursor: &mut Cursor<'_>,
        mut found: Items<PostfixOp>,
    ) -> Result<Items<PostfixOp>, ExprFault>
        ensures { Gives (many (spec.postfix_op self.now.depth (read_nest self.now.depth)) found cursor.old) result cursor.new }
    {
        for _turn in 0..cursor.turns() {
            match postfix_op(cursor)? {
                Some(item) => found.push(item)?,
                None => return Ok(found),
            }
        }
        Err(ExprFault::NoExpr)
    }

    #[tactic(auto, unfolding(java_expr_reading::specs::Reading::Expressions::postfix))]
    fn postfix(&self, cursor: &mut Cursor<'_>) -> Result<Expr, ExprFault>
        requires expr { ParsesBy (read_nest self.now.depth).expr self.now.depth (E.pre self.now.expr) (E.post self.now.expr) }
        requires braces { ParsesBy (read_nest self.now.depth).braces self.now.depth (B.pre self.now.braces) (B.post self.now.braces) }
        ensures { Gives (spec.postfix self.now.depth (read_nest self.now.depth) cursor.old) result cursor.new }
    {
        let primary = self.primary(cursor)?;
        let ops = self.postfix_ops(cursor, Items::new(self.alloc))?;
        Ok(Expr::Postfix(primary, ops))
    }

    #[tactic(auto, unfolding(java_expr_reading::specs::Reading::Expressions::unary, java_expr_reading::specs::Reading::Expressions::begins_prefix))]
    pub(crate) fn unary(&self, cursor: &mut Cursor<'_>) -> Result<Expr, ExprFault>
        requires expr { ParsesBy (read_nest self.now.depth).expr self.now.depth (E.pre self.now.expr) (E.post self.now.expr) }
        requires prefix { ParsesBy (read_nest self.now.depth).prefix self.now.depth (P.pre self.now.prefix) (P.post self.now.prefix) }
        requires braces { ParsesBy (read_nest self.now.depth).braces self.now.depth (B.pre self.now.braces) (B.post self.now.braces) }
        ensures { Gives (spec.unary self.now.depth (read_nest self.now.depth) cursor.old) result cursor.new }
    {
        if cursor.shape().prefix_op().is_some() || self.sees_cast(cursor) {
            self.prefix(cursor)
        } else {
            self.postfix(cursor)
        }
    }

    #[tactic(auto, unfolding(java_expr_reading::specs::Reading::Expressions::cast_operand))]
    fn cast_operand(&self, cursor: &mut Cursor<'_>, of: TypeUse) -> Result<Expr, ExprFault>
        requires expr { ParsesBy (read_nest self.now.depth).expr self.now.depth (E.pre self.now.expr) (E.post self.now.expr) }
        requires prefix { ParsesBy (read_nest self.now.depth).prefix self.now.depth (P.pre self.now.prefix) (P.post self.now.prefix) }
        requires braces { ParsesBy (read_nest self.now.depth).braces self.now.depth (B.pre self.now.braces) (B.post self.now.braces) }
        ensures { Gives (spec.cast_operand self.now.depth (read_nest self.now.depth) of cursor.old) result cursor.new }
    {
        if is_named(&of.element) && !cursor.shape().begins_operand() {
            return Err(ExprFault::NoExpr);
        }
        let operand = self.unary(cursor)?;
        Ok(cast_to(self.alloc, of, operand)?)
    }

    #[tactic(auto, unfolding(java_expr_reading::specs::Reading::Expressions::cast))]
    fn cast(&self, cursor: &mut Cursor<'_>) -> Result<Expr, ExprFault>
        requires expr { ParsesBy (read_nest self.now.depth).expr self.now.depth (E.pre self.now.expr) (E.post self.now.expr) }
        requires prefix { ParsesBy (read_nest self.now.depth).prefix self.now.depth (P.pre self.now.prefix) (P.post self.now.prefix) }
        requires braces { ParsesBy (read_nest self.now.depth).braces self.now.depth (B.pre self.now.braces) (B.post self.now.braces) }
        ensures { Gives (spec.cast self.now.depth (read_nest self.now.depth) cursor.old) result cursor.new }
    {
        cursor.expect(Mark::LeftParen)?;
        let of = type_use(self.alloc, cursor)?;
        cursor.expect(Mark::RightParen)?;
        self.cast_operand(cursor, of)
    }

    #[tactic(auto, unfolding(java_expr_reading::specs::Reading::Expressions::prefix_over))]
    pub(crate) fn prefix_over(&self, cursor: &mut Cursor<'_>) -> Result<Expr, ExprFault>
        requires expr { ParsesBy (read_nest self.now.depth).expr self.now.depth (E.pre self.now.expr) (E.post self.now.expr) }
        requires prefix { ParsesBy (read_nest self.now.depth).prefix self.now.depth (P.pre self.now.prefix) (P.post self.now.prefix) }
        requires braces { ParsesBy (read_nest self.now.depth).braces self.now.depth (B.pre self.now.braces) (B.post self.now.braces) }
        ensures { Gives (spec.prefix_over self.now.depth (read_nest self.now.depth) cursor.old) result cursor.new }
    {
        match cursor.shape().prefix_op() {
            Some(op) => {
                cursor.take();
                let operand = self.unary(cursor)?;
                Ok(prefixed(self.alloc, op, operand)?)
            }
            None => self.cast(cursor),
        }
    }

    /// What stands behind the `?`.
    #[tactic(auto, unfolding(java_expr_reading::specs::Reading::Expressions::choices))]
    pub(crate) fn choices(
        &self,
        cursor: &mut Cursor<'_>,
        test: Boxed<Expr>,
    ) -> Result<Expr, ExprFault>
        requires { ParsesBy (read_nest self.now.depth).expr self.now.depth (E.pre self.now.expr) (E.post self.now.expr) }
        ensures { Gives (spec.choices self.now.depth (read_nest self.now.depth) test cursor.old) result cursor.new }
    {
        let yes = self.boxed_expr(cursor)?;
        cursor.expect(Mark::Colon)?;
        let no = self.expr(cursor)?;
        if is_assignment(&no) {
            Err(ExprFault::NoExpr)
        } else {
            let no = Boxed::new(self.alloc, no)?;
            Ok(choice_of(test, yes, no))
        }
    }

    /// A nested expression in a box.
    fn boxed_expr(&self, cursor: &mut Cursor<'_>) -> Result<Boxed<Expr>, ExprFault>
        requires { ParsesBy (read_nest self.now.depth).expr self.now.depth (E.pre self.now.expr) (E.post self.now.expr) }
        ensures { Gives ((read_nest self.now.depth).expr cursor.old) result cursor.new }
    {
        let inside = self.expr(cursor)?;
        Ok(Boxed::new(self.alloc, inside)?)
    }
}
