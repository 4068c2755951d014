//! Expressions as statements hold them (JLS 14, 15.12).

ghost use Rattle.java_unit_reading.specs.Gives.{Gives};
ghost use Rattle.java_parse_stmt.specs.Knot.{ParsesNested, inside};
ghost use Rattle.java_unit_reading.specs.Reading.Steps.{list_from};
ghost use Rattle.java_unit_reading.specs.Reading.Expressions.{exprs};
ghost use Rattle.java_unit_reading.specs.Reading.Nested as spec;
ghost use Rattle.java_unit_reading.specs.Reading.Statements.{any_expr, statement_exprs};

use crate::grammar::Grammar;
use java_expr_reading::Goal;
use java_expr_reading::forms::meets;
use java_expr_reading::names::only;
use java_tree::{Boxed, Expr, Initializer, Items, Mark, Stmt, TypePlace};
use java_unit_reading::{Reader, UnitFault};
use std::alloc::Global;

impl<
    S: Fn(Global, &mut Reader<'_>, Option<u64>, usize) -> Result<Stmt, UnitFault>,
    T: Fn(Global, &mut Reader<'_>, usize, TypePlace, Option<u64>, usize) -> Result<u32, UnitFault>,
> Grammar<S, T> {
    /// The initializer of a variable (JLS 8.3, 10.6).
    #[tactic(auto, unfolding(java_unit_reading::specs::Reading::Nested::initializer))]
    pub(crate) fn initializer(&self, reader: &mut Reader<'_>) -> Result<Initializer, UnitFault>
        requires { ParsesNested self.now.depth self.now.within (S.pre self.now.stmt) (S.post self.now.stmt)
            (T.pre self.now.type_decl) (T.post self.now.type_decl) }
        ensures { Gives (spec.initializer exprs (inside self.now.depth) self.now.depth self.now.within reader.old) result reader.new }
    {
        if reader.look().sees_brace() {
            Ok(Initializer::Array(self.array(reader)?))
        } else {
            Ok(Initializer::Value(self.expr(reader)?))
        }
    }

    /// A comma and an expression, if a comma comes next.
    #[tactic(auto, unfolding(java_unit_reading::specs::Reading::Nested::comma_expr))]
    fn comma_expr(&self, reader: &mut Reader<'_>) -> Result<Option<Expr>, UnitFault>
        requires { ParsesNested self.now.depth self.now.within (S.pre self.now.stmt) (S.post self.now.stmt)
            (T.pre self.now.type_decl) (T.post self.now.type_decl) }
        ensures { Gives (spec.comma_expr exprs (inside self.now.depth) self.now.depth self.now.within reader.old) result reader.new }
    {
        if reader.sees(Mark::Comma) {
            reader.expect(Mark::Comma)?;
            Ok(Some(self.expr(reader)?))
        } else {
            Ok(None)
        }
    }

    /// The expressions that follow, each after a comma, after those that were found.
    fn comma_exprs(
        &self,
        reader: &mut Reader<'_>,
        mut found: Items<Expr>,
    ) -> Result<Items<Expr>, UnitFault>
        requires { ParsesNested self.now.depth self.now.within (S.pre self.now.stmt) (S.post self.now.stmt)
            (T.pre self.now.type_decl) (T.post self.now.type_decl) }
        ensures { Gives (list_from
            (spec.comma_expr exprs (inside self.now.depth) self.now.depth self.now.within) found reader.old) result reader.new }
    {
        for _turn in 0..reader.turns() {
            match self.comma_expr(reader)? {
                Some(item) => found.push(item)?,
                None => return Ok(found),
            }
        }
        Err(UnitFault::NoTree)
    }

    /// Expressions, separated by commas, up to a `)`.
    #[tactic(auto, unfolding(java_unit_reading::specs::Reading::Nested::any_exprs))]
    fn any_exprs(&self, reader: &mut Reader<'_>) -> Result<Items<Expr>, UnitFault>
        requires { ParsesNested self.now.depth self.now.within (S.pre self.now.stmt) (S.post self.now.stmt)
            (T.pre self.now.type_decl) (T.post self.now.type_decl) }
        ensures { Gives (spec.any_exprs exprs (inside self.now.depth) self.now.depth self.now.within reader.old) result reader.new }
    {
        if reader.sees(Mark::RightParen) {
            Ok(Items::new(self.alloc))
        } else {
            let first = self.expr(reader)?;
            let found = only(self.alloc, first)?;
            self.comma_exprs(reader, found)
        }
    }

    /// The arguments of a call in parentheses (JLS 15.12).
    #[tactic(auto, unfolding(java_unit_reading::specs::Reading::Nested::arguments))]
    pub fn arguments(&self, reader: &mut Reader<'_>) -> Result<Items<Expr>, UnitFault>
        requires { ParsesNested self.now.depth self.now.within (S.pre self.now.stmt) (S.post self.now.stmt)
            (T.pre self.now.type_decl) (T.post self.now.type_decl) }
        ensures { Gives (spec.arguments exprs (inside self.now.depth) self.now.depth self.now.within reader.old) result reader.new }
    {
        reader.expect(Mark::LeftParen)?;
        let found = self.any_exprs(reader)?;
        reader.expect(Mark::RightParen)?;
        Ok(found)
    }

    /// An expression that may be a statement (JLS 14.8).
    #[tactic(auto, unfolding(java_unit_reading::specs::Reading::Nested::statement_expr))]
    pub(crate) fn statement_expr(&self, reader: &mut Reader<'_>) -> Result<Expr, UnitFault>
        requires { ParsesNested self.now.depth self.now.within (S.pre self.now.stmt) (S.post self.now.stmt)
            (T.pre self.now.type_decl) (T.post self.now.type_decl) }
        ensures { Gives (spec.statement_expr exprs (inside self.now.depth) self.now.depth self.now.within reader.old) result reader.new }
    {
        let found = self.expr(reader)?;
        if meets(Goal::Statement, &found) {
            Ok(found)
        } else {
            Err(UnitFault::NoTree)
        }
    }

    /// A comma and an expression that may be a statement, if a comma comes next.
    #[tactic(auto, unfolding(java_unit_reading::specs::Reading::Nested::comma_statement_expr))]
    fn comma_statement_expr(&self, reader: &mut Reader<'_>) -> Result<Option<Expr>, UnitFault>
        requires { ParsesNested self.now.depth self.now.within (S.pre self.now.stmt) (S.post self.now.stmt)
            (T.pre self.now.type_decl) (T.post self.now.type_decl) }
        ensures { Gives (spec.comma_statement_expr exprs (inside self.now.depth) self.now.depth self.now.within reader.old) result reader.new }
    {
        if reader.sees(Mark::Comma) {
            reader.expect(Mark::Comma)?;
            Ok(Some(self.statement_expr(reader)?))
        } else {
            Ok(None)
        }
    }

    /// The expressions that follow and may be statements, each after a comma, after those that were found.
    fn comma_statement_exprs(
        &self,
        reader: &mut Reader<'_>,
        mut found: Items<Expr>,
    ) -> Result<Items<Expr>, UnitFault>
        requires { ParsesNested self.now.depth self.now.within (S.pre self.now.stmt) (S.post self.now.stmt)
            (T.pre self.now.type_decl) (T.post self.now.type_decl) }
        ensures { Gives (list_from
            (spec.comma_statement_expr exprs (inside self.now.depth) self.now.depth self.now.within) found reader.old) result reader.new }
    {
        for _turn in 0..reader.turns() {
            match self.comma_statement_expr(reader)? {
                Some(item) => found.push(item)?,
                None => return Ok(found),
            }
        }
        Err(UnitFault::NoTree)
    }

    /// Expressions that may be statements, separated by commas, up to a mark (JLS 14.13).
    #[tactic(auto, unfolding(java_unit_reading::specs::Reading::Statements::statement_exprs))]
    pub(crate) fn statement_exprs(
        &self,
        reader: &mut Reader<'_>,
        end: Mark,
    ) -> Result<Items<Expr>, UnitFault>
        requires { ParsesNested self.now.depth self.now.within (S.pre self.now.stmt) (S.post self.now.stmt)
            (T.pre self.now.type_decl) (T.post self.now.type_decl) }
        ensures { Gives (statement_exprs exprs (inside self.now.depth) self.now.depth self.now.within end reader.old) result reader.new }
    {
        if reader.sees(end) {
            Ok(Items::new(self.alloc))
        } else {
            let first = self.statement_expr(reader)?;
            let found = only(self.alloc, first)?;
            self.comma_statement_exprs(reader, found)
        }
    }

    /// An expression in a box.
    pub(crate) fn boxed_expr(&self, reader: &mut Reader<'_>) -> Result<Boxed<Expr>, UnitFault>
        requires { ParsesNested self.now.depth self.now.within (S.pre self.now.stmt) (S.post self.now.stmt)
            (T.pre self.now.type_decl) (T.post self.now.type_decl) }
        ensures { Gives (spec.expr exprs (inside self.now.depth) self.now.depth self.now.within reader.old) result reader.new }
    {
        let inside = self.expr(reader)?;
        Ok(Boxed::new(self.alloc, inside)?)
    }

    /// An expression, unless a mark comes next.
    #[tactic(auto, unfolding(java_unit_reading::specs::Reading::Statements::any_expr))]
    pub(crate) fn any_expr(
        &self,
        reader: &mut Reader<'_>,
        end: Mark,
    ) -> Result<Option<Boxed<Expr>>, UnitFault>
        requires { ParsesNested self.now.depth self.now.within (S.pre self.now.stmt) (S.post self.now.stmt)
            (T.pre self.now.type_decl) (T.post self.now.type_decl) }
        ensures { Gives (any_expr exprs (inside self.now.depth) self.now.depth self.now.within end reader.old) result reader.new }
    {
        if reader.sees(end) {
            Ok(None)
        } else {
            Ok(Some(self.boxed_expr(reader)?))
        }
    }

    /// An expression in parentheses.
    #[tactic(auto, unfolding(java_unit_reading::specs::Reading::Nested::condition))]
    pub(crate) fn condition(&self, reader: &mut Reader<'_>) -> Result<Boxed<Expr>, UnitFault>
        requires { ParsesNested self.now.depth self.now.within (S.pre self.now.stmt) (S.post self.now.stmt)
            (T.pre self.now.type_decl) (T.post self.now.type_decl) }
        ensures { Gives (spec.condition exprs (inside self.now.depth) self.now.depth self.now.within reader.old) result reader.new }
    {
        reader.expect(Mark::LeftParen)?;
        let inside = self.boxed_expr(reader)?;
        reader.expect(Mark::RightParen)?;
        Ok(inside)
    }
}
