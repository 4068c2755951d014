//! Statements that hold no list of statements but in a block (JLS 14.6 to 14.8, 14.14 to 14.18).

ghost use Rattle.std.specs.Prelude.{ℕ, Option};
ghost use Rattle.java_tree.specs.declared.mark.Mark.TheVariants as marks;
ghost use Rattle.java_unit_reading.specs.Gives.{Gives};
ghost use Rattle.java_parse_stmt.specs.Knot.{ParsesNested, inside};
ghost use Rattle.java_unit_reading.specs.Reading.Steps.{introduced};
ghost use Rattle.java_unit_reading.specs.Reading.Expressions.{exprs};
ghost use Rattle.java_unit_reading.specs.Reading.Nested.{Exprs, Parts};
ghost use Rattle.java_unit_reading.specs.Reading.Nested as nested;
ghost use Rattle.java_unit_reading.specs.Reading.Statements as spec;

use crate::grammar::Grammar;
use java_tree::{Boxed, Expr, Ident, Mark, Stmt, TypePlace};
use java_unit_reading::{Reader, UnitFault};
use std::alloc::Global;

/// The identifier that comes next, if one does.
#[tactic(auto, unfolding(java_unit_reading::specs::Reading::Statements::any_label))]
fn any_label(alloc: Global, reader: &mut Reader<'_>) -> Result<Option<Ident>, UnitFault>
    ensures { (E : Exprs) (P : Parts) (d : ℕ) (w : Option ℕ) → Gives (spec.any_label E P d w reader.old) result reader.new }
{
    if reader.look().is_word() {
        Ok(Some(reader.identifier(alloc)?))
    } else {
        Ok(None)
    }
}

/// JLS 14.6.
#[tactic(auto, unfolding(java_unit_reading::specs::Reading::Statements::empty_stmt))]
pub(crate) fn empty_stmt(reader: &mut Reader<'_>) -> Result<Stmt, UnitFault>
    ensures { (E : Exprs) (P : Parts) (d : ℕ) (w : Option ℕ) → Gives (spec.empty_stmt E P d w reader.old) result reader.new }
{
    reader.expect(Mark::Semicolon)?;
    Ok(Stmt::Empty)
}

/// JLS 14.14.
#[tactic(auto, unfolding(java_unit_reading::specs::Reading::Statements::break_stmt))]
pub(crate) fn break_stmt(alloc: Global, reader: &mut Reader<'_>) -> Result<Stmt, UnitFault>
    ensures { (E : Exprs) (P : Parts) (d : ℕ) (w : Option ℕ) → Gives (spec.break_stmt E P d w reader.old) result reader.new }
{
    reader.expect(Mark::Break)?;
    let label = any_label(alloc, reader)?;
    reader.expect(Mark::Semicolon)?;
    Ok(Stmt::Break(label))
}

/// JLS 14.15.
#[tactic(auto, unfolding(java_unit_reading::specs::Reading::Statements::continue_stmt))]
pub(crate) fn continue_stmt(alloc: Global, reader: &mut Reader<'_>) -> Result<Stmt, UnitFault>
    ensures { (E : Exprs) (P : Parts) (d : ℕ) (w : Option ℕ) → Gives (spec.continue_stmt E P d w reader.old) result reader.new }
{
    reader.expect(Mark::Continue)?;
    let label = any_label(alloc, reader)?;
    reader.expect(Mark::Semicolon)?;
    Ok(Stmt::Continue(label))
}

impl<
    S: Fn(Global, &mut Reader<'_>, Option<u64>, usize) -> Result<Stmt, UnitFault>,
    T: Fn(Global, &mut Reader<'_>, usize, TypePlace, Option<u64>, usize) -> Result<u32, UnitFault>,
> Grammar<S, T> {
    /// A nested statement in a box.
    pub(crate) fn boxed_stmt(&self, reader: &mut Reader<'_>) -> Result<Boxed<Stmt>, UnitFault>
        requires { ParsesNested self.now.depth self.now.within (S.pre self.now.stmt) (S.post self.now.stmt)
            (T.pre self.now.type_decl) (T.post self.now.type_decl) }
        ensures { Gives ((inside self.now.depth).stmt self.now.within reader.old) result reader.new }
    {
        let inside = self.stmt(reader)?;
        Ok(Boxed::new(self.alloc, inside)?)
    }

    /// A block as a statement (JLS 14.2).
    #[tactic(auto, unfolding(java_unit_reading::specs::Reading::Statements::block_stmt))]
    pub(crate) fn block_stmt(&self, reader: &mut Reader<'_>) -> Result<Stmt, UnitFault>
        requires { ParsesNested self.now.depth self.now.within (S.pre self.now.stmt) (S.post self.now.stmt)
            (T.pre self.now.type_decl) (T.post self.now.type_decl) }
        ensures { Gives (spec.block_stmt exprs (inside self.now.depth) self.now.depth self.now.within reader.old) result reader.new }
    {
        Ok(Stmt::Block(self.block(reader)?))
    }

    /// JLS 14.7.
    #[tactic(auto, unfolding(java_unit_reading::specs::Reading::Statements::labeled_stmt))]
    pub(crate) fn labeled_stmt(&self, reader: &mut Reader<'_>) -> Result<Stmt, UnitFault>
        requires { ParsesNested self.now.depth self.now.within (S.pre self.now.stmt) (S.post self.now.stmt)
            (T.pre self.now.type_decl) (T.post self.now.type_decl) }
        ensures { Gives (spec.labeled_stmt exprs (inside self.now.depth) self.now.depth self.now.within reader.old) result reader.new }
    {
        let label = reader.identifier(self.alloc)?;
        reader.expect(Mark::Colon)?;
        let body = self.boxed_stmt(reader)?;
        Ok(Stmt::Labeled(label, body))
    }

    /// An expression and `;` (JLS 14.8).
    #[tactic(auto, unfolding(java_unit_reading::specs::Reading::Statements::expression_stmt))]
    pub(crate) fn expression_stmt(&self, reader: &mut Reader<'_>) -> Result<Stmt, UnitFault>
        requires { ParsesNested self.now.depth self.now.within (S.pre self.now.stmt) (S.post self.now.stmt)
            (T.pre self.now.type_decl) (T.post self.now.type_decl) }
        ensures { Gives (spec.expression_stmt exprs (inside self.now.depth) self.now.depth self.now.within reader.old) result reader.new }
    {
        let inside = self.boxed_statement_expr(reader)?;
        reader.expect(Mark::Semicolon)?;
        Ok(Stmt::Expression(inside))
    }

    /// An expression that may be a statement, in a box.
    fn boxed_statement_expr(&self, reader: &mut Reader<'_>) -> Result<Boxed<Expr>, UnitFault>
        requires { ParsesNested self.now.depth self.now.within (S.pre self.now.stmt) (S.post self.now.stmt)
            (T.pre self.now.type_decl) (T.post self.now.type_decl) }
        ensures { Gives (nested.statement_expr exprs (inside self.now.depth) self.now.depth self.now.within reader.old) result reader.new }
    {
        let inside = self.statement_expr(reader)?;
        Ok(Boxed::new(self.alloc, inside)?)
    }

    /// JLS 14.16.
    #[tactic(auto, unfolding(java_unit_reading::specs::Reading::Statements::return_stmt))]
    pub(crate) fn return_stmt(&self, reader: &mut Reader<'_>) -> Result<Stmt, UnitFault>
        requires { ParsesNested self.now.depth self.now.within (S.pre self.now.stmt) (S.post self.now.stmt)
            (T.pre self.now.type_decl) (T.post self.now.type_decl) }
        ensures { Gives (spec.return_stmt exprs (inside self.now.depth) self.now.depth self.now.within reader.old) result reader.new }
    {
        reader.expect(Mark::Return)?;
        let value = self.any_expr(reader, Mark::Semicolon)?;
        reader.expect(Mark::Semicolon)?;
        Ok(Stmt::Return(value))
    }

    /// JLS 14.17.
    #[tactic(auto, unfolding(java_unit_reading::specs::Reading::Statements::throw_stmt))]
    pub(crate) fn throw_stmt(&self, reader: &mut Reader<'_>) -> Result<Stmt, UnitFault>
        requires { ParsesNested self.now.depth self.now.within (S.pre self.now.stmt) (S.post self.now.stmt)
            (T.pre self.now.type_decl) (T.post self.now.type_decl) }
        ensures { Gives (spec.throw_stmt exprs (inside self.now.depth) self.now.depth self.now.within reader.old) result reader.new }
    {
        reader.expect(Mark::Throw)?;
        let thrown = self.boxed_expr(reader)?;
        reader.expect(Mark::Semicolon)?;
        Ok(Stmt::Throw(thrown))
    }

    /// JLS 14.18.
    #[tactic(auto, unfolding(java_unit_reading::specs::Reading::Statements::synchronized_stmt))]
    pub(crate) fn synchronized_stmt(&self, reader: &mut Reader<'_>) -> Result<Stmt, UnitFault>
        requires { ParsesNested self.now.depth self.now.within (S.pre self.now.stmt) (S.post self.now.stmt)
            (T.pre self.now.type_decl) (T.post self.now.type_decl) }
        ensures { Gives (spec.synchronized_stmt exprs (inside self.now.depth) self.now.depth self.now.within reader.old) result reader.new }
    {
        reader.expect(Mark::Synchronized)?;
        let lock = self.condition(reader)?;
        let block = self.block(reader)?;
        Ok(Stmt::Synchronized(lock, block))
    }

    /// `:` and an expression, if a `:` comes next.
    fn any_detail(&self, reader: &mut Reader<'_>) -> Result<Option<Boxed<Expr>>, UnitFault>
        requires { ParsesNested self.now.depth self.now.within (S.pre self.now.stmt) (S.post self.now.stmt)
            (T.pre self.now.type_decl) (T.post self.now.type_decl) }
        ensures { Gives (introduced marks.Colon
            (nested.expr exprs (inside self.now.depth) self.now.depth self.now.within) reader.old) result reader.new }
    {
        if reader.sees(Mark::Colon) {
            reader.expect(Mark::Colon)?;
            Ok(Some(self.boxed_expr(reader)?))
        } else {
            Ok(None)
        }
    }

    /// JSR 41.
    #[tactic(auto, unfolding(java_unit_reading::specs::Reading::Statements::assert_stmt))]
    pub(crate) fn assert_stmt(&self, reader: &mut Reader<'_>) -> Result<Stmt, UnitFault>
        requires { ParsesNested self.now.depth self.now.within (S.pre self.now.stmt) (S.post self.now.stmt)
            (T.pre self.now.type_decl) (T.post self.now.type_decl) }
        ensures { Gives (spec.assert_stmt exprs (inside self.now.depth) self.now.depth self.now.within reader.old) result reader.new }
    {
        reader.expect(Mark::Assert)?;
        let test = self.boxed_expr(reader)?;
        let detail = self.any_detail(reader)?;
        reader.expect(Mark::Semicolon)?;
        Ok(Stmt::Assert(test, detail))
    }
}
