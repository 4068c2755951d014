//! `if` (JLS 14.9), and which statement comes next (JLS 14.5).

ghost use Rattle.std.specs.Prelude.{◌≡◌, length, suc, Some, IfOk};
ghost use Rattle.java_tree.specs.declared.stmt.Stmt.TheVariants as stmts;
ghost use Rattle.java_unit_reading.specs.Gives.{Gives};
ghost use Rattle.java_parse_stmt.specs.Knot.{ParsesNested, inside};
ghost use Rattle.java_unit_reading.specs.Reading.Steps.{choose};
ghost use Rattle.java_unit_reading.specs.Reading.Expressions.{exprs};
ghost use Rattle.java_unit_reading.specs.Reading.Statements as spec;

use crate::grammar::Grammar;
use crate::simple::{break_stmt, continue_stmt, empty_stmt};
use java_expr_reading::Shape;
use java_expr_reading::names::only;
use java_tree::{Boxed, IfArm, Items, Mark, Stmt, TypePlace};
use java_unit_reading::{Look, Reader, UnitFault};
use std::alloc::{AllocError, Global};

/// Whether an identifier and `:` come next (JLS 14.7).
fn begins_label(look: &Look<'_>) -> bool
    ensures { result ≡ spec.begins_label look.now }
{
    look.is_word() && look.next().sees(Mark::Colon)
}

fn if_else(alloc: Global, arms: Items<IfArm>, other: Stmt) -> Result<Stmt, AllocError>
    ensures { IfOk result (λ s. s ≡ stmts.If arms (Some other)) }
{
    Ok(Stmt::If(arms, Some(Boxed::new(alloc, other)?)))
}

impl<
    S: Fn(Global, &mut Reader<'_>, Option<u64>, usize) -> Result<Stmt, UnitFault>,
    T: Fn(Global, &mut Reader<'_>, usize, TypePlace, Option<u64>, usize) -> Result<u32, UnitFault>,
> Grammar<S, T> {
    /// The statement that a mark begins, other than `if`.
    fn plain_by(&self, reader: &mut Reader<'_>, mark: Mark) -> Result<Stmt, UnitFault>
        requires { ParsesNested self.now.depth self.now.within (S.pre self.now.stmt) (S.post self.now.stmt)
            (T.pre self.now.type_decl) (T.post self.now.type_decl) }
        ensures { Gives (spec.plain_by exprs (inside self.now.depth) self.now.depth self.now.within mark reader.old) result reader.new }
    {
        match mark {
            Mark::Semicolon => empty_stmt(reader),
            Mark::While => self.while_stmt(reader),
            Mark::Do => self.do_stmt(reader),
            Mark::For => self.for_stmt(reader),
            Mark::Switch => self.switch_stmt(reader),
            Mark::Break => break_stmt(self.alloc, reader),
            Mark::Continue => continue_stmt(self.alloc, reader),
            Mark::Return => self.return_stmt(reader),
            Mark::Throw => self.throw_stmt(reader),
            Mark::Synchronized => self.synchronized_stmt(reader),
            Mark::Try => self.try_stmt(reader),
            Mark::Assert => self.assert_stmt(reader),
            Mark::If | Mark::Else | Mark::Catch | Mark::Finally => Err(UnitFault::NoTree),
            _ => self.expression_stmt(reader),
        }
    }

    /// A statement that an identifier begins.
    fn worded(&self, reader: &mut Reader<'_>) -> Result<Stmt, UnitFault>
        requires { ParsesNested self.now.depth self.now.within (S.pre self.now.stmt) (S.post self.now.stmt)
            (T.pre self.now.type_decl) (T.post self.now.type_decl) }
        ensures { Gives (choose spec.begins_label
            (spec.labeled_stmt exprs (inside self.now.depth) self.now.depth self.now.within)
            (spec.expression_stmt exprs (inside self.now.depth) self.now.depth self.now.within) reader.old) result reader.new }
    {
        if begins_label(&reader.look()) {
            self.labeled_stmt(reader)
        } else {
            self.expression_stmt(reader)
        }
    }

    /// A statement other than `if`.
    #[tactic(auto, unfolding(java_unit_reading::specs::Reading::Statements::plain_stmt))]
    fn plain_stmt(&self, reader: &mut Reader<'_>) -> Result<Stmt, UnitFault>
        requires { ParsesNested self.now.depth self.now.within (S.pre self.now.stmt) (S.post self.now.stmt)
            (T.pre self.now.type_decl) (T.post self.now.type_decl) }
        ensures { Gives (spec.plain_stmt exprs (inside self.now.depth) self.now.depth self.now.within reader.old) result reader.new }
    {
        match reader.shape() {
            Shape::LeftBrace => self.block_stmt(reader),
            Shape::Mark(mark) => self.plain_by(reader, mark),
            Shape::Word => self.worded(reader),
            _ => self.expression_stmt(reader),
        }
    }

    /// `if`, its condition and the statement after it.
    #[tactic(auto, unfolding(java_unit_reading::specs::Reading::Statements::arm))]
    fn arm(&self, reader: &mut Reader<'_>) -> Result<IfArm, UnitFault>
        requires { ParsesNested self.now.depth self.now.within (S.pre self.now.stmt) (S.post self.now.stmt)
            (T.pre self.now.type_decl) (T.post self.now.type_decl) }
        ensures { Gives (spec.arm exprs (inside self.now.depth) self.now.depth self.now.within reader.old) result reader.new }
    {
        reader.expect(Mark::If)?;
        let condition = self.condition(reader)?;
        let then = self.stmt(reader)?;
        Ok(IfArm { condition, then })
    }

    /// The statement after an `else` that no `if` follows.
    fn last_else(&self, reader: &mut Reader<'_>, arms: Items<IfArm>) -> Result<Stmt, UnitFault>
        requires { ParsesNested self.now.depth self.now.within (S.pre self.now.stmt) (S.post self.now.stmt)
            (T.pre self.now.type_decl) (T.post self.now.type_decl) }
        ensures { Gives (spec.last_else exprs (inside self.now.depth) self.now.depth self.now.within arms reader.old) result reader.new }
    {
        let other = self.plain_stmt(reader)?;
        Ok(if_else(self.alloc, arms, other)?)
    }

    /// The arms that follow, after those that were found, and a last `else`.
    fn arms(&self, reader: &mut Reader<'_>, mut found: Items<IfArm>) -> Result<Stmt, UnitFault>
        requires { ParsesNested self.now.depth self.now.within (S.pre self.now.stmt) (S.post self.now.stmt)
            (T.pre self.now.type_decl) (T.post self.now.type_decl) }
        ensures { Gives (spec.arms_from exprs (inside self.now.depth) self.now.depth self.now.within
            (suc (length reader.old.tokens)) found reader.old) result reader.new }
    {
        for _turn in 0..reader.turns() {
            if !reader.sees(Mark::Else) {
                return Ok(Stmt::If(found, None));
            }
            reader.take();
            if !reader.sees(Mark::If) {
                return self.last_else(reader, found);
            }
            let arm = self.arm(reader)?;
            found.push(arm)?;
        }
        Err(UnitFault::NoTree)
    }

    /// JLS 14.9.
    #[tactic(auto, unfolding(java_unit_reading::specs::Reading::Statements::if_stmt))]
    fn if_stmt(&self, reader: &mut Reader<'_>) -> Result<Stmt, UnitFault>
        requires { ParsesNested self.now.depth self.now.within (S.pre self.now.stmt) (S.post self.now.stmt)
            (T.pre self.now.type_decl) (T.post self.now.type_decl) }
        ensures { Gives (spec.if_stmt exprs (inside self.now.depth) self.now.depth self.now.within reader.old) result reader.new }
    {
        let first = self.arm(reader)?;
        let found = only(self.alloc, first)?;
        self.arms(reader, found)
    }

    /// A statement, with one more of the depth left outside it (JLS 14.5).
    #[tactic(auto, unfolding(java_unit_reading::specs::Reading::Statements::stmt))]
    pub fn stmt_over(&self, reader: &mut Reader<'_>) -> Result<Stmt, UnitFault>
        requires { ParsesNested self.now.depth self.now.within (S.pre self.now.stmt) (S.post self.now.stmt)
            (T.pre self.now.type_decl) (T.post self.now.type_decl) }
        ensures { Gives (spec.stmt exprs (inside self.now.depth) self.now.depth self.now.within reader.old) result reader.new }
    {
        if reader.sees(Mark::If) {
            self.if_stmt(reader)
        } else {
            self.plain_stmt(reader)
        }
    }
}
