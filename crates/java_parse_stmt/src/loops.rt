//! Loops (JLS 14.11 to 14.13).

ghost use Rattle.java_unit_reading.specs.Gives.{Gives};
ghost use Rattle.java_parse_stmt.specs.Knot.{ParsesNested, inside};
ghost use Rattle.java_unit_reading.specs.Reading.Expressions.{exprs};
ghost use Rattle.java_unit_reading.specs.Reading.Statements as spec;

use crate::grammar::Grammar;
use crate::variables::begins_local;
use java_tree::{ForInit, Mark, Stmt, TypePlace};
use java_unit_reading::{Reader, UnitFault};
use std::alloc::Global;

impl<
    S: Fn(Global, &mut Reader<'_>, Option<u64>, usize) -> Result<Stmt, UnitFault>,
    T: Fn(Global, &mut Reader<'_>, usize, TypePlace, Option<u64>, usize) -> Result<u32, UnitFault>,
> Grammar<S, T> {
    /// JLS 14.11.
    #[tactic(auto, unfolding(java_unit_reading::specs::Reading::Statements::while_stmt))]
    pub(crate) fn while_stmt(&self, reader: &mut Reader<'_>) -> Result<Stmt, UnitFault>
        requires { ParsesNested self.now.depth self.now.within (S.pre self.now.stmt) (S.post self.now.stmt)
            (T.pre self.now.type_decl) (T.post self.now.type_decl) }
        ensures { Gives (spec.while_stmt exprs (inside self.now.depth) self.now.depth self.now.within reader.old) result reader.new }
    {
        reader.expect(Mark::While)?;
        let test = self.condition(reader)?;
        let body = self.boxed_stmt(reader)?;
        Ok(Stmt::While(test, body))
    }

    /// JLS 14.12.
    #[tactic(auto, unfolding(java_unit_reading::specs::Reading::Statements::do_stmt))]
    pub(crate) fn do_stmt(&self, reader: &mut Reader<'_>) -> Result<Stmt, UnitFault>
        requires { ParsesNested self.now.depth self.now.within (S.pre self.now.stmt) (S.post self.now.stmt)
            (T.pre self.now.type_decl) (T.post self.now.type_decl) }
        ensures { Gives (spec.do_stmt exprs (inside self.now.depth) self.now.depth self.now.within reader.old) result reader.new }
    {
        reader.expect(Mark::Do)?;
        let body = self.boxed_stmt(reader)?;
        reader.expect(Mark::While)?;
        let test = self.condition(reader)?;
        reader.expect(Mark::Semicolon)?;
        Ok(Stmt::Do(body, test))
    }

    /// What a `for` begins with.
    #[tactic(auto, unfolding(java_unit_reading::specs::Reading::Statements::for_init))]
    fn for_init(&self, reader: &mut Reader<'_>) -> Result<ForInit, UnitFault>
        requires { ParsesNested self.now.depth self.now.within (S.pre self.now.stmt) (S.post self.now.stmt)
            (T.pre self.now.type_decl) (T.post self.now.type_decl) }
        ensures { Gives (spec.for_init exprs (inside self.now.depth) self.now.depth self.now.within reader.old) result reader.new }
    {
        if begins_local(reader.look()) {
            Ok(ForInit::Local(self.local(reader)?))
        } else {
            Ok(ForInit::Expressions(self.statement_exprs(reader, Mark::Semicolon)?))
        }
    }

    /// JLS 14.13.
    #[tactic(auto, unfolding(java_unit_reading::specs::Reading::Statements::for_stmt))]
    pub(crate) fn for_stmt(&self, reader: &mut Reader<'_>) -> Result<Stmt, UnitFault>
        requires { ParsesNested self.now.depth self.now.within (S.pre self.now.stmt) (S.post self.now.stmt)
            (T.pre self.now.type_decl) (T.post self.now.type_decl) }
        ensures { Gives (spec.for_stmt exprs (inside self.now.depth) self.now.depth self.now.within reader.old) result reader.new }
    {
        reader.expect(Mark::For)?;
        reader.expect(Mark::LeftParen)?;
        let init = self.for_init(reader)?;
        reader.expect(Mark::Semicolon)?;
        let test = self.any_expr(reader, Mark::Semicolon)?;
        reader.expect(Mark::Semicolon)?;
        let update = self.statement_exprs(reader, Mark::RightParen)?;
        reader.expect(Mark::RightParen)?;
        let body = self.boxed_stmt(reader)?;
        Ok(Stmt::For(init, test, update, body))
    }
}
