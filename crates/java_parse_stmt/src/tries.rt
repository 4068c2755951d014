//! `try` (JLS 14.19).

ghost use Rattle.std.specs.Prelude.{ℕ, Option};
ghost use Rattle.java_tree.specs.declared.mark.Mark.TheVariants as marks;
ghost use Rattle.java_unit_reading.specs.Gives.{Gives};
ghost use Rattle.java_parse_stmt.specs.Knot.{ParsesNested, inside};
ghost use Rattle.java_unit_reading.specs.Reading.Steps.{State, introduced, list};
ghost use Rattle.java_unit_reading.specs.Reading.Expressions.{exprs};
ghost use Rattle.java_unit_reading.specs.Reading.Nested.{Exprs, Parts};
ghost use Rattle.java_unit_reading.specs.Reading.Statements as spec;

use crate::grammar::Grammar;
use crate::variables::parameter;
use java_tree::{Block, Catch, Items, Mark, Stmt, TypePlace};
use java_unit_reading::{Reader, UnitFault};
use std::alloc::Global;

/// A `try` of its parts, which has a `catch` or a `finally`.
fn tried(block: Block, catches: Items<Catch>, finally: Option<Block>) -> Result<Stmt, UnitFault>
    ensures { (E : Exprs) (P : Parts) (d : ℕ) (w : Option ℕ) (s : State) → Gives (spec.tried E P d w block catches finally s) result s }
{
    if catches.is_empty() && finally.is_none() {
        Err(UnitFault::NoTree)
    } else {
        Ok(Stmt::Try(block, catches, finally))
    }
}

impl<
    S: Fn(Global, &mut Reader<'_>, Option<u64>, usize) -> Result<Stmt, UnitFault>,
    T: Fn(Global, &mut Reader<'_>, usize, TypePlace, Option<u64>, usize) -> Result<u32, UnitFault>,
> Grammar<S, T> {
    /// `catch` with its parameter and its block.
    #[tactic(auto, unfolding(java_unit_reading::specs::Reading::Statements::catch_clause))]
    fn catch_clause(&self, reader: &mut Reader<'_>) -> Result<Catch, UnitFault>
        requires { ParsesNested self.now.depth self.now.within (S.pre self.now.stmt) (S.post self.now.stmt)
            (T.pre self.now.type_decl) (T.post self.now.type_decl) }
        ensures { Gives (spec.catch_clause exprs (inside self.now.depth) self.now.depth self.now.within reader.old) result reader.new }
    {
        reader.expect(Mark::Catch)?;
        reader.expect(Mark::LeftParen)?;
        let parameter = parameter(self.alloc, reader)?;
        reader.expect(Mark::RightParen)?;
        let block = self.block(reader)?;
        Ok(Catch { parameter, block })
    }

    /// A `catch` with its parts, if one comes next.
    #[tactic(auto, unfolding(java_unit_reading::specs::Reading::Statements::any_catch))]
    fn any_catch(&self, reader: &mut Reader<'_>) -> Result<Option<Catch>, UnitFault>
        requires { ParsesNested self.now.depth self.now.within (S.pre self.now.stmt) (S.post self.now.stmt)
            (T.pre self.now.type_decl) (T.post self.now.type_decl) }
        ensures { Gives (spec.any_catch exprs (inside self.now.depth) self.now.depth self.now.within reader.old) result reader.new }
    {
        if reader.sees(Mark::Catch) {
            Ok(Some(self.catch_clause(reader)?))
        } else {
            Ok(None)
        }
    }

    /// Each `catch` that follows.
    fn catches(&self, reader: &mut Reader<'_>) -> Result<Items<Catch>, UnitFault>
        requires { ParsesNested self.now.depth self.now.within (S.pre self.now.stmt) (S.post self.now.stmt)
            (T.pre self.now.type_decl) (T.post self.now.type_decl) }
        ensures { Gives (list (spec.any_catch exprs (inside self.now.depth) self.now.depth self.now.within) reader.old) result reader.new }
    {
        let mut found = Items::new(self.alloc);
        for _turn in 0..reader.turns() {
            match self.any_catch(reader)? {
                Some(item) => found.push(item)?,
                None => return Ok(found),
            }
        }
        Err(UnitFault::NoTree)
    }

    /// `finally` and its block, if it comes next.
    fn any_finally(&self, reader: &mut Reader<'_>) -> Result<Option<Block>, UnitFault>
        requires { ParsesNested self.now.depth self.now.within (S.pre self.now.stmt) (S.post self.now.stmt)
            (T.pre self.now.type_decl) (T.post self.now.type_decl) }
        ensures { Gives (introduced marks.Finally
            (spec.block exprs (inside self.now.depth) self.now.depth self.now.within) reader.old) result reader.new }
    {
        if reader.sees(Mark::Finally) {
            reader.expect(Mark::Finally)?;
            Ok(Some(self.block(reader)?))
        } else {
            Ok(None)
        }
    }

    /// JLS 14.19.
    #[tactic(auto, unfolding(java_unit_reading::specs::Reading::Statements::try_stmt))]
    pub(crate) fn try_stmt(&self, reader: &mut Reader<'_>) -> Result<Stmt, UnitFault>
        requires { ParsesNested self.now.depth self.now.within (S.pre self.now.stmt) (S.post self.now.stmt)
            (T.pre self.now.type_decl) (T.post self.now.type_decl) }
        ensures { Gives (spec.try_stmt exprs (inside self.now.depth) self.now.depth self.now.within reader.old) result reader.new }
    {
        reader.expect(Mark::Try)?;
        let block = self.block(reader)?;
        let catches = self.catches(reader)?;
        let finally = self.any_finally(reader)?;
        tried(block, catches, finally)
    }
}
