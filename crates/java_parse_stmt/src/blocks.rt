//! Blocks (JLS 14.2).

ghost use Rattle.std.specs.Prelude.{◌≡◌};
ghost use Rattle.java_unit_reading.specs.Gives.{Gives};
ghost use Rattle.java_parse_stmt.specs.Knot.{ParsesNested, inside};
ghost use Rattle.java_unit_reading.specs.Reading.Steps.{list};
ghost use Rattle.java_unit_reading.specs.Reading.Expressions.{exprs};
ghost use Rattle.java_unit_reading.specs.Reading.Statements as spec;

use crate::grammar::Grammar;
use crate::variables::begins_local;
use java_tree::{Block, BlockStatement, Items, Mark, Stmt, TypePlace};
use java_unit_reading::words::skip_modifiers;
use java_unit_reading::{Look, Reader, UnitFault};
use std::alloc::Global;

/// Whether a local class is declared next (JLS 14.3).
fn begins_class(mut look: Look<'_>) -> bool
    ensures { result ≡ spec.begins_class look.entry }
{
    skip_modifiers(&mut look);
    look.sees(Mark::Class)
}

/// Whether no statement of a block comes next.
fn ends_block(look: &Look<'_>) -> bool
    ensures { result ≡ spec.ends_block look.now }
{
    look.sees(Mark::RightBrace) || look.sees(Mark::Case) || look.sees(Mark::Default)
}

impl<
    S: Fn(Global, &mut Reader<'_>, Option<u64>, usize) -> Result<Stmt, UnitFault>,
    T: Fn(Global, &mut Reader<'_>, usize, TypePlace, Option<u64>, usize) -> Result<u32, UnitFault>,
> Grammar<S, T> {
    /// A local class (JLS 14.3).
    #[tactic(auto, unfolding(java_unit_reading::specs::Reading::Statements::local_class))]
    fn local_class(&self, reader: &mut Reader<'_>) -> Result<BlockStatement, UnitFault>
        requires { ParsesNested self.now.depth self.now.within (S.pre self.now.stmt) (S.post self.now.stmt)
            (T.pre self.now.type_decl) (T.post self.now.type_decl) }
        ensures { Gives (spec.local_class exprs (inside self.now.depth) self.now.depth self.now.within reader.old) result reader.new }
    {
        let brace = self.type_decl(reader, self.depth, TypePlace::Local)?;
        Ok(BlockStatement::LocalClass(brace))
    }

    /// A declaration of local variables as a statement (JLS 14.4).
    #[tactic(auto, unfolding(java_unit_reading::specs::Reading::Statements::local_variables))]
    fn local_variables(&self, reader: &mut Reader<'_>) -> Result<BlockStatement, UnitFault>
        requires { ParsesNested self.now.depth self.now.within (S.pre self.now.stmt) (S.post self.now.stmt)
            (T.pre self.now.type_decl) (T.post self.now.type_decl) }
        ensures { Gives (spec.local_variables exprs (inside self.now.depth) self.now.depth self.now.within reader.old) result reader.new }
    {
        let local = self.local(reader)?;
        reader.expect(Mark::Semicolon)?;
        Ok(BlockStatement::Local(local))
    }

    /// A statement in a block (JLS 14.5).
    #[tactic(auto, unfolding(java_unit_reading::specs::Reading::Statements::nested_statement))]
    fn nested_statement(&self, reader: &mut Reader<'_>) -> Result<BlockStatement, UnitFault>
        requires { ParsesNested self.now.depth self.now.within (S.pre self.now.stmt) (S.post self.now.stmt)
            (T.pre self.now.type_decl) (T.post self.now.type_decl) }
        ensures { Gives (spec.nested_statement exprs (inside self.now.depth) self.now.depth self.now.within reader.old) result reader.new }
    {
        let statement = self.stmt(reader)?;
        Ok(BlockStatement::Statement(statement))
    }

    /// What stands in a block (JLS 14.2).
    #[tactic(auto, unfolding(java_unit_reading::specs::Reading::Statements::block_statement))]
    fn block_statement(&self, reader: &mut Reader<'_>) -> Result<BlockStatement, UnitFault>
        requires { ParsesNested self.now.depth self.now.within (S.pre self.now.stmt) (S.post self.now.stmt)
            (T.pre self.now.type_decl) (T.post self.now.type_decl) }
        ensures { Gives (spec.block_statement exprs (inside self.now.depth) self.now.depth self.now.within reader.old) result reader.new }
    {
        if begins_class(reader.look()) {
            self.local_class(reader)
        } else if begins_local(reader.look()) {
            self.local_variables(reader)
        } else {
            self.nested_statement(reader)
        }
    }

    /// What stands in a block, unless the block or the group ends.
    #[tactic(auto, unfolding(java_unit_reading::specs::Reading::Statements::any_block_statement))]
    fn any_block_statement(
        &self,
        reader: &mut Reader<'_>,
    ) -> Result<Option<BlockStatement>, UnitFault>
        requires { ParsesNested self.now.depth self.now.within (S.pre self.now.stmt) (S.post self.now.stmt)
            (T.pre self.now.type_decl) (T.post self.now.type_decl) }
        ensures { Gives (spec.any_block_statement exprs (inside self.now.depth) self.now.depth self.now.within reader.old) result reader.new }
    {
        if ends_block(&reader.look()) {
            Ok(None)
        } else {
            Ok(Some(self.block_statement(reader)?))
        }
    }

    /// The statements up to the end of a block or a group.
    pub fn block_statements(
        &self,
        reader: &mut Reader<'_>,
    ) -> Result<Items<BlockStatement>, UnitFault>
        requires { ParsesNested self.now.depth self.now.within (S.pre self.now.stmt) (S.post self.now.stmt)
            (T.pre self.now.type_decl) (T.post self.now.type_decl) }
        ensures { Gives (list (spec.any_block_statement exprs (inside self.now.depth) self.now.depth self.now.within) reader.old) result reader.new }
    {
        let mut found = Items::new(self.alloc);
        for _turn in 0..reader.turns() {
            match self.any_block_statement(reader)? {
                Some(item) => found.push(item)?,
                None => return Ok(found),
            }
        }
        Err(UnitFault::NoTree)
    }

    /// A block (JLS 14.2).
    #[tactic(auto, unfolding(java_unit_reading::specs::Reading::Statements::block))]
    pub fn block(&self, reader: &mut Reader<'_>) -> Result<Block, UnitFault>
        requires { ParsesNested self.now.depth self.now.within (S.pre self.now.stmt) (S.post self.now.stmt)
            (T.pre self.now.type_decl) (T.post self.now.type_decl) }
        ensures { Gives (spec.block exprs (inside self.now.depth) self.now.depth self.now.within reader.old) result reader.new }
    {
        let brace = reader.brace()?;
        let statements = self.block_statements(reader)?;
        reader.expect(Mark::RightBrace)?;
        Ok(Block { brace, statements })
    }
}
