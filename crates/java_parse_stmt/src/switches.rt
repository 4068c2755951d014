//! `switch` (JLS 14.10).

ghost use Rattle.std.specs.Prelude.{ℕ, Option};
ghost use Rattle.java_unit_reading.specs.Gives.{Gives};
ghost use Rattle.java_parse_stmt.specs.Knot.{ParsesNested, inside};
ghost use Rattle.java_unit_reading.specs.Reading.Steps.{list};
ghost use Rattle.java_unit_reading.specs.Reading.Expressions.{exprs};
ghost use Rattle.java_unit_reading.specs.Reading.Nested.{Exprs, Parts};
ghost use Rattle.java_unit_reading.specs.Reading.Statements as spec;

use crate::grammar::Grammar;
use java_tree::{Items, Mark, Stmt, SwitchGroup, SwitchLabel, TypePlace};
use java_unit_reading::{Reader, UnitFault};
use std::alloc::Global;

/// `default` and `:`.
#[tactic(auto, unfolding(java_unit_reading::specs::Reading::Statements::default_label))]
fn default_label(reader: &mut Reader<'_>) -> Result<SwitchLabel, UnitFault>
    ensures { (E : Exprs) (P : Parts) (d : ℕ) (w : Option ℕ) → Gives (spec.default_label E P d w reader.old) result reader.new }
{
    reader.expect(Mark::Default)?;
    reader.expect(Mark::Colon)?;
    Ok(SwitchLabel::Default)
}

impl<
    S: Fn(Global, &mut Reader<'_>, Option<u64>, usize) -> Result<Stmt, UnitFault>,
    T: Fn(Global, &mut Reader<'_>, usize, TypePlace, Option<u64>, usize) -> Result<u32, UnitFault>,
> Grammar<S, T> {
    /// `case`, an expression and `:`.
    #[tactic(auto, unfolding(java_unit_reading::specs::Reading::Statements::case_label))]
    fn case_label(&self, reader: &mut Reader<'_>) -> Result<SwitchLabel, UnitFault>
        requires { ParsesNested self.now.depth self.now.within (S.pre self.now.stmt) (S.post self.now.stmt)
            (T.pre self.now.type_decl) (T.post self.now.type_decl) }
        ensures { Gives (spec.case_label exprs (inside self.now.depth) self.now.depth self.now.within reader.old) result reader.new }
    {
        reader.expect(Mark::Case)?;
        let value = self.boxed_expr(reader)?;
        reader.expect(Mark::Colon)?;
        Ok(SwitchLabel::Case(value))
    }

    /// The label of a group.
    #[tactic(auto, unfolding(java_unit_reading::specs::Reading::Statements::switch_label))]
    fn switch_label(&self, reader: &mut Reader<'_>) -> Result<SwitchLabel, UnitFault>
        requires { ParsesNested self.now.depth self.now.within (S.pre self.now.stmt) (S.post self.now.stmt)
            (T.pre self.now.type_decl) (T.post self.now.type_decl) }
        ensures { Gives (spec.switch_label exprs (inside self.now.depth) self.now.depth self.now.within reader.old) result reader.new }
    {
        if reader.sees(Mark::Case) {
            self.case_label(reader)
        } else {
            default_label(reader)
        }
    }

    /// A label with the statements after it.
    #[tactic(auto, unfolding(java_unit_reading::specs::Reading::Statements::group))]
    fn group(&self, reader: &mut Reader<'_>) -> Result<SwitchGroup, UnitFault>
        requires { ParsesNested self.now.depth self.now.within (S.pre self.now.stmt) (S.post self.now.stmt)
            (T.pre self.now.type_decl) (T.post self.now.type_decl) }
        ensures { Gives (spec.group exprs (inside self.now.depth) self.now.depth self.now.within reader.old) result reader.new }
    {
        let label = self.switch_label(reader)?;
        let statements = self.block_statements(reader)?;
        Ok(SwitchGroup { label, statements })
    }

    /// A group, unless a `}` comes next.
    #[tactic(auto, unfolding(java_unit_reading::specs::Reading::Statements::any_group))]
    fn any_group(&self, reader: &mut Reader<'_>) -> Result<Option<SwitchGroup>, UnitFault>
        requires { ParsesNested self.now.depth self.now.within (S.pre self.now.stmt) (S.post self.now.stmt)
            (T.pre self.now.type_decl) (T.post self.now.type_decl) }
        ensures { Gives (spec.any_group exprs (inside self.now.depth) self.now.depth self.now.within reader.old) result reader.new }
    {
        if reader.sees(Mark::RightBrace) {
            Ok(None)
        } else {
            Ok(Some(self.group(reader)?))
        }
    }

    /// The groups up to a `}`.
    fn groups(&self, reader: &mut Reader<'_>) -> Result<Items<SwitchGroup>, UnitFault>
        requires { ParsesNested self.now.depth self.now.within (S.pre self.now.stmt) (S.post self.now.stmt)
            (T.pre self.now.type_decl) (T.post self.now.type_decl) }
        ensures { Gives (list (spec.any_group exprs (inside self.now.depth) self.now.depth self.now.within) reader.old) result reader.new }
    {
        let mut found = Items::new(self.alloc);
        for _turn in 0..reader.turns() {
            match self.any_group(reader)? {
                Some(item) => found.push(item)?,
                None => return Ok(found),
            }
        }
        Err(UnitFault::NoTree)
    }

    /// JLS 14.10.
    #[tactic(auto, unfolding(java_unit_reading::specs::Reading::Statements::switch_stmt))]
    pub(crate) fn switch_stmt(&self, reader: &mut Reader<'_>) -> Result<Stmt, UnitFault>
        requires { ParsesNested self.now.depth self.now.within (S.pre self.now.stmt) (S.post self.now.stmt)
            (T.pre self.now.type_decl) (T.post self.now.type_decl) }
        ensures { Gives (spec.switch_stmt exprs (inside self.now.depth) self.now.depth self.now.within reader.old) result reader.new }
    {
        reader.expect(Mark::Switch)?;
        let value = self.condition(reader)?;
        let brace = reader.brace()?;
        let groups = self.groups(reader)?;
        reader.expect(Mark::RightBrace)?;
        Ok(Stmt::Switch(value, brace, groups))
    }
}
