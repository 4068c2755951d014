//! Variables and parameters (JLS 8.3, 8.4.1, 14.4).

ghost use Rattle.std.specs.Prelude.{◌≡◌, ℕ, Option};
ghost use Rattle.java_tree.specs.declared.mark.Mark.TheVariants as marks;
ghost use Rattle.java_unit_reading.specs.Gives.{Gives};
ghost use Rattle.java_parse_stmt.specs.Knot.{ParsesNested, inside};
ghost use Rattle.java_unit_reading.specs.Reading.Steps.{introduced, list_from};
ghost use Rattle.java_unit_reading.specs.Reading.Expressions.{exprs};
ghost use Rattle.java_unit_reading.specs.Reading.Nested.{Exprs, Parts};
ghost use Rattle.java_unit_reading.specs.Reading.Nested as nested;
ghost use Rattle.java_unit_reading.specs.Reading.Statements as spec;

use crate::grammar::Grammar;
use java_expr_reading::names::only;
use java_tree::{Initializer, Items, LocalVariables, Mark, Parameter, Stmt, TypePlace, Variable};
use java_unit_reading::words::{declares, dims, type_use};
use java_unit_reading::{Look, Reader, UnitFault};
use std::alloc::Global;

/// A parameter of a method, a constructor or a `catch` (JLS 8.4.1, 14.19).
#[tactic(auto, unfolding(java_unit_reading::specs::Reading::Statements::parameter))]
pub fn parameter(alloc: Global, reader: &mut Reader<'_>) -> Result<Parameter, UnitFault>
    ensures { (E : Exprs) (P : Parts) (d : ℕ) (w : Option ℕ) → Gives (spec.parameter E P d w reader.old) result reader.new }
{
    let is_final = reader.eat(Mark::Final)?;
    let of = type_use(alloc, reader)?;
    let name = reader.identifier(alloc)?;
    let dims = dims(reader)?;
    Ok(Parameter {
        is_final,
        of,
        name,
        dims,
    })
}

/// Whether local variables are declared next (JLS 14.4).
pub(crate) fn begins_local(look: Look<'_>) -> bool
    ensures { result ≡ spec.begins_local look.entry }
{
    look.sees(Mark::Final) || declares(look)
}

impl<
    S: Fn(Global, &mut Reader<'_>, Option<u64>, usize) -> Result<Stmt, UnitFault>,
    T: Fn(Global, &mut Reader<'_>, usize, TypePlace, Option<u64>, usize) -> Result<u32, UnitFault>,
> Grammar<S, T> {
    /// `=` and an initializer, if a `=` comes next.
    fn any_initializer(&self, reader: &mut Reader<'_>) -> Result<Option<Initializer>, UnitFault>
        requires { ParsesNested self.now.depth self.now.within (S.pre self.now.stmt) (S.post self.now.stmt)
            (T.pre self.now.type_decl) (T.post self.now.type_decl) }
        ensures { Gives (introduced marks.Assign
            (nested.initializer exprs (inside self.now.depth) self.now.depth self.now.within) reader.old) result reader.new }
    {
        if reader.sees(Mark::Assign) {
            reader.expect(Mark::Assign)?;
            Ok(Some(self.initializer(reader)?))
        } else {
            Ok(None)
        }
    }

    /// A variable with its initializer (JLS 8.3, 14.4).
    #[tactic(auto, unfolding(java_unit_reading::specs::Reading::Statements::variable))]
    fn variable(&self, reader: &mut Reader<'_>) -> Result<Variable, UnitFault>
        requires { ParsesNested self.now.depth self.now.within (S.pre self.now.stmt) (S.post self.now.stmt)
            (T.pre self.now.type_decl) (T.post self.now.type_decl) }
        ensures { Gives (spec.variable exprs (inside self.now.depth) self.now.depth self.now.within reader.old) result reader.new }
    {
        let name = reader.identifier(self.alloc)?;
        let dims = dims(reader)?;
        let initializer = self.any_initializer(reader)?;
        Ok(Variable {
            name,
            dims,
            initializer,
        })
    }

    /// A comma and a variable, if a comma comes next.
    #[tactic(auto, unfolding(java_unit_reading::specs::Reading::Statements::comma_variable))]
    fn comma_variable(&self, reader: &mut Reader<'_>) -> Result<Option<Variable>, UnitFault>
        requires { ParsesNested self.now.depth self.now.within (S.pre self.now.stmt) (S.post self.now.stmt)
            (T.pre self.now.type_decl) (T.post self.now.type_decl) }
        ensures { Gives (spec.comma_variable exprs (inside self.now.depth) self.now.depth self.now.within reader.old) result reader.new }
    {
        if reader.sees(Mark::Comma) {
            reader.expect(Mark::Comma)?;
            Ok(Some(self.variable(reader)?))
        } else {
            Ok(None)
        }
    }

    /// The variables that follow, each after a comma, after those that were found.
    fn comma_variables(
        &self,
        reader: &mut Reader<'_>,
        mut found: Items<Variable>,
    ) -> Result<Items<Variable>, UnitFault>
        requires { ParsesNested self.now.depth self.now.within (S.pre self.now.stmt) (S.post self.now.stmt)
            (T.pre self.now.type_decl) (T.post self.now.type_decl) }
        ensures { Gives (list_from
            (spec.comma_variable exprs (inside self.now.depth) self.now.depth self.now.within) found reader.old) result reader.new }
    {
        for _turn in 0..reader.turns() {
            match self.comma_variable(reader)? {
                Some(item) => found.push(item)?,
                None => return Ok(found),
            }
        }
        Err(UnitFault::NoTree)
    }

    /// Variables, separated by commas.
    #[tactic(auto, unfolding(java_unit_reading::specs::Reading::Statements::variables))]
    pub fn variables(&self, reader: &mut Reader<'_>) -> Result<Items<Variable>, UnitFault>
        requires { ParsesNested self.now.depth self.now.within (S.pre self.now.stmt) (S.post self.now.stmt)
            (T.pre self.now.type_decl) (T.post self.now.type_decl) }
        ensures { Gives (spec.variables exprs (inside self.now.depth) self.now.depth self.now.within reader.old) result reader.new }
    {
        let first = self.variable(reader)?;
        let found = only(self.alloc, first)?;
        self.comma_variables(reader, found)
    }

    /// A declaration of local variables (JLS 14.4), without its `;`.
    #[tactic(auto, unfolding(java_unit_reading::specs::Reading::Statements::local))]
    pub(crate) fn local(&self, reader: &mut Reader<'_>) -> Result<LocalVariables, UnitFault>
        requires { ParsesNested self.now.depth self.now.within (S.pre self.now.stmt) (S.post self.now.stmt)
            (T.pre self.now.type_decl) (T.post self.now.type_decl) }
        ensures { Gives (spec.local exprs (inside self.now.depth) self.now.depth self.now.within reader.old) result reader.new }
    {
        let is_final = reader.eat(Mark::Final)?;
        let of = type_use(self.alloc, reader)?;
        let variables = self.variables(reader)?;
        Ok(LocalVariables {
            is_final,
            of,
            variables,
        })
    }
}
