//! Methods (JLS 8.4, 9.4).

ghost use Rattle.std.specs.Prelude.{◌≡◌, ◌&&◌, ℕ, Option};
ghost use Rattle.java_tree.specs.declared.mark.Mark.TheVariants as marks;
ghost use Rattle.java_unit_reading.specs.Gives.{Gives};
ghost use Rattle.java_parse_stmt.specs.Knot.{ParsesNested, inside};
ghost use Rattle.java_unit_reading.specs.Reading.Steps.{list_from};
ghost use Rattle.java_unit_reading.specs.Reading.Nested.{Exprs, Parts};
ghost use Rattle.java_unit_reading.specs.Reading.Expressions.{exprs};
ghost use Rattle.java_unit_reading.specs.Reading.Members as spec;

use crate::members::Members;
use crate::members::heads::is_interface;
use java_expr_reading::names::only;
use java_parse_stmt::parameter;
use java_tree::{
    Block, Items, Mark, Member, Method, Modifier, Parameter, ResultType, Stmt, TypeHead, TypePlace,
};
use java_unit_reading::words::{clause, dims};
use java_unit_reading::{Reader, UnitFault};
use std::alloc::Global;

/// A comma and a parameter, if a comma comes next.
#[tactic(auto, unfolding(java_unit_reading::specs::Reading::Members::comma_parameter))]
fn comma_parameter(alloc: Global, reader: &mut Reader<'_>) -> Result<Option<Parameter>, UnitFault>
    ensures { (E : Exprs) (P : Parts) (d : ℕ) (w : Option ℕ) → Gives (spec.comma_parameter E P d w reader.old) result reader.new }
{
    if reader.sees(Mark::Comma) {
        reader.expect(Mark::Comma)?;
        Ok(Some(parameter(alloc, reader)?))
    } else {
        Ok(None)
    }
}

impl<
    S: Fn(Global, &mut Reader<'_>, Option<u64>, usize) -> Result<Stmt, UnitFault>,
    T: Fn(Global, &mut Reader<'_>, usize, TypePlace, Option<u64>, usize) -> Result<u32, UnitFault>,
> Members<S, T> {
    /// The parameters that follow, each after a comma, after those that were found.
    fn comma_parameters(
        &self,
        reader: &mut Reader<'_>,
        mut found: Items<Parameter>,
    ) -> Result<Items<Parameter>, UnitFault>
        ensures { Gives (list_from
            (spec.comma_parameter exprs (inside self.now.nested.depth) self.now.nested.depth self.now.nested.within)
            found reader.old) result reader.new }
    {
        for _turn in 0..reader.turns() {
            match comma_parameter(self.nested.alloc, reader)? {
                Some(item) => found.push(item)?,
                None => return Ok(found),
            }
        }
        Err(UnitFault::NoTree)
    }

    /// Parameters, separated by commas, up to a `)`.
    #[tactic(auto, unfolding(java_unit_reading::specs::Reading::Members::any_parameters))]
    fn any_parameters(&self, reader: &mut Reader<'_>) -> Result<Items<Parameter>, UnitFault>
        ensures { Gives (spec.any_parameters exprs (inside self.now.nested.depth) self.now.nested.depth self.now.nested.within
            reader.old) result reader.new }
    {
        if reader.sees(Mark::RightParen) {
            Ok(Items::new(self.nested.alloc))
        } else {
            let first = parameter(self.nested.alloc, reader)?;
            let found = only(self.nested.alloc, first)?;
            self.comma_parameters(reader, found)
        }
    }

    /// The parameters of a method or a constructor in parentheses (JLS 8.4.1).
    #[tactic(auto, unfolding(java_unit_reading::specs::Reading::Members::parameters))]
    pub(super) fn parameters(&self, reader: &mut Reader<'_>) -> Result<Items<Parameter>, UnitFault>
        ensures { Gives (spec.parameters exprs (inside self.now.nested.depth) self.now.nested.depth self.now.nested.within
            reader.old) result reader.new }
    {
        reader.expect(Mark::LeftParen)?;
        let found = self.any_parameters(reader)?;
        reader.expect(Mark::RightParen)?;
        Ok(found)
    }

    /// The body of a method, or its `;` (JLS 8.4.5, 9.4).
    #[tactic(auto, unfolding(java_unit_reading::specs::Reading::Members::method_body))]
    fn method_body(
        &self,
        reader: &mut Reader<'_>,
        head: &TypeHead,
    ) -> Result<Option<Block>, UnitFault>
        requires { ParsesNested self.now.nested.depth self.now.nested.within (S.pre self.now.nested.stmt) (S.post self.now.nested.stmt)
            (T.pre self.now.nested.type_decl) (T.post self.now.nested.type_decl) }
        ensures { Gives (spec.method_body exprs (inside self.now.nested.depth) self.now.nested.depth self.now.nested.within
            head.now reader.old) result reader.new }
    {
        if is_interface(head) || reader.sees(Mark::Semicolon) {
            reader.expect(Mark::Semicolon)?;
            Ok(None)
        } else {
            Ok(Some(self.nested.block(reader)?))
        }
    }

    /// A method, after its modifiers and its result.
    #[tactic(auto, unfolding(java_unit_reading::specs::Reading::Members::method))]
    pub(super) fn method(
        &self,
        reader: &mut Reader<'_>,
        head: &TypeHead,
        modifiers: Items<Modifier>,
        result_type: ResultType,
    ) -> Result<Member, UnitFault>
        requires { ParsesNested self.now.nested.depth self.now.nested.within (S.pre self.now.nested.stmt) (S.post self.now.nested.stmt)
            (T.pre self.now.nested.type_decl) (T.post self.now.nested.type_decl) }
        ensures { Gives (spec.method exprs (inside self.now.nested.depth) self.now.nested.depth self.now.nested.within
            head.now modifiers result_type reader.old) result reader.new }
    {
        let name = reader.identifier(self.nested.alloc)?;
        let parameters = self.parameters(reader)?;
        let dims = dims(reader)?;
        let throws = clause(self.nested.alloc, reader, Mark::Throws)?;
        let body = self.method_body(reader, head)?;
        Ok(Member::Method(Method {
            modifiers,
            result: result_type,
            name,
            parameters,
            dims,
            throws,
            body,
        }))
    }

    /// A method with no result, after its modifiers.
    #[tactic(auto, unfolding(java_unit_reading::specs::Reading::Members::void_method))]
    pub(super) fn void_method(
        &self,
        reader: &mut Reader<'_>,
        head: &TypeHead,
        modifiers: Items<Modifier>,
    ) -> Result<Member, UnitFault>
        requires { ParsesNested self.now.nested.depth self.now.nested.within (S.pre self.now.nested.stmt) (S.post self.now.nested.stmt)
            (T.pre self.now.nested.type_decl) (T.post self.now.nested.type_decl) }
        ensures { Gives (spec.void_method exprs (inside self.now.nested.depth) self.now.nested.depth self.now.nested.within
            head.now modifiers reader.old) result reader.new }
    {
        reader.expect(Mark::Void)?;
        self.method(reader, head, modifiers, ResultType::Void)
    }
}
