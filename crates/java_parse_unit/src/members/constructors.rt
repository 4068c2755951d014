//! Constructors (JLS 8.8).

ghost use Rattle.std.specs.Prelude.{◌≡◌};
ghost use Rattle.java_unit_reading.specs.Gives.{Gives};
ghost use Rattle.java_parse_stmt.specs.Knot.{ParsesNested, inside};
ghost use Rattle.java_unit_reading.specs.Reading.Expressions.{exprs};
ghost use Rattle.java_unit_reading.specs.Reading.Members as spec;

use crate::members::Members;
use crate::members::heads::has_name;
use java_tree::{
    Constructor, Ident, Items, Mark, Member, Modifier, Name, Parameter, Stmt, TypeHead, TypePlace,
};
use java_unit_reading::words::clause;
use java_unit_reading::{Reader, UnitFault};
use std::alloc::Global;

impl<
    S: Fn(Global, &mut Reader<'_>, Option<u64>, usize) -> Result<Stmt, UnitFault>,
    T: Fn(Global, &mut Reader<'_>, usize, TypePlace, Option<u64>, usize) -> Result<u32, UnitFault>,
> Members<S, T> {
    /// The body of a constructor, after the rest of it (JLS 8.8.5).
    #[tactic(auto, unfolding(java_unit_reading::specs::Reading::Members::constructor_body))]
    fn constructor_body(
        &self,
        reader: &mut Reader<'_>,
        modifiers: Items<Modifier>,
        name: Ident,
        parameters: Items<Parameter>,
        throws: Items<Name>,
    ) -> Result<Member, UnitFault>
        requires { ParsesNested self.now.nested.depth self.now.nested.within (S.pre self.now.nested.stmt) (S.post self.now.nested.stmt)
            (T.pre self.now.nested.type_decl) (T.post self.now.nested.type_decl) }
        ensures { Gives (spec.constructor_body exprs (inside self.now.nested.depth) self.now.nested.depth self.now.nested.within
            modifiers name parameters throws reader.old) result reader.new }
    {
        let brace = reader.brace()?;
        let explicit = self.explicit(reader)?;
        let statements = self.nested.block_statements(reader)?;
        reader.expect(Mark::RightBrace)?;
        Ok(Member::Constructor(Constructor {
            modifiers,
            name,
            parameters,
            throws,
            brace,
            explicit,
            statements,
        }))
    }

    /// A constructor, after its modifiers.
    #[tactic(auto, unfolding(java_unit_reading::specs::Reading::Members::constructor))]
    pub(super) fn constructor(
        &self,
        reader: &mut Reader<'_>,
        head: &TypeHead,
        modifiers: Items<Modifier>,
    ) -> Result<Member, UnitFault>
        requires { ParsesNested self.now.nested.depth self.now.nested.within (S.pre self.now.nested.stmt) (S.post self.now.nested.stmt)
            (T.pre self.now.nested.type_decl) (T.post self.now.nested.type_decl) }
        ensures { Gives (spec.constructor exprs (inside self.now.nested.depth) self.now.nested.depth self.now.nested.within
            head.now modifiers reader.old) result reader.new }
    {
        let name = reader.identifier(self.nested.alloc)?;
        if !has_name(head, &name) {
            return Err(UnitFault::NoTree);
        }
        let parameters = self.parameters(reader)?;
        let throws = clause(self.nested.alloc, reader, Mark::Throws)?;
        self.constructor_body(reader, modifiers, name, parameters, throws)
    }
}
