//! Explicit constructor invocations (JLS 8.8.5.1).

ghost use Rattle.std.specs.Prelude.{◌≡◌};
ghost use Rattle.java_unit_reading.specs.Gives.{Gives};
ghost use Rattle.java_parse_stmt.specs.Knot.{ParsesNested, inside};
ghost use Rattle.java_parse_unit.specs.Callees.{callee_of};
ghost use Rattle.java_unit_reading.specs.Reading.Expressions.{exprs};
ghost use Rattle.java_unit_reading.specs.Reading.Members as spec;

use crate::members::Members;
use java_expr_reading::Shape;
use java_tree::{Callee, Explicit, Mark, Primary, Stmt, TypePlace};
use java_unit_reading::{Reader, UnitFault};
use std::alloc::Global;

/// What an explicit constructor invocation calls, where two tokens show it.
#[tactic(auto, using(crate::proofs::Invoking::not_called, crate::proofs::Invoking::this_called, crate::proofs::Invoking::super_called, crate::proofs::Invoking::other_called))]
fn callee(reader: &Reader<'_>) -> Option<Callee>
    ensures { result ≡ callee_of (spec.opening reader.now.tokens) }
{
    if !reader.second_is(Mark::LeftParen) {
        return None;
    }
    let word = reader.span();
    match reader.shape() {
        Shape::This => Some(Callee::This(word)),
        Shape::Super => Some(Callee::Super(None, word)),
        _ => None,
    }
}

impl<
    S: Fn(Global, &mut Reader<'_>, Option<u64>, usize) -> Result<Stmt, UnitFault>,
    T: Fn(Global, &mut Reader<'_>, usize, TypePlace, Option<u64>, usize) -> Result<u32, UnitFault>,
> Members<S, T> {
    /// The arguments of an explicit constructor invocation, and its `;`.
    #[tactic(auto, unfolding(java_unit_reading::specs::Reading::Members::explicit_rest))]
    fn explicit_rest(
        &self,
        reader: &mut Reader<'_>,
        callee: Callee,
    ) -> Result<Option<Explicit>, UnitFault>
        requires { ParsesNested self.now.nested.depth self.now.nested.within (S.pre self.now.nested.stmt) (S.post self.now.nested.stmt)
            (T.pre self.now.nested.type_decl) (T.post self.now.nested.type_decl) }
        ensures { Gives (spec.explicit_rest exprs (inside self.now.nested.depth) self.now.nested.depth self.now.nested.within
            callee reader.old) result reader.new }
    {
        let arguments = self.nested.arguments(reader)?;
        reader.expect(Mark::Semicolon)?;
        Ok(Some(Explicit { callee, arguments }))
    }

    /// `.super` and the rest, after a primary expression.
    #[tactic(auto, unfolding(java_unit_reading::specs::Reading::Members::super_rest))]
    fn super_rest(
        &self,
        reader: &mut Reader<'_>,
        primary: Primary,
    ) -> Result<Option<Explicit>, UnitFault>
        requires { ParsesNested self.now.nested.depth self.now.nested.within (S.pre self.now.nested.stmt) (S.post self.now.nested.stmt)
            (T.pre self.now.nested.type_decl) (T.post self.now.nested.type_decl) }
        ensures { Gives (spec.super_rest exprs (inside self.now.nested.depth) self.now.nested.depth self.now.nested.within
            primary reader.old) result reader.new }
    {
        reader.expect(Mark::Dot)?;
        let word = reader.super_word()?;
        self.explicit_rest(reader, Callee::Super(Some(primary), word))
    }

    /// An explicit constructor invocation that begins with a primary expression, if one stands there.
    fn qualified(&self, reader: &mut Reader<'_>) -> Result<Option<Explicit>, UnitFault>
        requires { ParsesNested self.now.nested.depth self.now.nested.within (S.pre self.now.nested.stmt) (S.post self.now.nested.stmt)
            (T.pre self.now.nested.type_decl) (T.post self.now.nested.type_decl) }
        ensures { Gives (spec.explicit_by exprs (inside self.now.nested.depth) self.now.nested.depth self.now.nested.within
            spec.other reader.old) result reader.new }
    {
        match self.nested.qualifier(reader)? {
            Some(primary) => self.super_rest(reader, primary),
            None => Ok(None),
        }
    }

    /// An explicit constructor invocation, if one stands there.
    #[tactic(auto, using(crate::proofs::Invoking::called, crate::proofs::Invoking::uncalled), unfolding(java_unit_reading::specs::Reading::Members::explicit))]
    pub(super) fn explicit(&self, reader: &mut Reader<'_>) -> Result<Option<Explicit>, UnitFault>
        requires { ParsesNested self.now.nested.depth self.now.nested.within (S.pre self.now.nested.stmt) (S.post self.now.nested.stmt)
            (T.pre self.now.nested.type_decl) (T.post self.now.nested.type_decl) }
        ensures { Gives (spec.explicit exprs (inside self.now.nested.depth) self.now.nested.depth self.now.nested.within
            reader.old) result reader.new }
    {
        match callee(reader) {
            Some(callee) => {
                reader.take();
                self.explicit_rest(reader, callee)
            }
            None => self.qualified(reader),
        }
    }
}
