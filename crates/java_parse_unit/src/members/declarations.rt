//! What a body declares (JLS 8.1.5, 9.1.3).

ghost use Rattle.std.specs.Prelude.{◌≡◌, ℕ, Option, Some};
ghost use Rattle.java_tree.specs.declared.unit.ResultType.TheVariants as results;
ghost use Rattle.java_unit_reading.specs.Gives.{Gives};
ghost use Rattle.java_parse_stmt.specs.Knot.{ParsesNested, inside};
ghost use Rattle.java_unit_reading.specs.Reading.Steps.{list};
ghost use Rattle.java_unit_reading.specs.Reading.Expressions.{exprs};
ghost use Rattle.java_unit_reading.specs.Reading.Members as spec;

use crate::members::Members;
use crate::members::heads::is_interface;
use java_tree::{
    Fields, Items, Mark, Member, Modifier, ResultType, Stmt, TypeHead, TypePlace, TypeUse,
};
use java_unit_reading::words::{modifiers, skip_modifiers, type_use};
use java_unit_reading::{Look, Reader, UnitFault};
use std::alloc::Global;

/// Whether modifiers and `class` or `interface` come next.
fn begins_type(mut look: Look<'_>) -> bool
    ensures { result ≡ spec.begins_type look.entry }
{
    skip_modifiers(&mut look);
    look.sees(Mark::Class) || look.sees(Mark::Interface)
}

/// Whether an identifier and `(` come next.
fn begins_parameters(look: &Look<'_>) -> bool
    ensures { result ≡ spec.begins_parameters look.now }
{
    look.is_word() && look.next().sees(Mark::LeftParen)
}

/// Whether `{`, or `static` and `{` come next (JLS 8.6, 8.7).
fn begins_initializer(look: &Look<'_>) -> bool
    ensures { result ≡ spec.begins_initializer look.now }
{
    look.sees_brace() || (look.sees(Mark::Static) && look.next().sees_brace())
}

impl<
    S: Fn(Global, &mut Reader<'_>, Option<u64>, usize) -> Result<Stmt, UnitFault>,
    T: Fn(Global, &mut Reader<'_>, usize, TypePlace, Option<u64>, usize) -> Result<u32, UnitFault>,
> Members<S, T> {
    /// Fields, after their modifiers and their type (JLS 8.3, 9.3).
    #[tactic(auto, unfolding(java_unit_reading::specs::Reading::Members::field))]
    fn field(
        &self,
        reader: &mut Reader<'_>,
        modifiers: Items<Modifier>,
        of: TypeUse,
    ) -> Result<Member, UnitFault>
        requires { ParsesNested self.now.nested.depth self.now.nested.within (S.pre self.now.nested.stmt) (S.post self.now.nested.stmt)
            (T.pre self.now.nested.type_decl) (T.post self.now.nested.type_decl) }
        ensures { Gives (spec.field exprs (inside self.now.nested.depth) self.now.nested.depth self.now.nested.within
            modifiers (results.Of of) reader.old) result reader.new }
    {
        let variables = self.nested.variables(reader)?;
        reader.expect(Mark::Semicolon)?;
        Ok(Member::Field(Fields {
            modifiers,
            of,
            variables,
        }))
    }

    /// A method or fields, after their modifiers.
    #[tactic(auto, unfolding(java_unit_reading::specs::Reading::Members::typed))]
    fn typed(
        &self,
        reader: &mut Reader<'_>,
        head: &TypeHead,
        modifiers: Items<Modifier>,
    ) -> Result<Member, UnitFault>
        requires { ParsesNested self.now.nested.depth self.now.nested.within (S.pre self.now.nested.stmt) (S.post self.now.nested.stmt)
            (T.pre self.now.nested.type_decl) (T.post self.now.nested.type_decl) }
        ensures { Gives (spec.typed exprs (inside self.now.nested.depth) self.now.nested.depth self.now.nested.within
            head.now modifiers reader.old) result reader.new }
    {
        let of = type_use(self.nested.alloc, reader)?;
        if begins_parameters(&reader.look()) {
            self.method(reader, head, modifiers, ResultType::Of(of))
        } else {
            self.field(reader, modifiers, of)
        }
    }

    /// A method, a constructor or fields, after their modifiers.
    #[tactic(auto, unfolding(java_unit_reading::specs::Reading::Members::declared))]
    fn declared(
        &self,
        reader: &mut Reader<'_>,
        head: &TypeHead,
        modifiers: Items<Modifier>,
    ) -> Result<Member, UnitFault>
        requires { ParsesNested self.now.nested.depth self.now.nested.within (S.pre self.now.nested.stmt) (S.post self.now.nested.stmt)
            (T.pre self.now.nested.type_decl) (T.post self.now.nested.type_decl) }
        ensures { Gives (spec.declared exprs (inside self.now.nested.depth) self.now.nested.depth self.now.nested.within
            head.now modifiers reader.old) result reader.new }
    {
        if reader.sees(Mark::Void) {
            self.void_method(reader, head, modifiers)
        } else if begins_parameters(&reader.look()) {
            self.constructor(reader, head, modifiers)
        } else {
            self.typed(reader, head, modifiers)
        }
    }

    /// A static or an instance initializer (JLS 8.6, 8.7).
    #[tactic(auto, unfolding(java_unit_reading::specs::Reading::Members::initializer_block))]
    fn initializer_block(
        &self,
        reader: &mut Reader<'_>,
        head: &TypeHead,
    ) -> Result<Member, UnitFault>
        requires { ParsesNested self.now.nested.depth self.now.nested.within (S.pre self.now.nested.stmt) (S.post self.now.nested.stmt)
            (T.pre self.now.nested.type_decl) (T.post self.now.nested.type_decl) }
        ensures { Gives (spec.initializer_block exprs (inside self.now.nested.depth) self.now.nested.depth self.now.nested.within
            head.now reader.old) result reader.new }
    {
        let is_static = reader.eat(Mark::Static)?;
        let block = self.nested.block(reader)?;
        if is_interface(head) {
            Err(UnitFault::NoTree)
        } else {
            Ok(Member::Initializer(is_static, block))
        }
    }

    /// A member type (JLS 8.5, 9.5).
    #[tactic(auto, unfolding(java_unit_reading::specs::Reading::Members::member_type))]
    fn member_type(&self, reader: &mut Reader<'_>) -> Result<Member, UnitFault>
        requires { ParsesNested self.now.nested.depth self.now.nested.within (S.pre self.now.nested.stmt) (S.post self.now.nested.stmt)
            (T.pre self.now.nested.type_decl) (T.post self.now.nested.type_decl) }
        ensures { Gives (spec.member_type exprs (inside self.now.nested.depth) self.now.nested.depth self.now.nested.within
            reader.old) result reader.new }
    {
        let brace = self
            .nested
            .type_decl(reader, self.nested.depth, TypePlace::Member)?;
        Ok(Member::Type(brace))
    }

    /// A member of a type with this head.
    #[tactic(auto, unfolding(java_unit_reading::specs::Reading::Members::member))]
    fn member(&self, reader: &mut Reader<'_>, head: &TypeHead) -> Result<Member, UnitFault>
        requires { ParsesNested self.now.nested.depth self.now.nested.within (S.pre self.now.nested.stmt) (S.post self.now.nested.stmt)
            (T.pre self.now.nested.type_decl) (T.post self.now.nested.type_decl) }
        ensures { Gives (spec.member exprs (inside self.now.nested.depth) self.now.nested.depth self.now.nested.within
            head.now reader.old) result reader.new }
    {
        if reader.sees(Mark::Semicolon) {
            reader.expect(Mark::Semicolon)?;
            Ok(Member::Empty)
        } else if begins_initializer(&reader.look()) {
            self.initializer_block(reader, head)
        } else if begins_type(reader.look()) {
            self.member_type(reader)
        } else {
            let modifiers = modifiers(self.nested.alloc, reader)?;
            self.declared(reader, head, modifiers)
        }
    }

    /// A member, unless the body ends.
    #[tactic(auto, unfolding(java_unit_reading::specs::Reading::Members::any_member))]
    fn any_member(
        &self,
        reader: &mut Reader<'_>,
        head: &TypeHead,
    ) -> Result<Option<Member>, UnitFault>
        requires { ParsesNested self.now.nested.depth self.now.nested.within (S.pre self.now.nested.stmt) (S.post self.now.nested.stmt)
            (T.pre self.now.nested.type_decl) (T.post self.now.nested.type_decl) }
        ensures { Gives (spec.any_member exprs (inside self.now.nested.depth) self.now.nested.depth self.now.nested.within
            head.now reader.old) result reader.new }
    {
        if reader.sees(Mark::RightBrace) {
            Ok(None)
        } else {
            Ok(Some(self.member(reader, head)?))
        }
    }

    /// The members up to the end of a body.
    fn member_list(
        &self,
        reader: &mut Reader<'_>,
        head: &TypeHead,
    ) -> Result<Items<Member>, UnitFault>
        requires { ParsesNested self.now.nested.depth self.now.nested.within (S.pre self.now.nested.stmt) (S.post self.now.nested.stmt)
            (T.pre self.now.nested.type_decl) (T.post self.now.nested.type_decl) }
        ensures { Gives (list (spec.any_member exprs (inside self.now.nested.depth) self.now.nested.depth self.now.nested.within
            head.now) reader.old) result reader.new }
    {
        let mut found = Items::new(self.nested.alloc);
        for _turn in 0..reader.turns() {
            match self.any_member(reader, head)? {
                Some(item) => found.push(item)?,
                None => return Ok(found),
            }
        }
        Err(UnitFault::NoTree)
    }

    /// The members of a body, and its `}`.
    #[tactic(auto, unfolding(java_unit_reading::specs::Reading::Members::members_of))]
    pub(crate) fn members(
        &self,
        reader: &mut Reader<'_>,
        head: &TypeHead,
    ) -> Result<Items<Member>, UnitFault>
        requires { ParsesNested self.now.nested.depth self.now.nested.within (S.pre self.now.nested.stmt) (S.post self.now.nested.stmt)
            (T.pre self.now.nested.type_decl) (T.post self.now.nested.type_decl) }
        ensures { (number : ℕ) → self.now.nested.within ≡ Some number
            → Gives (spec.members_of exprs (inside self.now.nested.depth) self.now.nested.depth head.now number reader.old)
            result reader.new }
    {
        let found = self.member_list(reader, head)?;
        reader.expect(Mark::RightBrace)?;
        Ok(found)
    }
}
