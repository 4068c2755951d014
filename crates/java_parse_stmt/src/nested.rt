//! Expressions in statements and members, with the anonymous classes in them.

ghost use Rattle.std.specs.Prelude.{◌≡◌, ◌∷◌, [], map};
ghost use Rattle.java_unit_reading.specs.Gives.{Gives};
ghost use Rattle.java_parse_stmt.specs.Knot.{ParsesNested, inside};
ghost use Rattle.java_unit_reading.specs.Bodies.{body_from, HasTypes, qualifier};
ghost use Rattle.java_unit_reading.specs.Reading.Nested as spec;
ghost use Rattle.java_unit_reading.specs.Reading.Expressions.{exprs};

use crate::grammar::Grammar;
use java_expr_reading::{
    ExprFault, Goal, Marked, ParsedArray, ParsedExpr, ParsedPrimary, PendingBody,
};
use java_parse_expr::{read_array, read_expr, read_primary};
use java_tree::{ArrayInitializer, Expr, Items, MAX_DEPTH, Primary, Stmt, TypeDecl, TypePlace};
use java_unit_reading::{Reader, UnitFault};
use std::alloc::Global;

fn expr_of(found: ParsedExpr) -> Expr
    ensures { result ≡ found.expr }
{
    found.expr
}

fn array_of(found: ParsedArray) -> ArrayInitializer
    ensures { result ≡ found.array }
{
    found.array
}

fn primary_of(found: ParsedPrimary) -> Primary
    ensures { result ≡ found.primary }
{
    found.primary
}

impl<
    S: Fn(Global, &mut Reader<'_>, Option<u64>, usize) -> Result<Stmt, UnitFault>,
    T: Fn(Global, &mut Reader<'_>, usize, TypePlace, Option<u64>, usize) -> Result<u32, UnitFault>,
> Grammar<S, T> {
    /// Reads the body of an anonymous class that was passed over.
    #[tactic(auto, unfolding(java_unit_reading::specs::Reading::Nested::bodies))]
    fn read_body(
        &self,
        marked: &Marked<'_>,
        body: &PendingBody,
        types: Items<TypeDecl>,
    ) -> Result<Items<TypeDecl>, UnitFault>
        requires { ParsesNested self.now.depth self.now.within (S.pre self.now.stmt) (S.post self.now.stmt)
            (T.pre self.now.type_decl) (T.post self.now.type_decl) }
        ensures { HasTypes (spec.bodies exprs (inside self.now.depth) self.now.depth self.now.within
            (body_from marked.now body.now ∷ []) types) result }
    {
        let mut reader = Reader::at(marked, body.first, types);
        self.type_decl(
            &mut reader,
            MAX_DEPTH.saturating_sub(body.depth),
            TypePlace::Anonymous,
        )?;
        Ok(reader.into_types())
    }

    /// Reads the bodies of anonymous classes that were passed over, from left to right.
    fn read_bodies(
        &self,
        marked: &Marked<'_>,
        bodies: &[PendingBody],
        types: Items<TypeDecl>,
    ) -> Result<Items<TypeDecl>, UnitFault>
        requires { ParsesNested self.now.depth self.now.within (S.pre self.now.stmt) (S.post self.now.stmt)
            (T.pre self.now.type_decl) (T.post self.now.type_decl) }
        ensures { HasTypes (spec.bodies exprs (inside self.now.depth) self.now.depth self.now.within
            (map (body_from marked.now) bodies.now) types) result }
    {
        let mut found = types;
        for body in bodies {
            found = self.read_body(marked, body, found)?;
        }
        Ok(found)
    }

    /// An expression (JLS 15.27).
    pub(crate) fn expr(&self, reader: &mut Reader<'_>) -> Result<Expr, UnitFault>
        requires { ParsesNested self.now.depth self.now.within (S.pre self.now.stmt) (S.post self.now.stmt)
            (T.pre self.now.type_decl) (T.post self.now.type_decl) }
        ensures { Gives (spec.expr exprs (inside self.now.depth) self.now.depth self.now.within reader.old) result reader.new }
    {
        let (marked, at) = reader.place();
        let found = read_expr(self.alloc, marked, at, MAX_DEPTH - self.depth, Goal::Any)?;
        let types = reader.take_types(self.alloc);
        let types = self.read_bodies(marked, found.bodies.as_slice(), types)?;
        *reader = Reader::at(marked, found.next, types);
        Ok(expr_of(found))
    }

    /// An array initializer (JLS 10.6).
    pub(crate) fn array(&self, reader: &mut Reader<'_>) -> Result<ArrayInitializer, UnitFault>
        requires { ParsesNested self.now.depth self.now.within (S.pre self.now.stmt) (S.post self.now.stmt)
            (T.pre self.now.type_decl) (T.post self.now.type_decl) }
        ensures { Gives (spec.array exprs (inside self.now.depth) self.now.depth self.now.within reader.old) result reader.new }
    {
        let (marked, at) = reader.place();
        let found = read_array(self.alloc, marked, at, MAX_DEPTH - self.depth)?;
        let types = reader.take_types(self.alloc);
        let types = self.read_bodies(marked, found.bodies.as_slice(), types)?;
        *reader = Reader::at(marked, found.next, types);
        Ok(array_of(found))
    }

    /// The primary expression before `.super(`, where one stands (JLS 8.8.5.1).
    pub fn qualifier(&self, reader: &mut Reader<'_>) -> Result<Option<Primary>, UnitFault>
        requires { ParsesNested self.now.depth self.now.within (S.pre self.now.stmt) (S.post self.now.stmt)
            (T.pre self.now.type_decl) (T.post self.now.type_decl) }
        ensures { Gives (qualifier exprs (inside self.now.depth) self.now.depth self.now.within reader.old) result reader.new }
    {
        let (marked, at) = reader.place();
        let found = match read_primary(self.alloc, marked, at, MAX_DEPTH - self.depth) {
            Ok(found) => found,
            Err(ExprFault::NoExpr) => return Ok(None),
            Err(ExprFault::NoMemory) => return Err(UnitFault::NoMemory),
        };
        let types = reader.take_types(self.alloc);
        let types = self.read_bodies(marked, found.bodies.as_slice(), types)?;
        *reader = Reader::at(marked, found.next, types);
        Ok(Some(primary_of(found)))
    }
}
