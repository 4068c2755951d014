//! The parsers of what holds statements and types take the parsers of those as function values, so that each is
//! proved by itself.

ghost use Rattle.java_unit_reading.specs.Gives.{Gives};
ghost use Rattle.java_parse_stmt.specs.Knot.{ParsesNested, inside};

use java_tree::{Stmt, TypePlace};
use java_unit_reading::{Reader, UnitFault};
use std::alloc::Global;

/// Parsers of what is nested, with so much of the depth left inside, in the type with a number.
#[derive(Clone, Copy)]
pub struct Grammar<S, T> {
    pub alloc: Global,
    pub depth: usize,
    pub within: Option<u64>,
    pub stmt: S,
    pub type_decl: T,
}

impl<
    S: Fn(Global, &mut Reader<'_>, Option<u64>, usize) -> Result<Stmt, UnitFault>,
    T: Fn(Global, &mut Reader<'_>, usize, TypePlace, Option<u64>, usize) -> Result<u32, UnitFault>,
> Grammar<S, T> {
    /// A nested statement (JLS 14.5).
    pub fn stmt(&self, reader: &mut Reader<'_>) -> Result<Stmt, UnitFault>
        requires { ParsesNested self.now.depth self.now.within (S.pre self.now.stmt) (S.post self.now.stmt)
            (T.pre self.now.type_decl) (T.post self.now.type_decl) }
        ensures { Gives ((inside self.now.depth).stmt self.now.within reader.old) result reader.new }
    {
        (self.stmt)(self.alloc, reader, self.within, self.depth)
    }

    /// A type in a place with so much of the depth left (JLS 8, 9), by the offset of its `{`.
    pub fn type_decl(
        &self,
        reader: &mut Reader<'_>,
        left: usize,
        place: TypePlace,
    ) -> Result<u32, UnitFault>
        requires { ParsesNested self.now.depth self.now.within (S.pre self.now.stmt) (S.post self.now.stmt)
            (T.pre self.now.type_decl) (T.post self.now.type_decl) }
        ensures { Gives ((inside self.now.depth).type left place self.now.within reader.old) result reader.new }
    {
        (self.type_decl)(self.alloc, reader, left, place, self.within, self.depth)
    }
}
