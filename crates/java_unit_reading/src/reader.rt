//! What a parser of units reads from.

ghost use Rattle.std.specs.Prelude.{◌≡◌, ◌≤◌, [], length, drop, suc, slice_set, Some};
ghost use Rattle.java_expr_reading.specs.Shapes.{shape_by};
ghost use Rattle.java_expr_reading.specs.Input.{first_of, this_in, super_in, offset_in};
ghost use Rattle.java_expr_reading.specs.declared.shape.Shape.TheVariants.{This, Super, LeftBrace};
ghost use Rattle.java_unit_reading.specs.Gives.{Gives};
ghost use Rattle.java_unit_reading.specs.Reading.Steps as spec;
ghost use Rattle.java_unit_reading.specs.Reading.Steps.{state};
ghost use Rattle.java_unit_reading.specs.Reading.Members.{super_word, unfinished, begun};

use crate::fault::UnitFault;
use crate::look::Look;
use java_expr_reading::{Marked, Shape};
use java_tree::{Ident, Items, Mark, Span, TypeDecl, TypeHead, TypePlace};
use std::alloc::Global;
use std::marker::Model;

/// A place in marked tokens, with the types that begin before it.
#[derive(Drop)]
pub struct Reader<'a> {
    marked: &'a Marked<'a>,
    at: usize,
    types: Items<TypeDecl>,
}

impl<'a> Model for Reader<'a> {
    ghost use Rattle.std.specs.Prelude.{drop, length, ◌≤◌, ◌<◌, ◌^◌};
    ghost use Rattle.std.specs.Coded.{codes};
    ghost use Rattle.java_tree.specs.contracts.unit.TypeDecl as type_decls;
    ghost use Rattle.java_unit_reading.specs.Reading.Steps.{State, state};

    ghost Value = { State };

    ghost coded = { Prim.hlevel (codes, type_decls.the_row.coded) };

    ghost view = { λ r. state r.types (drop r.at r.marked.now) };

    ghost invariant = { λ r. (r.at ≤ length r.marked.now) × (length r.marked.now < 2 ^ 32) };
}

impl<'a> Reader<'a> {
    /// At a place, with these types before it.
    pub fn at(marked: &'a Marked<'a>, at: usize, types: Items<TypeDecl>) -> Reader<'a>
        ensures { result ≡ state types (drop at marked.now) }
    {
        let len = marked.len();
        Reader {
            marked,
            at: at.min(len),
            types,
        }
    }

    /// The types that begin before the place.
    pub fn into_types(self) -> Items<TypeDecl>
        ensures { result ≡ self.entry.types }
    {
        self.types
    }

    /// The marked tokens, and the place in them.
    pub fn place(&self) -> (&'a Marked<'a>, usize)
        ensures tokens { drop result.1 result.0.now ≡ self.now.tokens }
        ensures within { result.1 ≤ length result.0.now }
    {
        (self.marked, self.at)
    }

    /// Takes the types that begin before the place, and leaves none.
    pub fn take_types(&mut self, alloc: Global) -> Items<TypeDecl>
        ensures types { result ≡ self.old.types }
        ensures rest { self.new ≡ state [] self.old.tokens }
    {
        std::mem::replace(&mut self.types, Items::new(alloc))
    }

    pub fn look(&self) -> Look<'a>
        ensures { result ≡ self.now.tokens }
    {
        Look::new(self.marked, self.at)
    }

    /// One more than the tokens that are left.
    pub fn turns(&self) -> usize
        ensures { result ≡ suc (length self.now.tokens) }
    {
        self.look().len() + 1
    }

    pub fn sees(&self, mark: Mark) -> bool
        ensures { result ≡ spec.sees mark self.now.tokens }
    {
        self.look().sees(mark)
    }

    /// Whether the second token is this mark.
    pub fn second_is(&self, mark: Mark) -> bool
        ensures { result ≡ spec.sees mark (spec.tail self.now.tokens) }
    {
        self.look().next().sees(mark)
    }

    pub fn shape(&self) -> Shape
        ensures { result ≡ shape_by (first_of self.now.tokens) }
    {
        self.marked.shape(self.at)
    }

    /// The span of the next token.
    pub fn span(&self) -> Span
        ensures this { shape_by (first_of self.now.tokens) ≡ This → this_in (first_of self.now.tokens) ≡ Some result }
        ensures super_word { shape_by (first_of self.now.tokens) ≡ Super → super_in (first_of self.now.tokens) ≡ Some result }
        ensures brace { shape_by (first_of self.now.tokens) ≡ LeftBrace → offset_in (first_of self.now.tokens) ≡ Some result.start }
    {
        self.marked.span(self.at)
    }

    /// Takes a token, if one is left.
    #[tactic(auto, using(crate::proofs::ReaderLaws::drop_more))]
    pub fn take(&mut self)
        ensures { self.new ≡ spec.next self.old }
    {
        if self.at < self.marked.len() {
            self.at += 1;
        }
    }

    #[tactic(auto, unfolding(crate::specs::Reading::Steps::expect))]
    pub fn expect(&mut self, mark: Mark) -> Result<(), UnitFault>
        ensures { Gives (spec.expect mark self.old) result self.new }
    {
        if self.sees(mark) {
            self.take();
            Ok(())
        } else {
            Err(UnitFault::NoTree)
        }
    }

    /// Takes a mark, where it stands.
    #[tactic(auto, unfolding(crate::specs::Reading::Steps::eat))]
    pub fn eat(&mut self, mark: Mark) -> Result<bool, UnitFault>
        ensures { Gives (spec.eat mark self.old) result self.new }
    {
        if self.sees(mark) {
            self.take();
            Ok(true)
        } else {
            Ok(false)
        }
    }

    #[tactic(auto, using(crate::proofs::ReaderLaws::ident_found, crate::proofs::ReaderLaws::no_ident))]
    pub fn identifier(&mut self, alloc: Global) -> Result<Ident, UnitFault>
        ensures { Gives (spec.identifier self.old) result self.new }
    {
        match self.marked.ident(alloc, self.at)? {
            Some(ident) => {
                self.take();
                Ok(ident)
            }
            None => Err(UnitFault::NoTree),
        }
    }

    #[tactic(auto, using(crate::proofs::ReaderLaws::brace_found, crate::proofs::ReaderLaws::no_brace))]
    pub fn brace(&mut self) -> Result<u32, UnitFault>
        ensures { Gives (spec.brace self.old) result self.new }
    {
        match self.shape() {
            Shape::LeftBrace => {
                let span = self.marked.span(self.at);
                self.take();
                Ok(span.start)
            }
            _ => Err(UnitFault::NoTree),
        }
    }

    #[tactic(auto, using(crate::proofs::ReaderLaws::super_found, crate::proofs::ReaderLaws::no_super))]
    pub fn super_word(&mut self) -> Result<Span, UnitFault>
        ensures { Gives (super_word self.old) result self.new }
    {
        match self.shape() {
            Shape::Super => {
                let span = self.marked.span(self.at);
                self.take();
                Ok(span)
            }
            _ => Err(UnitFault::NoTree),
        }
    }

    /// Begins a type, and answers its number.
    pub fn begin_type(&mut self, alloc: Global) -> Result<u64, UnitFault>
        ensures { Gives (begun self.old) result self.new }
    {
        let number = self.types.len() as u64;
        self.types.push(unfinished(alloc))?;
        Ok(number)
    }

    /// Puts a type in its place.
    pub fn finish_type(&mut self, number: u64, of: TypeDecl)
        ensures { self.new ≡ state (slice_set self.old.types number of) self.old.tokens }
    {
        let at = number as usize;
        if at < self.types.len() {
            self.types.set(at, of);
        }
    }
}

/// What stands in the list of types for one that isn't read to its end.
#[tactic(auto, unfolding(crate::specs::Reading::Members::unfinished))]
fn unfinished(alloc: Global) -> TypeDecl
    ensures { result ≡ unfinished }
{
    TypeDecl {
        parent: None,
        place: TypePlace::TopLevel,
        head: TypeHead::Anonymous,
        brace: 0,
        members: Items::new(alloc),
    }
}
