ghost use Rattle.std.specs.Prelude.{◌≡◌, ◌<◌, ◌≤◌, ◌^◌, ◌+◌, zero, suc, map, length, drop, slice_get, Some, IfOk};
ghost use Rattle.java_model.specs.Grammar.Signs.{sign, signs};
ghost use Rattle.java_model.specs.Grammar.Runs.{after_body};
ghost use Rattle.java_expr_reading.specs.Shapes.{shape_of, shape_by};
ghost use Rattle.java_expr_reading.specs.Input.{first_of, ident_in, literal_in, this_in, super_in, offset_in};

use crate::ends::ends_of;
use crate::shape::Shape;
use crate::signs::{ident_of, literal_of, shape_of};
use java_tree::{Ident, Literal, Span, Token};
use std::alloc::{AllocError, Global};
use std::marker::Model;

/// The tokens of a text, with the shape of each, and with the place where a body that begins behind it ends,
/// so that neither spellings nor braces are looked at twice.
#[derive(Drop)]
pub struct Marked<'a> {
    tokens: &'a [Token],
    shapes: Vec<Shape>,
    ends: Vec<usize>,
}

impl<'a> Model for Marked<'a> {
    ghost use Rattle.std.specs.Prelude.{List};
    ghost use Rattle.java_model.specs.Grammar.Signs.{Sign, signs};
    ghost use Rattle.java_expr_reading.specs.Marking.{IsMarked};

    ghost Value = { List Sign };

    ghost view = { λ m. signs m.tokens.now };

    ghost invariant = { λ m. IsMarked (signs m.tokens.now) m.shapes.items m.ends.items };
}

/// The shape of each token.
fn shapes_of(alloc: Global, tokens: &[Token]) -> Result<Vec<Shape>, AllocError>
    ensures { IfOk result (λ shapes. shapes.items ≡ map shape_of (signs tokens.now)) }
{
    let mut shapes = Vec::with_capacity(alloc, tokens.len())?;
    for token in tokens {
        shapes.push(shape_of(token))?;
    }
    Ok(shapes)
}

impl<'a> Marked<'a> {
    /// Marks these tokens, in one pass over them.
    pub fn of(alloc: Global, tokens: &'a [Token]) -> Result<Marked<'a>, AllocError>
        requires { length tokens.now < 2 ^ 32 }
        ensures { IfOk result (λ marked. marked ≡ signs tokens.now) }
    {
        let shapes = shapes_of(alloc, tokens)?;
        let ends = ends_of(alloc, shapes.as_slice())?;
        Ok(Marked {
            tokens,
            shapes,
            ends,
        })
    }

    /// The number of tokens.
    pub fn len(&self) -> usize
        ensures value { result ≡ length self.now }
        ensures few { result < 2 ^ 32 }
    {
        self.tokens.len()
    }

    /// The shape of the token at a place.
    pub fn shape(&self, at: usize) -> Shape
        ensures { result ≡ shape_by (first_of (drop at self.now)) }
    {
        if at < self.shapes.len() {
            self.shapes[at]
        } else {
            Shape::End
        }
    }

    /// The identifier at a place, if one stands there.
    pub fn ident(&self, alloc: Global, at: usize) -> Result<Option<Ident>, AllocError>
        ensures { IfOk result (λ o. o ≡ ident_in (first_of (drop at self.now))) }
    {
        if at < self.tokens.len() {
            ident_of(alloc, &self.tokens[at])
        } else {
            Ok(None)
        }
    }

    /// The literal at a place, if one stands there.
    pub fn literal(&self, alloc: Global, at: usize) -> Result<Option<Literal>, AllocError>
        ensures { IfOk result (λ o. o ≡ literal_in (first_of (drop at self.now))) }
    {
        if at < self.tokens.len() {
            literal_of(alloc, &self.tokens[at])
        } else {
            Ok(None)
        }
    }

    /// The span of the token at a place.
    pub fn span(&self, at: usize) -> Span
        ensures this { shape_by (first_of (drop at self.now)) ≡ Shape.This → this_in (first_of (drop at self.now)) ≡ Some result }
        ensures super_word { shape_by (first_of (drop at self.now)) ≡ Shape.Super → super_in (first_of (drop at self.now)) ≡ Some result }
        ensures brace { shape_by (first_of (drop at self.now)) ≡ Shape.LeftBrace → offset_in (first_of (drop at self.now)) ≡ Some result.start }
    {
        if at < self.tokens.len() {
            self.tokens[at].span
        } else {
            Span { start: 0, end: 0 }
        }
    }

    /// The place after the `}` that closes a body which begins before a place.
    pub fn end_of_body(&self, at: usize) -> usize
        requires { at ≤ length self.now }
        ensures after { drop result self.now ≡ after_body (drop at self.now) zero }
        ensures later { at ≤ result }
        ensures within { result ≤ length self.now }
    {
        self.ends[at]
    }
}
