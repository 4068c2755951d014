ghost use Rattle.std.specs.Prelude.{◌≡◌, ◌≢◌, ◌<◌, ◌≤◌, ◌^◌, ◌+◌, length, suc, IfOk, IfSome};
ghost use Rattle.java_expr_reading.specs.Input.{Gives};
ghost use Rattle.java_expr_reading.specs.Input as spec;
ghost use Rattle.java_expr_reading.specs.Answers.{input_at};
ghost use Rattle.java_expr_reading.specs.declared.shape.Shape.TheVariants as shapes;

use crate::fault::ExprFault;
use crate::marked::Marked;
use crate::parsed::PendingBody;
use crate::shape::Shape;
use java_tree::{Ident, Items, Literal, Mark, Span};
use std::alloc::Global;
use std::marker::Model;

/// A place in marked tokens, with the bodies that were passed so far.
#[derive(Drop)]
pub struct Cursor<'a> {
    marked: &'a Marked<'a>,
    at: usize,
    bodies: Items<PendingBody>,
}

impl<'a> Model for Cursor<'a> {
    ghost use Rattle.std.specs.Prelude.{drop, length, ◌≤◌, ◌<◌, ◌^◌};
    ghost use Rattle.java_expr_reading.specs.Input.{Input};

    ghost Value = { Input };

    ghost view = { λ c. record { rest = drop c.at c.marked.now; at = c.at; bodies = c.bodies } };

    ghost invariant = { λ c. (c.at ≤ length c.marked.now) × (length c.marked.now < 2 ^ 32) };
}

impl<'a> Cursor<'a> {
    /// A cursor at a place, with no body so far.
    pub fn new(alloc: Global, marked: &'a Marked<'a>, at: usize) -> Cursor<'a>
        requires { at ≤ length marked.now }
        ensures { result ≡ input_at marked.now at }
    {
        let _few = marked.len();
        Cursor {
            marked,
            at,
            bodies: Items::new(alloc),
        }
    }

    /// The same place, to look ahead from.
    #[tactic(auto, unfolding(crate::specs::Input::looking))]
    pub fn look(&self, alloc: Global) -> Cursor<'a>
        ensures { result ≡ spec.looking self.now }
    {
        Cursor {
            marked: self.marked,
            at: self.at,
            bodies: Items::new(alloc),
        }
    }

    /// The place and the bodies.
    pub fn into_parts(self) -> (usize, Items<PendingBody>)
        ensures { (result.0 ≡ self.entry.at) × (result.1 ≡ self.entry.bodies) }
    {
        (self.at, self.bodies)
    }

    /// One more than the tokens that are left.
    #[tactic(auto, unfolding(crate::specs::Input::left))]
    pub fn turns(&self) -> usize
        ensures { result ≡ suc (spec.left self.now) }
    {
        self.marked.len() - self.at + 1
    }

    /// The shape of the next token.
    #[tactic(auto, unfolding(crate::specs::Input::sign))]
    pub fn shape(&self) -> Shape
        ensures { result ≡ spec.shape self.now }
    {
        self.marked.shape(self.at)
    }

    /// The shape of the second token.
    pub fn second(&self) -> Shape
        ensures { result ≡ spec.shape (spec.next self.now) }
    {
        self.marked.shape(self.at + 1)
    }

    /// The shape of the third token.
    pub fn third(&self) -> Shape
        ensures { result ≡ spec.shape (spec.next (spec.next self.now)) }
    {
        self.marked.shape(self.at + 2)
    }

    /// Whether a mark comes next.
    #[tactic(auto, unfolding(crate::specs::Input::sees))]
    pub fn sees(&self, mark: Mark) -> bool
        ensures { result ≡ spec.sees mark self.now }
    {
        self.shape().is_mark(mark)
    }

    /// Whether the second token is a mark.
    #[tactic(auto, unfolding(crate::specs::Input::sees))]
    pub fn second_is(&self, mark: Mark) -> bool
        ensures { result ≡ spec.sees mark (spec.next self.now) }
    {
        self.second().is_mark(mark)
    }

    /// Whether the third token is a mark.
    #[tactic(auto, unfolding(crate::specs::Input::sees))]
    pub fn third_is(&self, mark: Mark) -> bool
        ensures { result ≡ spec.sees mark (spec.next (spec.next self.now)) }
    {
        self.third().is_mark(mark)
    }

    /// Takes a token.
    pub fn take(&mut self)
        requires { spec.shape self.old ≢ shapes.End }
        ensures { self.new ≡ spec.next self.old }
    {
        self.at += 1;
    }

    /// Takes a mark, which has to come next.
    #[tactic(auto, unfolding(crate::specs::Input::expect, crate::specs::Input::sees))]
    pub fn expect(&mut self, mark: Mark) -> Result<(), ExprFault>
        ensures { Gives (spec.expect mark self.old) result self.new }
    {
        if self.sees(mark) {
            self.take();
            Ok(())
        } else {
            Err(ExprFault::NoExpr)
        }
    }

    /// Takes an identifier (JLS 3.8).
    #[tactic(auto, unfolding(crate::specs::Input::ident, crate::specs::Input::sign))]
    pub fn ident(&mut self, alloc: Global) -> Result<Ident, ExprFault>
        ensures { Gives (spec.ident self.old) result self.new }
    {
        match self.marked.ident(alloc, self.at)? {
            Some(ident) => {
                self.take();
                Ok(ident)
            }
            None => Err(ExprFault::NoExpr),
        }
    }

    /// Takes a literal (JLS 3.10).
    #[tactic(auto, unfolding(crate::specs::Input::a_literal, crate::specs::Input::sign))]
    pub fn literal(&mut self, alloc: Global) -> Result<Literal, ExprFault>
        ensures { Gives (spec.a_literal self.old) result self.new }
    {
        match self.marked.literal(alloc, self.at)? {
            Some(literal) => {
                self.take();
                Ok(literal)
            }
            None => Err(ExprFault::NoExpr),
        }
    }

    /// Takes `this`, and answers its span.
    #[tactic(auto, unfolding(crate::specs::Input::a_this, crate::specs::Input::sign))]
    pub fn this(&mut self) -> Result<Span, ExprFault>
        ensures { Gives (spec.a_this self.old) result self.new }
    {
        match self.shape() {
            Shape::This => {
                let span = self.marked.span(self.at);
                self.take();
                Ok(span)
            }
            _ => Err(ExprFault::NoExpr),
        }
    }

    /// Takes `super`, and answers its span.
    #[tactic(auto, unfolding(crate::specs::Input::a_super, crate::specs::Input::sign))]
    pub fn super_word(&mut self) -> Result<Span, ExprFault>
        ensures { Gives (spec.a_super self.old) result self.new }
    {
        match self.shape() {
            Shape::Super => {
                let span = self.marked.span(self.at);
                self.take();
                Ok(span)
            }
            _ => Err(ExprFault::NoExpr),
        }
    }

    /// Takes `{`, and answers its offset.
    #[tactic(auto, unfolding(crate::specs::Input::brace, crate::specs::Input::sign))]
    pub fn brace(&mut self) -> Result<u32, ExprFault>
        ensures { Gives (spec.brace self.old) result self.new }
    {
        match self.shape() {
            Shape::LeftBrace => {
                let span = self.marked.span(self.at);
                self.take();
                Ok(span.start)
            }
            _ => Err(ExprFault::NoExpr),
        }
    }

    /// Passes the body that begins with the next token, with so much of the depth left around it.
    #[tactic(auto, unfolding(crate::specs::Input::body, crate::specs::Input::past_body, crate::specs::Input::sign))]
    pub fn body(&mut self, depth_left: usize) -> Result<u32, ExprFault>
        ensures { Gives (spec.body depth_left self.old) result self.new }
    {
        match self.shape() {
            Shape::LeftBrace => {
                let span = self.marked.span(self.at);
                let end = self.marked.end_of_body(self.at + 1);
                self.bodies.push(PendingBody {
                    first: self.at,
                    last: end - 1,
                    depth: 256usize.saturating_sub(depth_left),
                })?;
                self.at = end;
                Ok(span.start)
            }
            _ => Err(ExprFault::NoExpr),
        }
    }
}
