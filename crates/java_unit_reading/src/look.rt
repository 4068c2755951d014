//! A look ahead, which takes no token.

ghost use Rattle.std.specs.Prelude.{◌≡◌, length, drop};
ghost use Rattle.java_expr_reading.specs.Shapes.{shape_by};
ghost use Rattle.java_expr_reading.specs.Input.{first_of};
ghost use Rattle.java_unit_reading.specs.Reading.Steps.{sees, sees_brace, tail};
ghost use Rattle.java_unit_reading.specs.Reading.Words.{is_word};
ghost use Rattle.java_unit_reading.specs.Reading.Members.{sees_super};

use java_expr_reading::{Marked, Shape};
use java_tree::Mark;
use std::marker::Model;

/// A place in marked tokens.
#[derive(Drop)]
pub struct Look<'a> {
    marked: &'a Marked<'a>,
    at: usize,
}

impl<'a> Model for Look<'a> {
    ghost use Rattle.std.specs.Prelude.{List, drop, length, ◌≤◌, ◌<◌, ◌^◌};
    ghost use Rattle.java_model.specs.Grammar.Signs.{Sign};

    ghost Value = { List Sign };

    ghost view = { λ l. drop l.at l.marked.now };

    ghost invariant = { λ l. (l.at ≤ length l.marked.now) × (length l.marked.now < 2 ^ 32) };
}

impl<'a> Look<'a> {
    pub(crate) fn new(marked: &'a Marked<'a>, at: usize) -> Look<'a>
        ensures { result ≡ drop at marked.now }
    {
        let len = marked.len();
        Look {
            marked,
            at: at.min(len),
        }
    }

    /// The number of tokens that are left.
    pub fn len(&self) -> usize
        ensures { result ≡ length self.now }
    {
        self.marked.len() - self.at
    }

    pub fn shape(&self) -> Shape
        ensures { result ≡ shape_by (first_of self.now) }
    {
        self.marked.shape(self.at)
    }

    #[tactic(auto, using(crate::proofs::ReaderLaws::seen))]
    pub fn sees(&self, mark: Mark) -> bool
        ensures { result ≡ sees mark self.now }
    {
        self.shape().is_mark(mark)
    }

    pub fn is_word(&self) -> bool
        ensures { result ≡ is_word self.now }
    {
        self.shape().is_word()
    }

    pub fn sees_brace(&self) -> bool
        ensures { result ≡ sees_brace self.now }
    {
        self.shape().is_left_brace()
    }

    pub fn sees_super(&self) -> bool
        ensures { result ≡ sees_super self.now }
    {
        self.shape().is_super()
    }

    /// After the next token.
    #[tactic(auto, using(crate::proofs::ReaderLaws::drop_more))]
    pub fn pass(&mut self)
        ensures { self.new ≡ tail self.old }
    {
        if self.at < self.marked.len() {
            self.at += 1;
        }
    }

    /// The same place after the next token.
    pub fn next(&self) -> Look<'a>
        ensures { result ≡ tail self.now }
    {
        let mut next = Look {
            marked: self.marked,
            at: self.at,
        };
        next.pass();
        next
    }
}
