//! The outline of a document in an environment.

ghost use Rattle.std.specs.Prelude.{◌≡◌};

use java_tree::Outline;
use std::marker::Model;

/// The outline of a document, and the number that its first type has in the environment.
#[derive(Debug, Drop)]
pub struct PlacedOutline<'a> {
    pub(crate) outline: &'a Outline,
    pub(crate) first: u64,
}

impl<'a> Model for PlacedOutline<'a> {
    ghost use Rattle.java_types.specs.Placed.{Placed};

    ghost Value = { Placed };

    ghost view = { λ p. record { outline = p.outline.now; first = p.first } };
}

impl<'a> PlacedOutline<'a> {
    /// The outline.
    pub fn outline(&self) -> &'a Outline
        ensures { result.now ≡ self.now.outline }
    {
        self.outline
    }

    /// The number of its first type in the environment.
    pub fn first(&self) -> u64
        ensures { result ≡ self.now.first }
    {
        self.first
    }
}
