//! A type as its document declares it.

ghost use Rattle.std.specs.Prelude.{◌≡◌};

use java_tree::{DocPath, Outline, OutlineType};
use std::marker::Model;

/// A type that a document declares.
#[derive(Debug, Drop)]
pub struct DeclaredType<'a> {
    pub(crate) path: &'a DocPath,
    pub(crate) outline: &'a Outline,
    pub(crate) of: &'a OutlineType,
    pub(crate) first: u64,
    pub(crate) number: u64,
}

impl<'a> Model for DeclaredType<'a> {
    ghost use Rattle.std.specs.Prelude.{Some};
    ghost use Rattle.java_model.specs.Names.Environments.{Declared};

    ghost Value = { Declared };

    ghost view = { λ d. record { doc = Some d.path.now; outline = d.outline.now; first = d.first; number = d.number; type = d.of.now } };
}

impl<'a> DeclaredType<'a> {
    /// The outline of the document.
    pub fn outline(&self) -> &'a Outline
        ensures { result.now ≡ self.now.outline }
    {
        self.outline
    }

    /// What the outline says of the type.
    pub fn of(&self) -> &'a OutlineType
        ensures { result.now ≡ self.now.type }
    {
        self.of
    }

    /// The number of the outline's first type in the environment.
    pub fn first(&self) -> u64
        ensures { result ≡ self.now.first }
    {
        self.first
    }

    /// The number of the type in the outline.
    pub fn number(&self) -> u64
        ensures { result ≡ self.now.number }
    {
        self.number
    }
}
