use crate::text::Text;
use crate::token::Span;
use sqlite_items::Items;

/// The source level: with the keyword `assert` from 1.4 on (JSR 41), or without it.
#[derive(Clone, Copy, Debug, PartialEq, Eq)]
pub enum Level {
    Java13,
    Java14,
}

/// What a declaration declares.
#[derive(Clone, Copy, Debug, PartialEq, Eq)]
pub enum TypeKind {
    Class,
    Interface,
    Anonymous,
}

/// What a document declares and imports (JLS 7, 8, 9).
#[derive(Debug, Drop)]
pub struct Outline {
    /// The identifiers of the package clause, none without one.
    pub package: Items<Text>,
    pub imports: Items<ImportName>,
    /// The types, in the order of the `{` of their bodies. A type's number is its place here.
    pub types: Items<OutlineType>,
}

/// An import (JLS 7.5): its name, and whether `.*` follows it.
#[derive(Debug, Drop)]
pub struct ImportName {
    pub name: Items<Text>,
    pub star: bool,
}

/// A type as it is spelled. A primitive type or `void` is its one name.
#[derive(Debug, Drop)]
pub struct SpelledType {
    pub name: Items<Text>,
    pub dims: u32,
}

/// A class or an interface.
#[derive(Debug, Drop)]
pub struct OutlineType {
    pub kind: TypeKind,
    /// Whether it is a class that is declared in a block (JLS 14.3).
    pub local: bool,
    /// Its simple name, empty for an anonymous class.
    pub name: Text,
    /// The span of its name; for an anonymous class, of the last identifier of the name in its creation.
    pub span: Span,
    /// A bit for each modifier, in alphabetical order from the lowest bit.
    pub modifiers: u16,
    /// The number of the innermost type around it.
    pub parent: Option<u64>,
    /// For a local or anonymous class, the numbers of the local classes in scope at its header,
    /// innermost first.
    pub locals: Items<u64>,
    pub extends: Items<Items<Text>>,
    pub implements: Items<Items<Text>>,
    pub fields: Items<OutlineField>,
    pub methods: Items<OutlineMethod>,
    pub constructors: Items<OutlineMethod>,
}

/// A field (JLS 8.3).
#[derive(Debug, Drop)]
pub struct OutlineField {
    pub name: Text,
    pub of: SpelledType,
    pub modifiers: u16,
    pub span: Span,
}

/// A method (JLS 8.4), or a constructor (JLS 8.8), whose result is `void`.
#[derive(Debug, Drop)]
pub struct OutlineMethod {
    pub name: Text,
    pub params: Items<SpelledType>,
    pub result: SpelledType,
    pub modifiers: u16,
    pub span: Span,
}
