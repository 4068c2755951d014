use crate::names::Primitive;
use crate::occurrence::{FieldId, MethodId, TypeId};
use crate::outline::TypeKind;
use crate::text::Text;
use crate::token::Span;
use sqlite_items::Items;

/// The type of a variable or an expression (JLS 4).
#[derive(Debug, Drop)]
pub enum JType {
    Primitive(Primitive),
    Void,
    /// The type of `null` (JLS 4.1).
    Null,
    Class(TypeId),
    /// A named type that no document declares, by the identifiers of its name.
    Absent(Items<Text>),
    /// An array (JLS 10.1) of one dimension or more.
    Array(ArrayElement, u32),
    /// The type of an expression that isn't known.
    Unknown,
}

/// The element type of an array (JLS 10.1), which is no array itself.
#[derive(Debug, Drop)]
pub enum ArrayElement {
    Primitive(Primitive),
    /// `void f()[]` is in the grammar.
    Void,
    Class(TypeId),
    Absent(Items<Text>),
}

/// A document by its container and its path.
#[derive(Debug, Drop)]
pub struct DocPath {
    pub container: Text,
    pub path: Text,
}

/// A declared type.
#[derive(Debug, Drop)]
pub struct TypeInfo {
    /// The document that declares it, none for a `java.lang.Object` or `java.lang.String` that no document declares.
    pub doc: Option<DocPath>,
    /// Its number in the outline of that document.
    pub number: u64,
    /// Its package, with dots, empty for the unnamed package (JLS 7.4.2).
    pub package: Text,
    /// The names of the types around it, outermost first, and its own, which is empty for an anonymous class.
    pub names: Items<Text>,
    pub kind: TypeKind,
    pub local: bool,
    /// A bit for each modifier, in alphabetical order from the lowest bit.
    pub modifiers: u16,
    /// The innermost type around it.
    pub parent: Option<TypeId>,
    /// The span of its name.
    pub span: Span,
}

/// A declared field.
#[derive(Debug, Drop)]
pub struct FieldInfo {
    pub name: Text,
    pub of: JType,
    pub modifiers: u16,
    pub span: Span,
}

/// A declared method, or a constructor, whose result is `void`. A default constructor (JLS 8.8.7) has the span of its
/// class's name.
#[derive(Debug, Drop)]
pub struct MethodInfo {
    pub name: Text,
    pub params: Items<JType>,
    pub result: JType,
    pub modifiers: u16,
    pub span: Span,
}

/// What an ambiguous name means (JLS 6.5.2).
#[derive(Debug, Drop)]
pub enum NameKind {
    /// A local variable or a parameter, with its type.
    Local(JType),
    Field(FieldId),
    Class(TypeId),
    Package,
    Nothing,
}

/// The answer to an overloaded call (JLS 15.12.2).
#[derive(Debug, Drop)]
pub enum Choice {
    One(MethodId),
    /// Several methods are maximally specific.
    Ambiguous(Items<MethodId>),
    /// No method is applicable.
    NoMethod,
    /// Several methods are applicable, and the type of an argument isn't known.
    UnknownArgs,
}
