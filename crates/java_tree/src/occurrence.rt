use crate::text::Text;
use crate::token::Span;

/// A type, by its place in the environment.
#[derive(Clone, Copy, Debug, PartialEq, Eq)]
pub struct TypeId(pub u64);

/// A field, by its type and its place there.
#[derive(Clone, Copy, Debug, PartialEq, Eq)]
pub struct FieldId {
    pub of: TypeId,
    pub place: u64,
}

/// A method or constructor, by its type and its place there.
#[derive(Clone, Copy, Debug, PartialEq, Eq)]
pub struct MethodId {
    pub of: TypeId,
    pub place: u64,
}

/// What stands at a place of a document that a search may find.
#[derive(Clone, Copy, Debug, PartialEq, Eq)]
pub enum OccKind {
    PackageDecl,
    PackageRef,
    TypeDecl,
    TypeRef,
    Super,
    MethodDecl,
    MethodRef,
    CtorDecl,
    CtorRef,
    FieldDecl,
    FieldRef,
    NameRef,
}

/// What an occurrence is bound to.
#[derive(Debug, Drop)]
pub enum Binding {
    Package(Text),
    Class(TypeId),
    Field(FieldId),
    Method(MethodId),
    Nothing,
}

/// Whether an occurrence is bound (JDT `SearchMatch.A_ACCURATE`, `A_INACCURATE`).
#[derive(Clone, Copy, Debug, PartialEq, Eq)]
pub enum Accuracy {
    Accurate,
    Inaccurate,
}

/// How a variable is used at its occurrence.
#[derive(Clone, Copy, Debug, PartialEq, Eq)]
pub enum Access {
    NoAccess,
    Read,
    Write,
    Update,
}

/// A place of a document at which something is declared or referred to.
#[derive(Debug, Drop)]
pub struct Occurrence {
    pub kind: OccKind,
    pub span: Span,
    /// The simple name that is spelled there; for a package its dotted name.
    pub name: Text,
    /// The number of arguments of a call or creation, else 0.
    pub count: u64,
    pub binding: Binding,
    pub accuracy: Accuracy,
    pub access: Access,
}

/// A match of a search (JDT `SearchMatch`).
#[derive(Debug, Drop)]
pub struct Match {
    pub container: Text,
    pub path: Text,
    pub span: Span,
    pub kind: OccKind,
    pub accuracy: Accuracy,
    pub access: Access,
}
