use crate::expr::{Expr, Primary};
use crate::names::{Ident, Modifier, Name, TypeUse};
use crate::stmt::{Block, BlockStatement, Parameter, Variable};
use crate::token::Span;
use sqlite_items::Items;

/// A compilation unit (JLS 7.3). Its types, those within others too, stand in one list, in the order of
/// the `{` of their bodies. Where a type is declared it is named by the offset of that `{`.
#[derive(Drop)]
pub struct Unit {
    pub package: Option<Name>,
    pub imports: Items<Import>,
    pub declarations: Items<TopLevel>,
    pub types: Items<TypeDecl>,
}

/// An import (JLS 7.5), and whether `.*` follows its name.
#[derive(Drop)]
pub struct Import {
    pub name: Name,
    pub star: bool,
}

/// A top-level type, by the offset of the `{` of its body, or a `;` (JLS 7.6).
#[derive(Drop)]
pub enum TopLevel {
    Type(u32),
    Empty,
}

/// A class or an interface.
#[derive(Drop)]
pub struct TypeDecl {
    /// The number of the innermost type around it in the list of the unit.
    pub parent: Option<u64>,
    pub place: TypePlace,
    pub head: TypeHead,
    /// The offset of the `{` of its body.
    pub brace: u32,
    pub members: Items<Member>,
}

/// Where a type is declared: in its unit (JLS 7.6), as a member (JLS 8.5, 9.5), in a block (JLS 14.3)
/// or in the creation of its one object (JLS 15.9.5).
#[derive(Clone, Copy, Debug, PartialEq, Eq)]
pub enum TypePlace {
    TopLevel,
    Member,
    Local,
    Anonymous,
}

/// What stands before the body of a type.
#[derive(Drop)]
pub enum TypeHead {
    /// JLS 8.1.
    Class(ClassHead),
    /// JLS 9.1.
    Interface(InterfaceHead),
    /// Nothing: the creation (JLS 15.9.5) has the class or interface.
    Anonymous,
}

/// The head of a class (JLS 8.1).
#[derive(Drop)]
pub struct ClassHead {
    pub modifiers: Items<Modifier>,
    pub name: Ident,
    pub extends: Option<Name>,
    pub implements: Items<Name>,
}

/// The head of an interface (JLS 9.1).
#[derive(Drop)]
pub struct InterfaceHead {
    pub modifiers: Items<Modifier>,
    pub name: Ident,
    pub extends: Items<Name>,
}

/// What a body declares (JLS 8.1.5, 9.1.3).
#[derive(Drop)]
pub enum Member {
    /// A `;`.
    Empty,
    /// A static or an instance initializer (JLS 8.6, 8.7).
    Initializer(bool, Block),
    /// A member type (JLS 8.5, 9.5), by the offset of the `{` of its body.
    Type(u32),
    Method(Method),
    Constructor(Constructor),
    Field(Fields),
}

/// The result of a method (JLS 8.4).
#[derive(Drop)]
pub enum ResultType {
    Void,
    Of(TypeUse),
}

/// A method (JLS 8.4, 9.4). The `[]` behind its parameters belong to its result.
#[derive(Drop)]
pub struct Method {
    pub modifiers: Items<Modifier>,
    pub result: ResultType,
    pub name: Ident,
    pub parameters: Items<Parameter>,
    pub dims: u32,
    pub throws: Items<Name>,
    /// A `;` stands where there is none.
    pub body: Option<Block>,
}

/// A constructor (JLS 8.8): the offset of the `{` of its body, the explicit constructor invocation that
/// the body may begin with, and what follows.
#[derive(Drop)]
pub struct Constructor {
    pub modifiers: Items<Modifier>,
    pub name: Ident,
    pub parameters: Items<Parameter>,
    pub throws: Items<Name>,
    pub brace: u32,
    pub explicit: Option<Explicit>,
    pub statements: Items<BlockStatement>,
}

/// An explicit constructor invocation (JLS 8.8.5.1).
#[derive(Drop)]
pub struct Explicit {
    pub callee: Callee,
    pub arguments: Items<Expr>,
}

/// What an explicit constructor invocation calls, and where the word `this` or `super` stands.
#[derive(Drop)]
pub enum Callee {
    This(Span),
    /// A primary expression and a dot may stand before `super`.
    Super(Option<Primary>, Span),
}

/// A declaration of fields (JLS 8.3, 9.3).
#[derive(Drop)]
pub struct Fields {
    pub modifiers: Items<Modifier>,
    pub of: TypeUse,
    pub variables: Items<Variable>,
}
