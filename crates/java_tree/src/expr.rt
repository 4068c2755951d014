use crate::names::{ElementType, Ident, Literal, Name, TypeUse};
use crate::operators::{AssignOp, BinaryOp, PostfixOp, PrefixOp};
use crate::token::Span;
use sqlite_items::{Boxed, Items};

/// An expression (JLS 15). A type that it declares, the body of an anonymous class, stands in the list
/// of its `Unit`, and is named here by the offset of its `{`.
#[cycle(expr)]
#[derive(Drop)]
pub enum Expr {
    /// A target, an assignment operator and a value (JLS 15.26).
    Assign(Primary, AssignOp, Boxed<Expr>),
    /// `a ? b : c` (JLS 15.25).
    Conditional(Boxed<Expr>, Boxed<Expr>, Boxed<Expr>),
    /// A chain of binary operators of one level (JLS 15.17 to 15.24): the first operand, and each
    /// operator with what follows it.
    Binary(Boxed<Expr>, Items<Operation>),
    /// A unary operator and its operand (JLS 15.15).
    Prefix(PrefixOp, Boxed<Expr>),
    /// A type in parentheses and its operand (JLS 15.16).
    Cast(TypeUse, Boxed<Expr>),
    /// A primary expression and the operators behind it, if any (JLS 15.14).
    Postfix(Primary, Items<PostfixOp>),
}

/// An operator in a chain, and what stands to its right.
#[cycle(expr)]
#[derive(Drop)]
pub enum Operation {
    /// A binary operator and its right operand.
    Infix(BinaryOp, Expr),
    /// `instanceof` and a type (JLS 15.20.2).
    InstanceOf(TypeUse),
}

/// A primary expression (JLS 15.8): what it begins with, and the chain of selectors behind that.
#[cycle(expr)]
#[derive(Drop)]
pub struct Primary {
    pub first: First,
    pub selectors: Items<Selector>,
}

/// What a primary expression begins with.
#[cycle(expr)]
#[derive(Drop)]
pub enum First {
    /// JLS 15.8.1.
    Literal(Literal),
    /// `this`, and where the word stands (JLS 15.8.3).
    This(Span),
    /// A name (JLS 15.14), as many identifiers as there are.
    Name(Name),
    /// JLS 15.8.5.
    Parenthesized(Boxed<Expr>),
    /// A type and `.class` (JLS 15.8.2).
    ClassLiteral(TypeUse),
    /// `void.class` (JLS 15.8.2).
    VoidClass,
    /// `Name.this`, and where the word stands (JLS 15.8.4).
    QualifiedThis(Name, Span),
    /// `super.field`, or `Name.super.field`, and where `super` stands (JLS 15.11.2).
    SuperField(Option<Name>, Span, Ident),
    /// A name and arguments (JLS 15.12).
    Call(Name, Items<Expr>),
    /// `super.method(..)`, or `Name.super.method(..)`, and where `super` stands (JLS 15.12).
    SuperCall(Option<Name>, Span, Ident, Items<Expr>),
    /// `new` and a class (JLS 15.9).
    New(Creation),
    /// `new`, an element type, the sizes in brackets, and the number of `[]` behind them (JLS 15.10).
    NewArray(ElementType, Items<Expr>, u32),
    /// `new`, an element type, the number of `[]` behind it, and an initializer (JLS 15.10).
    NewArrayOf(ElementType, u32, ArrayInitializer),
}

/// What may follow a primary expression.
#[cycle(expr)]
#[derive(Drop)]
pub enum Selector {
    /// `.field` (JLS 15.11.1).
    Field(Ident),
    /// `.method(..)` (JLS 15.12).
    MemberCall(Ident, Items<Expr>),
    /// `[index]` (JLS 15.13).
    Index(Boxed<Expr>),
    /// `.new Inner(..)` (JLS 15.9).
    QualifiedNew(Creation),
}

/// A class creation behind `new` (JLS 15.9): the class, the arguments, and for an anonymous class the
/// offset of the `{` of its body.
#[cycle(expr)]
#[derive(Drop)]
pub struct Creation {
    pub class: Name,
    pub arguments: Items<Expr>,
    pub body: Option<u32>,
}

/// The initializer of a variable, or of an element of an array (JLS 8.3, 10.6).
#[cycle(expr)]
#[derive(Drop)]
pub enum Initializer {
    Value(Expr),
    Array(ArrayInitializer),
}

/// `{ .. }` around the elements of an array (JLS 10.6): the offset of its `{`, the elements, and
/// whether a comma stands before its `}` that parts nothing.
#[cycle(expr)]
#[derive(Drop)]
pub struct ArrayInitializer {
    pub brace: u32,
    pub elements: Items<Initializer>,
    pub comma: bool,
}
