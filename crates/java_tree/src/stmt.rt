use crate::expr::{Expr, Initializer};
use crate::names::{Ident, TypeUse};
use sqlite_items::{Boxed, Items};

/// A variable in a declaration (JLS 8.3, 14.4): its name, the number of `[]` behind it, and its
/// initializer.
#[derive(Drop)]
pub struct Variable {
    pub name: Ident,
    pub dims: u32,
    pub initializer: Option<Initializer>,
}

/// A declaration of local variables (JLS 14.4), without its `;`.
#[derive(Drop)]
pub struct LocalVariables {
    pub is_final: bool,
    pub of: TypeUse,
    pub variables: Items<Variable>,
}

/// A formal parameter (JLS 8.4.1), or the parameter of a `catch` (JLS 14.19).
#[derive(Drop)]
pub struct Parameter {
    pub is_final: bool,
    pub of: TypeUse,
    pub name: Ident,
    pub dims: u32,
}

/// What a `for` begins with (JLS 14.13).
#[derive(Drop)]
pub enum ForInit {
    Local(LocalVariables),
    Expressions(Items<Expr>),
}

/// The label of a group of statements in a `switch` (JLS 14.10).
#[derive(Drop)]
pub enum SwitchLabel {
    Case(Boxed<Expr>),
    Default,
}

/// A statement (JLS 14.5).
#[cycle(stmt)]
#[derive(Drop)]
pub enum Stmt {
    Block(Block),
    /// JLS 14.6.
    Empty,
    /// JLS 14.7.
    Labeled(Ident, Boxed<Stmt>),
    /// An expression and `;` (JLS 14.8).
    Expression(Boxed<Expr>),
    /// The conditions with their statements, parted by `else`, and the statement behind a last `else`,
    /// which is no `if` itself (JLS 14.9).
    If(Items<IfArm>, Option<Boxed<Stmt>>),
    /// JLS 14.11.
    While(Boxed<Expr>, Boxed<Stmt>),
    /// JLS 14.12.
    Do(Boxed<Stmt>, Boxed<Expr>),
    /// JLS 14.13.
    For(ForInit, Option<Boxed<Expr>>, Items<Expr>, Boxed<Stmt>),
    /// The expression, the offset of the `{`, and the groups (JLS 14.10).
    Switch(Boxed<Expr>, u32, Items<SwitchGroup>),
    /// JLS 14.14.
    Break(Option<Ident>),
    /// JLS 14.15.
    Continue(Option<Ident>),
    /// JLS 14.16.
    Return(Option<Boxed<Expr>>),
    /// JLS 14.17.
    Throw(Boxed<Expr>),
    /// JLS 14.18.
    Synchronized(Boxed<Expr>, Block),
    /// The block, each `catch`, and the block behind `finally` (JLS 14.19).
    Try(Block, Items<Catch>, Option<Block>),
    /// JSR 41.
    Assert(Boxed<Expr>, Option<Boxed<Expr>>),
}

/// A condition of an `if`, and the statement behind it.
#[cycle(stmt)]
#[derive(Drop)]
pub struct IfArm {
    pub condition: Boxed<Expr>,
    pub then: Stmt,
}

/// A group of statements in a `switch`. A label that another one follows has none.
#[cycle(stmt)]
#[derive(Drop)]
pub struct SwitchGroup {
    pub label: SwitchLabel,
    pub statements: Items<BlockStatement>,
}

/// JLS 14.19.
#[cycle(stmt)]
#[derive(Drop)]
pub struct Catch {
    pub parameter: Parameter,
    pub block: Block,
}

/// A block (JLS 14.2): the offset of its `{`, and its statements.
#[cycle(stmt)]
#[derive(Drop)]
pub struct Block {
    pub brace: u32,
    pub statements: Items<BlockStatement>,
}

/// What stands in a block (JLS 14.2).
#[cycle(stmt)]
#[derive(Drop)]
pub enum BlockStatement {
    /// A local class (JLS 14.3), by the offset of the `{` of its body.
    LocalClass(u32),
    Local(LocalVariables),
    Statement(Stmt),
}
