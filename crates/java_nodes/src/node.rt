use crate::root::Root;
use java_tree::{
    Access, ArrayInitializer, Block, Catch, Creation, ElementType, Explicit, Expr, First, IfArm,
    Import, LocalVariables, Member, Name, Parameter, Primary, Selector, Stmt, SwitchGroup, TypeUse,
    Variable,
};

/// A node of a unit's tree.
#[derive(Clone, Copy)]
pub enum Node<'a> {
    /// A CompilationUnit (JLS 7.3).
    Unit(Root<'a>),
    /// The name of a PackageDeclaration (JLS 7.4).
    PackageClause(&'a Name),
    /// An ImportDeclaration (JLS 7.5).
    Imported(&'a Import),
    /// A ClassDeclaration or an InterfaceDeclaration, by the offset of its `{` (JLS 8.1, 9.1).
    Declaration(u32),
    /// A name after `extends` or `implements`, with the number of the type.
    Supertype(u64, &'a Name),
    /// A ClassBody or an InterfaceBody, by the offset of its `{`.
    Body(u32),
    /// A member, with the number of its type (JLS 8.1.5, 9.1.3).
    Member(u64, &'a Member),
    /// A variable of a declaration of fields, with the number of its type (JLS 8.3).
    Field(u64, &'a Variable),
    /// A local variable, with the type of its declaration (JLS 14.4).
    Variable(&'a TypeUse, &'a Variable),
    /// A FormalParameter, or that of a CatchClause (JLS 8.4.1, 14.19).
    Parameter(&'a Parameter),
    /// A type: its element type and the number of `[]` after it.
    TypeUse(&'a ElementType, u64),
    /// A name where a type alone can stand (JLS 6.5.5).
    TypeName(&'a Name),
    /// An ExplicitConstructorInvocation, with the number of the type (JLS 8.8.5.1).
    Explicit(u64, &'a Explicit),
    /// A block (JLS 14.2).
    Block(&'a Block),
    /// A statement (JLS 14.5).
    Statement(&'a Stmt),
    /// A declaration of local variables (JLS 14.4).
    Locals(&'a LocalVariables),
    /// A condition of an `if` with its statement (JLS 14.9).
    Arm(&'a IfArm),
    /// A SwitchBlockStatementGroup (JLS 14.10).
    Group(&'a SwitchGroup),
    /// A CatchClause (JLS 14.19).
    CatchClause(&'a Catch),
    /// An expression, with the access of what it spells last (JLS 15).
    Expression(Access, &'a Expr),
    /// A primary expression with its selectors, with its access (JLS 15.8).
    Primary(Access, &'a Primary),
    /// What a primary expression begins with, with its access.
    First(Access, &'a First),
    /// What follows a primary expression (JLS 15.11 to 15.13).
    Selector(&'a Selector),
    /// A class instance creation (JLS 15.9).
    Creation(&'a Creation),
    /// An ArrayInitializer (JLS 10.6).
    Array(&'a ArrayInitializer),
}
