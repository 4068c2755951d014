/// An assignment operator (JLS 15.26).
#[derive(Clone, Copy, Debug, PartialEq, Eq)]
pub enum AssignOp {
    Assign,
    Multiply,
    Divide,
    Remainder,
    Add,
    Subtract,
    LeftShift,
    RightShift,
    UnsignedRightShift,
    And,
    Xor,
    Or,
}

/// A binary operator (JLS 15.17 to 15.24), loosest first. `instanceof` is none, since a type follows it.
#[derive(Clone, Copy, Debug, PartialEq, Eq)]
pub enum BinaryOp {
    ConditionalOr,
    ConditionalAnd,
    Or,
    Xor,
    And,
    Equal,
    NotEqual,
    Less,
    Greater,
    LessEqual,
    GreaterEqual,
    LeftShift,
    RightShift,
    UnsignedRightShift,
    Add,
    Subtract,
    Multiply,
    Divide,
    Remainder,
}

/// A unary operator before its operand (JLS 15.15).
#[derive(Clone, Copy, Debug, PartialEq, Eq)]
pub enum PrefixOp {
    Increment,
    Decrement,
    Plus,
    Minus,
    Complement,
    Not,
}

/// A unary operator behind its operand (JLS 15.14).
#[derive(Clone, Copy, Debug, PartialEq, Eq)]
pub enum PostfixOp {
    Increment,
    Decrement,
}
