ghost use Rattle.std.specs.Prelude.{◌≡◌, ℕ, false};
ghost use Rattle.java_model.specs.Grammar.Forms.{level};
ghost use Rattle.java_model.specs.Grammar.Readings.{assign_of, binary_of, prefix_of, postfix_of, primitive_of};
ghost use Rattle.java_expr_reading.specs.Shapes.{same_mark, is_mark, is_word, is_left_brace, is_super};
ghost use Rattle.java_expr_reading.specs.Reading.Operators.{
  assign_by,
  prefix_by,
  postfix_by,
  at_level,
  operator_at,
  operator_by,
  is_operator_at,
  is_operator,
  begins_operand_at,
  begins_operand,
  ends_by,
};
ghost use Rattle.java_model.specs.Grammar.Runs.{ends_expr_at};
ghost use Rattle.java_expr_reading.specs.declared.operators.Operator.TheVariants.{Other};

use crate::shape::Shape;
use java_tree::{AssignOp, BinaryOp, Mark, PostfixOp, PrefixOp, Primitive};

/// An operator in a chain of one level.
#[derive(Clone, Copy, Debug)]
pub enum Operator {
    Infix(BinaryOp),
    InstanceOf,
    /// The chain ends here.
    Other,
}

fn assign_of(mark: Mark) -> Option<AssignOp>
    ensures { result ≡ assign_of mark }
{
    match mark {
        Mark::Assign => Some(AssignOp::Assign),
        Mark::StarAssign => Some(AssignOp::Multiply),
        Mark::SlashAssign => Some(AssignOp::Divide),
        Mark::PercentAssign => Some(AssignOp::Remainder),
        Mark::PlusAssign => Some(AssignOp::Add),
        Mark::MinusAssign => Some(AssignOp::Subtract),
        Mark::LeftShiftAssign => Some(AssignOp::LeftShift),
        Mark::RightShiftAssign => Some(AssignOp::RightShift),
        Mark::UnsignedRightShiftAssign => Some(AssignOp::UnsignedRightShift),
        Mark::AndAssign => Some(AssignOp::And),
        Mark::CaretAssign => Some(AssignOp::Xor),
        Mark::OrAssign => Some(AssignOp::Or),
        _ => None,
    }
}

fn binary_of(mark: Mark) -> Option<BinaryOp>
    ensures { result ≡ binary_of mark }
{
    match mark {
        Mark::OrOr => Some(BinaryOp::ConditionalOr),
        Mark::AndAnd => Some(BinaryOp::ConditionalAnd),
        Mark::Or => Some(BinaryOp::Or),
        Mark::Caret => Some(BinaryOp::Xor),
        Mark::And => Some(BinaryOp::And),
        Mark::Equal => Some(BinaryOp::Equal),
        Mark::NotEqual => Some(BinaryOp::NotEqual),
        Mark::Less => Some(BinaryOp::Less),
        Mark::Greater => Some(BinaryOp::Greater),
        Mark::LessEqual => Some(BinaryOp::LessEqual),
        Mark::GreaterEqual => Some(BinaryOp::GreaterEqual),
        Mark::LeftShift => Some(BinaryOp::LeftShift),
        Mark::RightShift => Some(BinaryOp::RightShift),
        Mark::UnsignedRightShift => Some(BinaryOp::UnsignedRightShift),
        Mark::Plus => Some(BinaryOp::Add),
        Mark::Minus => Some(BinaryOp::Subtract),
        Mark::Star => Some(BinaryOp::Multiply),
        Mark::Slash => Some(BinaryOp::Divide),
        Mark::Percent => Some(BinaryOp::Remainder),
        _ => None,
    }
}

fn prefix_of(mark: Mark) -> Option<PrefixOp>
    ensures { result ≡ prefix_of mark }
{
    match mark {
        Mark::Increment => Some(PrefixOp::Increment),
        Mark::Decrement => Some(PrefixOp::Decrement),
        Mark::Plus => Some(PrefixOp::Plus),
        Mark::Minus => Some(PrefixOp::Minus),
        Mark::Tilde => Some(PrefixOp::Complement),
        Mark::Bang => Some(PrefixOp::Not),
        _ => None,
    }
}

fn postfix_of(mark: Mark) -> Option<PostfixOp>
    ensures { result ≡ postfix_of mark }
{
    match mark {
        Mark::Increment => Some(PostfixOp::Increment),
        Mark::Decrement => Some(PostfixOp::Decrement),
        _ => None,
    }
}

/// The primitive type that a keyword names (JLS 4.2).
pub fn primitive_of(mark: Mark) -> Option<Primitive>
    ensures { result ≡ primitive_of mark }
{
    match mark {
        Mark::Boolean => Some(Primitive::Boolean),
        Mark::Byte => Some(Primitive::Byte),
        Mark::Short => Some(Primitive::Short),
        Mark::Char => Some(Primitive::Char),
        Mark::Int => Some(Primitive::Int),
        Mark::Long => Some(Primitive::Long),
        Mark::Float => Some(Primitive::Float),
        Mark::Double => Some(Primitive::Double),
        _ => None,
    }
}

/// The binding of a binary operator, the tightest with 1.
fn level(op: BinaryOp) -> u8
    ensures { result ≡ level op }
{
    match op {
        BinaryOp::ConditionalOr => 10,
        BinaryOp::ConditionalAnd => 9,
        BinaryOp::Or => 8,
        BinaryOp::Xor => 7,
        BinaryOp::And => 6,
        BinaryOp::Equal | BinaryOp::NotEqual => 5,
        BinaryOp::Less | BinaryOp::Greater | BinaryOp::LessEqual | BinaryOp::GreaterEqual => 4,
        BinaryOp::LeftShift | BinaryOp::RightShift | BinaryOp::UnsignedRightShift => 3,
        BinaryOp::Add | BinaryOp::Subtract => 2,
        BinaryOp::Multiply | BinaryOp::Divide | BinaryOp::Remainder => 1,
    }
}

/// The level of `instanceof`.
const RELATIONAL: u8 = 4;

impl Shape {
    /// Whether this is a mark.
    pub fn is_mark(self, mark: Mark) -> bool
        ensures { result ≡ is_mark mark self }
    {
        match self {
            Shape::Mark(own) => is_same(own, mark),
            _ => false,
        }
    }

    /// Whether this is an identifier.
    pub fn is_word(self) -> bool
        ensures { result ≡ is_word self }
    {
        match self {
            Shape::Word => true,
            _ => false,
        }
    }

    /// Whether this is `{`.
    pub fn is_left_brace(self) -> bool
        ensures { result ≡ is_left_brace self }
    {
        match self {
            Shape::LeftBrace => true,
            _ => false,
        }
    }

    /// Whether this is `super`.
    pub fn is_super(self) -> bool
        ensures { result ≡ is_super self }
    {
        match self {
            Shape::Super => true,
            _ => false,
        }
    }

    /// The assignment operator that this is (JLS 15.26).
    pub fn assign_op(self) -> Option<AssignOp>
        ensures { result ≡ assign_by self }
    {
        match self {
            Shape::Mark(mark) => assign_of(mark),
            _ => None,
        }
    }

    /// The unary operator that this is before an operand (JLS 15.15).
    pub fn prefix_op(self) -> Option<PrefixOp>
        ensures { result ≡ prefix_by self }
    {
        match self {
            Shape::Mark(mark) => prefix_of(mark),
            _ => None,
        }
    }

    /// The operator that this is after an operand (JLS 15.14).
    pub fn postfix_op(self) -> Option<PostfixOp>
        ensures { result ≡ postfix_by self }
    {
        match self {
            Shape::Mark(mark) => postfix_of(mark),
            _ => None,
        }
    }

    /// Whether this is an operator in a chain of some level.
    pub fn is_operator(self) -> bool
        ensures value { result ≡ is_operator self }
        ensures none { result ≡ false → (k : ℕ) → operator_by k self ≡ Other }
    {
        match self {
            Shape::Mark(mark) => is_operator_at(mark),
            _ => false,
        }
    }

    /// The operator that this is in a chain of a level.
    pub fn operator(self, level: u8) -> Operator
        ensures { result ≡ operator_by level self }
    {
        match self {
            Shape::Mark(mark) => operator_at(level, mark),
            _ => Operator::Other,
        }
    }

    /// Whether an operand without a sign begins so.
    pub fn begins_operand(self) -> bool
        ensures { result ≡ begins_operand self }
    {
        match self {
            Shape::Mark(mark) => begins_operand_at(mark),
            Shape::This | Shape::Super | Shape::Word | Shape::Literal => true,
            _ => false,
        }
    }

    /// Whether this may follow an expression.
    pub fn ends_expr(self) -> bool
        ensures { result ≡ ends_by self }
    {
        match self {
            Shape::Mark(mark) => ends_expr_at(mark),
            Shape::End => true,
            _ => false,
        }
    }
}

#[tactic(auto, unfolding(crate::specs::Shapes::same_mark))]
fn is_same(mark: Mark, other: Mark) -> bool
    ensures { result ≡ same_mark mark other }
{
    mark == other
}

fn operator_at(level: u8, mark: Mark) -> Operator
    ensures { result ≡ operator_at level mark }
{
    match mark {
        Mark::InstanceOf if level == RELATIONAL => Operator::InstanceOf,
        Mark::InstanceOf => Operator::Other,
        _ => infix_at(level, mark),
    }
}

fn is_operator_at(mark: Mark) -> bool
    ensures value { result ≡ is_operator_at mark }
    ensures none { result ≡ false → (k : ℕ) → operator_at k mark ≡ Other }
{
    match mark {
        Mark::InstanceOf => true,
        _ => binary_of(mark).is_some(),
    }
}

fn infix_at(at: u8, mark: Mark) -> Operator
    ensures { result ≡ at_level at (binary_of mark) }
{
    match binary_of(mark) {
        Some(op) if level(op) == at => Operator::Infix(op),
        _ => Operator::Other,
    }
}

fn begins_operand_at(mark: Mark) -> bool
    ensures { result ≡ begins_operand_at mark }
{
    match mark {
        Mark::LeftParen | Mark::New | Mark::Void | Mark::Bang | Mark::Tilde => true,
        _ => primitive_of(mark).is_some(),
    }
}

fn ends_expr_at(mark: Mark) -> bool
    ensures { result ≡ ends_expr_at mark }
{
    match mark {
        Mark::RightParen
        | Mark::RightBracket
        | Mark::RightBrace
        | Mark::Semicolon
        | Mark::Comma
        | Mark::Colon => true,
        _ => false,
    }
}
