//! Int literals in expressions (JLS 3.10.1).

ghost use Rattle.std.specs.Prelude.{◌≡◌, ℕ, ◌+◌, ◌*◌, ◌-◌, ◌≤◌, nat_le};
ghost use Rattle.std.specs.Option.{option_map};
ghost use Rattle.java_tree.specs.declared.expr.Expr.{out-Expr};
ghost use Rattle.java_tree.specs.declared.expr.First.{out-First};
ghost use Rattle.java_model.specs.Bindings.Conditionals.{digit_value, digits_value, first_number, fits_into, int_literal, int_value, is_in_range, literal_number, unsigned_number};
ghost use Rattle.java_bind_expr.specs.IntLiterals.{as_number};

use java_tree::{Expr, First, JType, Literal, PostfixOp, PrefixOp, Primitive, Selector};

/// An int literal, with a minus before it or without.
#[derive(Clone, Copy)]
pub(crate) struct IntLiteral<'a> {
    pub(crate) is_negative: bool,
    pub(crate) text: &'a str,
}

/// The number that a digit stands for (JLS 3.10.1).
fn digit_value(c: u8) -> u32
    ensures { result ≡ digit_value c }
{
    if c >= b'a' {
        u32::from(c - b'a') + 10
    } else if c >= b'A' {
        u32::from(c - b'A') + 10
    } else {
        u32::from(c.saturating_sub(b'0'))
    }
}

/// Whether digits stand for a number that is at most a bound.
fn is_at_most(base: u32, digits: &[u8], bound: u32) -> bool
    requires some { 1 ≤ base }
    requires few { base ≤ 16 }
    requires small { bound ≤ 65535 }
    ensures { result ≡ nat_le (digits_value base 0 digits.now) bound }
{
    let mut value = 0;
    for digit in digits {
        value = base * value + digit_value(*digit);
        if value > bound {
            return false;
        }
    }
    true
}

/// Whether an int literal is at most a bound: hexadecimal, octal or decimal.
fn has_value_up_to(text: &[u8], bound: u32) -> bool
    requires { bound ≤ 65535 }
    ensures { result ≡ nat_le (int_value text.now) bound }
{
    match text {
        [b'0', b'x' | b'X', digits @ ..] => is_at_most(16, digits, bound),
        [b'0', ..] => is_at_most(8, text, bound),
        _ => is_at_most(10, text, bound),
    }
}

/// Whether a `byte`, a `short` or a `char` has the value of a literal (JLS 4.2.1).
fn is_in_range(p: Primitive, literal: IntLiteral<'_>) -> bool
    ensures { result ≡ is_in_range p (as_number literal.entry) }
{
    let text = literal.text.as_bytes();
    match p {
        Primitive::Byte => has_value_up_to(text, if literal.is_negative { 128 } else { 127 }),
        Primitive::Short => has_value_up_to(text, if literal.is_negative { 32768 } else { 32767 }),
        Primitive::Char => has_value_up_to(text, if literal.is_negative { 0 } else { 65535 }),
        _ => false,
    }
}

/// Whether an int literal takes a type.
pub(crate) fn fits_into(t: &JType, literal: Option<IntLiteral<'_>>) -> bool
    ensures { result ≡ fits_into t.now (option_map as_number literal.entry) }
{
    match t {
        JType::Primitive(p) => match literal {
            Some(literal) => is_in_range(*p, literal),
            None => false,
        },
        _ => false,
    }
}

fn literal_number<'a>(is_negative: bool, literal: &'a Literal) -> Option<IntLiteral<'a>>
    ensures { option_map as_number result ≡ literal_number is_negative literal.now }
{
    match literal {
        Literal::Int(text) => Some(IntLiteral {
            is_negative,
            text: text.as_str(),
        }),
        _ => None,
    }
}

fn first_number<'a>(
    is_negative: bool,
    first: &'a First,
    selectors: &[Selector],
    ops: &[PostfixOp],
) -> Option<IntLiteral<'a>>
    ensures { option_map as_number result ≡ first_number is_negative (out-First first.now) selectors.now ops.now }
{
    match first {
        First::Literal(literal) => match (selectors, ops) {
            ([], []) => literal_number(is_negative, literal),
            _ => None,
        },
        _ => None,
    }
}

fn unsigned_number<'a>(is_negative: bool, x: &'a Expr) -> Option<IntLiteral<'a>>
    ensures { option_map as_number result ≡ unsigned_number is_negative (out-Expr x.now) }
{
    match x {
        Expr::Postfix(p, ops) => {
            first_number(
                is_negative,
                &p.first,
                p.selectors.as_slice(),
                ops.as_slice(),
            )
        }
        _ => None,
    }
}

/// The int literal that an expression is. One in parentheses, or after two signs, is none.
pub(crate) fn int_literal<'a>(x: &'a Expr) -> Option<IntLiteral<'a>>
    ensures { option_map as_number result ≡ int_literal x.now }
{
    match x {
        Expr::Prefix(PrefixOp::Minus, operand) => unsigned_number(true, operand.get()),
        _ => unsigned_number(false, x),
    }
}
