//! The type of `a ? b : c` (JLS 15.25).

ghost use Rattle.std.specs.Prelude.{◌≡◌};
ghost use Rattle.std.specs.Option.{option_map};
ghost use Rattle.java_model.specs.Bindings.Conditionals.{are_byte_and_short, common_reference, common_type, conditional_type, is_reference};
ghost use Rattle.java_bind_expr.specs.IntLiterals.{as_number};

use crate::arithmetic::both_promoted;
use crate::literals::{IntLiteral, fits_into};
use java_env::Env;
use java_jtypes::same_type;
use java_tree::{JType, Primitive};

fn are_byte_and_short(a: &JType, b: &JType) -> bool
    ensures { result ≡ are_byte_and_short a.now b.now }
{
    matches!(
        (a, b),
        (
            JType::Primitive(Primitive::Byte),
            JType::Primitive(Primitive::Short)
        ) | (
            JType::Primitive(Primitive::Short),
            JType::Primitive(Primitive::Byte)
        )
    )
}

fn is_reference(t: &JType) -> bool
    ensures { result ≡ is_reference t.now }
{
    matches!(t, JType::Class(_) | JType::Absent(_) | JType::Array(_, _))
}

/// Two references: the one to which the other converts, the second where both do.
fn common_reference(env: &Env, a: JType, b: JType) -> JType
    ensures { result ≡ common_reference env.now a b }
{
    if env.converts(&a, &b) {
        b
    } else if env.converts(&b, &a) {
        a
    } else {
        JType::Unknown
    }
}

/// Neither equal types nor a literal that takes the other's type.
fn common_type(env: &Env, a: JType, b: JType) -> JType
    ensures { result ≡ common_type env.now a b }
{
    match (&a, &b) {
        (JType::Primitive(_), JType::Primitive(_)) => both_promoted(&a, &b),
        (JType::Null, _) if is_reference(&b) => b,
        (_, JType::Null) if is_reference(&a) => a,
        _ if is_reference(&a) && is_reference(&b) => common_reference(env, a, b),
        _ => JType::Unknown,
    }
}

/// The type of a conditional expression, whose operands may be int literals. A `byte` and a `short` are a `short`.
pub(crate) fn conditional_type(
    env: &Env,
    a: JType,
    first: Option<IntLiteral<'_>>,
    b: JType,
    second: Option<IntLiteral<'_>>,
) -> JType
    ensures { result ≡ conditional_type env.now a (option_map as_number first.entry) b (option_map as_number second.entry) }
{
    if same_type(&a, &b) {
        return a;
    }
    if are_byte_and_short(&a, &b) {
        return JType::Primitive(Primitive::Short);
    }
    if fits_into(&a, second) {
        a
    } else if fits_into(&b, first) {
        b
    } else {
        common_type(env, a, b)
    }
}
