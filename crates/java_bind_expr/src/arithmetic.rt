//! The types of unary and binary expressions (JLS 5.6, 15.15, 15.17 to 15.24).

ghost use Rattle.std.specs.Prelude.{◌≡◌, IfOk};
ghost use Rattle.java_tree.specs.declared.types.JType.TheVariants as types;
ghost use Rattle.java_model.specs.Names.Environments.{string};
ghost use Rattle.java_model.specs.Names.Types.{same_type};
ghost use Rattle.java_model.specs.Bindings.Arithmetic.{bitwise_type, boolean, both_promoted, infix_type, prefix_type, promoted, sum_type, wider};

use java_env::Env;
use java_tree::{BinaryOp, JType, PrefixOp, Primitive, Text, TypeId};
use std::alloc::{AllocError, Global};

/// Unary numeric promotion, of a type that isn't numeric Unknown (JLS 5.6.1).
pub(crate) fn promoted(t: &JType) -> JType
    ensures { result ≡ promoted t.now }
{
    match t {
        JType::Primitive(Primitive::Boolean) => JType::Unknown,
        JType::Primitive(Primitive::Long) => JType::Primitive(Primitive::Long),
        JType::Primitive(Primitive::Float) => JType::Primitive(Primitive::Float),
        JType::Primitive(Primitive::Double) => JType::Primitive(Primitive::Double),
        JType::Primitive(_) => JType::Primitive(Primitive::Int),
        _ => JType::Unknown,
    }
}

/// Of two promoted types the wider one: `double`, else `float`, else `long`, else `int`.
fn wider_primitive(p: Primitive, q: Primitive) -> Primitive
    ensures { types.Primitive result ≡ wider (types.Primitive p) (types.Primitive q) }
{
    match (p, q) {
        (Primitive::Double, _) | (_, Primitive::Double) => Primitive::Double,
        (Primitive::Float, _) | (_, Primitive::Float) => Primitive::Float,
        (Primitive::Long, _) | (_, Primitive::Long) => Primitive::Long,
        _ => Primitive::Int,
    }
}

/// The wider one of two types, Unknown where one isn't primitive.
fn wider(a: &JType, b: &JType) -> JType
    ensures { result ≡ wider a.now b.now }
{
    match a {
        JType::Primitive(p) => match b {
            JType::Primitive(q) => JType::Primitive(wider_primitive(*p, *q)),
            _ => JType::Unknown,
        },
        _ => JType::Unknown,
    }
}

/// Binary numeric promotion, where a side isn't numeric Unknown (JLS 5.6.2).
pub(crate) fn both_promoted(a: &JType, b: &JType) -> JType
    ensures { result ≡ both_promoted a.now b.now }
{
    wider(&promoted(a), &promoted(b))
}

fn is_boolean(t: &JType) -> bool
    ensures { result ≡ same_type boolean t.now }
{
    matches!(t, JType::Primitive(Primitive::Boolean))
}

/// The class `java.lang.String` (JLS 4.3.3).
pub(crate) fn string(alloc: Global, env: &Env) -> Result<TypeId, AllocError>
    ensures { IfOk result (λ t. t ≡ string env.now) }
{
    let names = [Text::from_str(alloc, "String")?];
    let named = env.types().type_named("java.lang", &names);
    Ok(named.unwrap_or(TypeId(0)))
}

fn is_class(id: TypeId, t: &JType) -> bool
    ensures { result ≡ same_type (types.Class id) t.now }
{
    match t {
        JType::Class(other) => id.0 == other.0,
        _ => false,
    }
}

/// `+` (JLS 15.18): a String on a side makes it a String.
fn sum_type(alloc: Global, env: &Env, a: &JType, b: &JType) -> Result<JType, AllocError>
    ensures { IfOk result (λ t. t ≡ sum_type env.now a.now b.now) }
{
    let id = string(alloc, env)?;
    if is_class(id, a) || is_class(id, b) {
        Ok(JType::Class(id))
    } else {
        Ok(both_promoted(a, b))
    }
}

/// `& ^ |` (JLS 15.22).
fn bitwise_type(a: &JType, b: &JType) -> JType
    ensures { result ≡ bitwise_type a.now b.now }
{
    if is_boolean(a) && is_boolean(b) {
        JType::Primitive(Primitive::Boolean)
    } else {
        both_promoted(a, b)
    }
}

/// A binary operator (JLS 15.17 to 15.24).
pub(crate) fn infix_type(
    alloc: Global,
    env: &Env,
    op: BinaryOp,
    a: &JType,
    b: &JType,
) -> Result<JType, AllocError>
    ensures { IfOk result (λ t. t ≡ infix_type env.now op a.now b.now) }
{
    match op {
        BinaryOp::Or | BinaryOp::Xor | BinaryOp::And => Ok(bitwise_type(a, b)),
        BinaryOp::LeftShift | BinaryOp::RightShift | BinaryOp::UnsignedRightShift => {
            Ok(promoted(a))
        }
        BinaryOp::Add => sum_type(alloc, env, a, b),
        BinaryOp::Subtract | BinaryOp::Multiply | BinaryOp::Divide | BinaryOp::Remainder => {
            Ok(both_promoted(a, b))
        }
        _ => Ok(JType::Primitive(Primitive::Boolean)),
    }
}

/// A unary operator (JLS 15.15).
pub(crate) fn prefix_type(op: PrefixOp, t: JType) -> JType
    ensures { result ≡ prefix_type op t }
{
    match op {
        PrefixOp::Increment | PrefixOp::Decrement => t,
        PrefixOp::Not => JType::Primitive(Primitive::Boolean),
        _ => promoted(&t),
    }
}
