//! Primitive types (JLS 4.2).

ghost use Rattle.std.specs.Prelude.{◌≡◌};
ghost use Rattle.java_tree.specs.declared.names.Primitive.TheVariants as primitives;
ghost use Rattle.java_model.specs.Names.Conversions.{widens};
ghost use Rattle.java_model.specs.Names.Types.{primitive_named, same_primitive};
ghost use Rattle.java_model.specs.Outlines.{spelled_primitive};

use java_tree::Primitive;

/// The word of a primitive type.
pub fn spelled_primitive(primitive: Primitive) -> &'static str
    ensures { result.now ≡ spelled_primitive primitive }
{
    match primitive {
        Primitive::Boolean => "boolean",
        Primitive::Byte => "byte",
        Primitive::Short => "short",
        Primitive::Char => "char",
        Primitive::Int => "int",
        Primitive::Long => "long",
        Primitive::Float => "float",
        Primitive::Double => "double",
    }
}

/// Whether these are one primitive type.
pub fn same_primitive(left: Primitive, right: Primitive) -> bool
    ensures { result ≡ same_primitive left right }
{
    spelled_primitive(left) == spelled_primitive(right)
}

/// The primitive type of this name.
pub fn primitive_named(name: &str) -> Option<Primitive>
    ensures { result ≡ primitive_named name.now }
{
    match name {
        "boolean" => Some(Primitive::Boolean),
        "byte" => Some(Primitive::Byte),
        "short" => Some(Primitive::Short),
        "char" => Some(Primitive::Char),
        "int" => Some(Primitive::Int),
        "long" => Some(Primitive::Long),
        "float" => Some(Primitive::Float),
        "double" => Some(Primitive::Double),
        _ => None,
    }
}

fn widens_byte(to: Primitive) -> bool
    ensures { result ≡ widens primitives.Byte to }
{
    matches!(
        to,
        Primitive::Short | Primitive::Int | Primitive::Long | Primitive::Float | Primitive::Double
    )
}

fn widens_int(to: Primitive) -> bool
    ensures { result ≡ widens primitives.Int to }
{
    matches!(to, Primitive::Long | Primitive::Float | Primitive::Double)
}

/// Whether a primitive type widens to another (JLS 5.1.2).
pub fn widens(from: Primitive, to: Primitive) -> bool
    ensures { result ≡ widens from to }
{
    match from {
        Primitive::Boolean | Primitive::Double => false,
        Primitive::Byte => widens_byte(to),
        Primitive::Short | Primitive::Char => matches!(to, Primitive::Int) || widens_int(to),
        Primitive::Int => widens_int(to),
        Primitive::Long => matches!(to, Primitive::Float | Primitive::Double),
        Primitive::Float => matches!(to, Primitive::Double),
    }
}
