//! Kinds of bounds.

ghost use Rattle.std.specs.Prelude.{◌≡◌};
ghost use Rattle.java_scope.specs.Linked.{is_around, is_body, is_variable, key_of, name_key};

use java_tree::{Bound, TypeId};
use java_types::member_key;

/// The key of a name.
pub(crate) fn name_key(name: &str) -> u64
    ensures { result ≡ name_key name.now }
{
    member_key(TypeId(0), name)
}

/// The key of a variable's name.
pub(crate) fn key_of(bound: &Bound) -> Option<u64>
    ensures { result ≡ key_of bound.now }
{
    match bound {
        Bound::Variable(name, _) => Some(name_key(name.as_str())),
        _ => None,
    }
}

/// Whether a bound is a variable of this name.
pub(crate) fn is_variable(name: &str, bound: &Bound) -> bool
    ensures { result ≡ is_variable name.now bound.now }
{
    match bound {
        Bound::Variable(own, _) => name == own.as_str(),
        _ => false,
    }
}

/// Whether a bound is the members of a type.
pub(crate) fn is_body(bound: &Bound) -> bool
    ensures { result ≡ is_body bound.now }
{
    match bound {
        Bound::Members(_) => true,
        _ => false,
    }
}

/// Whether a bound is no variable.
pub(crate) fn is_around(bound: &Bound) -> bool
    ensures { result ≡ is_around bound.now }
{
    match bound {
        Bound::Variable(_, _) => false,
        _ => true,
    }
}
