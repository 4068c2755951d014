//! The access of members (JLS 6.6).

ghost use Rattle.std.specs.Prelude.{◌≡◌, ◌==◌, bit_and, cond, false};
ghost use Rattle.std.specs.Option.{option_copied, option_map_or};
ghost use Rattle.java_model.specs.Names.Access.{PublicAccess, access_bits, spelled_visibility};
ghost use Rattle.java_model.specs.Names.Environments.{Declared, info_of, is_interface, type_info};
ghost use Rattle.java_model.specs.Names.Methods.{owner_of, type_visibility};
ghost use Rattle.java_model.specs.Names.Supertypes.{is_interface_type};
ghost use Rattle.java_env.specs.Visibilities.{visibility_of};

use java_tree::{TypeId, TypeInfo, TypeKind};
use java_types::DeclaredTypes;

/// The bits of modifiers.
pub const ABSTRACT: u16 = 1;

pub const PRIVATE: u16 = 8;

pub const PROTECTED: u16 = 16;

pub const PUBLIC: u16 = 32;

/// The access of a member (JLS 6.6.1).
#[derive(Clone, Copy, Debug, PartialEq, Eq)]
pub enum Visibility {
    Private,
    Default,
    Protected,
    Public,
}

pub(crate) fn has_bit(bits: u16, bit: u16) -> bool
    ensures { result ≡ (bit_and bits bit == bit) }
{
    bits & bit == bit
}

/// The access that modifiers spell. Private counts before public before protected.
fn spelled_visibility(bits: u16) -> Visibility
    ensures { visibility_of result ≡ spelled_visibility bits }
{
    if has_bit(bits, PRIVATE) {
        Visibility::Private
    } else if has_bit(bits, PUBLIC) {
        Visibility::Public
    } else if has_bit(bits, PROTECTED) {
        Visibility::Protected
    } else {
        Visibility::Default
    }
}

/// The access of a member of a type of this kind. Members of interfaces are public (JLS 9.1.4).
pub fn member_visibility(kind: TypeKind, bits: u16) -> Visibility
    ensures { visibility_of result ≡ cond (is_interface kind) PublicAccess (spelled_visibility bits) }
{
    match kind {
        TypeKind::Interface => Visibility::Public,
        _ => spelled_visibility(bits),
    }
}

/// The modifiers of an access.
fn access_bits(access: Visibility) -> u16
    ensures { result ≡ access_bits (visibility_of access) }
{
    match access {
        Visibility::Private => PRIVATE,
        Visibility::Default => 0,
        Visibility::Protected => PROTECTED,
        Visibility::Public => PUBLIC,
    }
}

/// What is known of a type, none of one that isn't in the environment.
pub(crate) fn info(types: &DeclaredTypes, t: TypeId) -> Option<&TypeInfo>
    ensures { option_copied result ≡ type_info types.now t }
{
    if types.has(t) {
        Some(types.type_info(t))
    } else {
        None
    }
}

pub(crate) fn is_interface(types: &DeclaredTypes, t: TypeId) -> bool
    ensures { result ≡ is_interface_type types.now t }
{
    match info(types, t) {
        Some(known) => matches!(known.kind, TypeKind::Interface),
        None => false,
    }
}

/// Whether a type is a member of an interface, which is public (JLS 9.5).
fn is_in_interface(types: &DeclaredTypes, known: &TypeInfo) -> bool
    ensures { (d : Declared) → info_of d ≡ known.now → result ≡ option_map_or (λ p. is_interface p.type.kind) (owner_of types.now d) false }
{
    if known.local || matches!(known.kind, TypeKind::Anonymous) {
        return false;
    }
    match known.parent {
        Some(owner) => is_interface(types, owner),
        None => false,
    }
}

/// The modifiers of the access of a type (JLS 6.6.1, 9.5).
pub(crate) fn type_access(types: &DeclaredTypes, known: &TypeInfo) -> u16
    ensures { (d : Declared) → info_of d ≡ known.now → result ≡ access_bits (type_visibility types.now d) }
{
    if is_in_interface(types, known) {
        PUBLIC
    } else {
        access_bits(spelled_visibility(known.modifiers))
    }
}
