//! The order of occurrences: by start, end and kind.

ghost use Rattle.std.specs.Prelude.{◌≡◌, IfOk};
ghost use Rattle.std.specs.List.Sorted.{IsNonDecreasingBy, IsPermutation};
ghost use Rattle.java_model.specs.Occurrences.Occurrences.{kind_number, rank};

use java_tree::{OccKind, Occurrence};
use std::alloc::AllocError;

fn kind_number(kind: OccKind) -> u8
    ensures { result ≡ kind_number kind }
{
    match kind {
        OccKind::PackageDecl => 1,
        OccKind::PackageRef => 2,
        OccKind::TypeDecl => 3,
        OccKind::TypeRef => 4,
        OccKind::Super => 5,
        OccKind::MethodDecl => 6,
        OccKind::MethodRef => 7,
        OccKind::CtorDecl => 8,
        OccKind::CtorRef => 9,
        OccKind::FieldDecl => 10,
        OccKind::FieldRef => 11,
        OccKind::NameRef => 12,
    }
}

fn rank(found: &Occurrence) -> u128
    ensures { result ≡ rank found.now }
{
    let start = found.span.start as u128;
    let end = found.span.end as u128;
    let kind = kind_number(found.kind) as u128;
    (start * 4294967296 + end) * 16 + kind
}

/// Occurrences in order.
pub(crate) fn sorted(mut found: Vec<Occurrence>) -> Result<Vec<Occurrence>, AllocError>
    ensures same { IfOk result (λ os. IsPermutation found.items os.items) }
    ensures rise { IfOk result (λ os. IsNonDecreasingBy rank os.items) }
{
    found.sort_by_key(|o| rank(o))?;
    Ok(found)
}
