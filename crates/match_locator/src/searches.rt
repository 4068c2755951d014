//! The searches for types and packages, and what their occurrences are bound to.

ghost use Rattle.std.specs.Prelude.{◌≡◌};
ghost use Rattle.match_locator.specs.Searches.{is_for_types, binds_by_kind, have_bindings_by_kind};

use java_tree::{Binding, OccKind, Occurrence, What};

/// Whether a search is one for types or packages.
pub fn is_for_types(what: What) -> bool
    ensures { result ≡ is_for_types what }
{
    matches!(what, What::Class | What::Package)
}

fn binds_by_kind(kind: OccKind, binding: &Binding) -> bool
    ensures { result ≡ binds_by_kind kind binding.now }
{
    match binding {
        Binding::Field(_) => matches!(kind, OccKind::FieldDecl | OccKind::FieldRef),
        _ => true,
    }
}

/// Whether only what declares a field or refers to one is bound to a field.
pub fn have_bindings_by_kind(occurrences: &[Occurrence]) -> bool
    ensures { result ≡ have_bindings_by_kind occurrences.now }
{
    occurrences
        .iter()
        .all(|found| binds_by_kind(found.kind, &found.binding))
}
