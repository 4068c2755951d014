//! Which occurrences fit a pattern.

ghost use Rattle.std.specs.Prelude.{◌≡◌, ℕ, IsTrue};
ghost use Rattle.java_model.specs.Matches.Fits.{fits, fits_binding, fits_count, fits_unbound, picks};
ghost use Rattle.match_locator.specs.Searches.{is_for_types, binds_by_kind};

use crate::picking::picks;
use crate::qualified::fits_class;
use java_tree::{Binding, Occurrence};
use java_types::DeclaredTypes;
use search_pattern::Pattern;

/// Whether a pattern gives as many parameters as there are arguments, where it gives any.
fn fits_count(pattern: &Pattern, count: u64) -> bool
    ensures { result ≡ fits_count pattern.now count }
{
    match pattern.params() {
        Some(params) => params.len() as u64 == count,
        None => true,
    }
}

/// Whether an occurrence that isn't bound fits, by its name and its count of arguments.
fn fits_unbound(pattern: &Pattern, found: &Occurrence) -> bool
    ensures { result ≡ fits_unbound pattern.now found.now }
{
    pattern.name_matches(found.name.as_str()) && fits_count(pattern, found.count)
}

/// Whether what an occurrence is bound to fits. What a search for types or packages picks is bound to no member.
fn fits_binding(env: &DeclaredTypes, pattern: &Pattern, found: &Occurrence) -> bool
    requires types { IsTrue (is_for_types pattern.now.what) }
    requires picked { IsTrue (picks pattern.now.what pattern.now.limit found.now.kind found.now.access) }
    requires kind { IsTrue (binds_by_kind found.now.kind found.now.binding) }
    ensures { result ≡ fits_binding env.now pattern.now found.now found.now.binding }
{
    match &found.binding {
        Binding::Package(name) => pattern.name_matches(name.as_str()),
        Binding::Class(id) => {
            let qualification = pattern.qualification();
            fits_class(
                env,
                pattern.rule(),
                pattern.case(),
                qualification,
                pattern.name(),
                *id,
            )
        }
        Binding::Field(_) | Binding::Method(_) => false,
        Binding::Nothing => fits_unbound(pattern, found),
    }
}

/// Whether an occurrence fits a pattern of types or packages.
pub(crate) fn fits(env: &DeclaredTypes, pattern: &Pattern, found: &Occurrence) -> bool
    requires types { IsTrue (is_for_types pattern.now.what) }
    requires kind { IsTrue (binds_by_kind found.now.kind found.now.binding) }
    ensures { result ≡ fits env.now pattern.now found.now }
{
    picks(pattern.what(), pattern.limit(), found.kind, found.access)
        && fits_binding(env, pattern, found)
}
