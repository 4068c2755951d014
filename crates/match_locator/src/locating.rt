//! The matches of a document.

ghost use Rattle.std.specs.Prelude.{◌≡◌, IsTrue, IfOk};
ghost use Rattle.java_model.specs.Matches.Scans.{match_of, matches_of};
ghost use Rattle.match_locator.specs.Searches.{is_for_types, have_bindings_by_kind};

use crate::fitting::fits;
use java_tree::{DocPath, Match, Occurrence};
use java_types::DeclaredTypes;
use search_pattern::Pattern;
use std::alloc::{AllocError, Global};

/// An occurrence as a match of its document.
fn match_of(alloc: Global, doc: &DocPath, found: &Occurrence) -> Result<Match, AllocError>
    ensures { IfOk result (λ m. m ≡ match_of doc.now found.now) }
{
    let container = doc.container.copy(alloc)?;
    let path = doc.path.copy(alloc)?;
    Ok(Match {
        container,
        path,
        span: found.span,
        kind: found.kind,
        accuracy: found.accuracy,
        access: found.access,
    })
}

/// The matches of a search for types or packages among the occurrences of a document, in order, by one pass over them.
pub fn locate(
    alloc: Global,
    pattern: &Pattern,
    env: &DeclaredTypes,
    occurrences: &[Occurrence],
    doc: &DocPath,
) -> Result<Vec<Match>, AllocError>
    requires types { IsTrue (is_for_types pattern.now.what) }
    requires kinds { IsTrue (have_bindings_by_kind occurrences.now) }
    ensures { IfOk result (λ ms. ms.items ≡ matches_of env.now pattern.now doc.now occurrences.now) }
{
    let mut matches = Vec::new(alloc);
    for found in occurrences {
        if fits(env, pattern, found) {
            matches.push(match_of(alloc, doc, found)?)?;
        }
    }
    Ok(matches)
}
