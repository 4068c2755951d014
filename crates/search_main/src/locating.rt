//! The matches of a search in the opening documents.

ghost use Rattle.std.specs.Prelude.{◌≡◌, ◌++◌, [], ◌∷◌, IsTrue, IfOk, OnOk};
ghost use Rattle.std.specs.List.{count_by, list_any, AllByRecursion};
ghost use Rattle.std.specs.Str.{bytes_eq};
ghost use Rattle.java_model.specs.Matches.Scans.{is_in_scope};
ghost use Rattle.match_locator.specs.Searches.{is_for_types};
ghost use Rattle.search_main.specs.Inner.Views.{document_read, documents_read, path_read};
ghost use Rattle.search_main.specs.Inner.Located.{StandsIn, IsOpenedIn, AreMatchesIn, AreMatchesOf, AreMatchesAmong};

use crate::opening::{Opened, path_of};
use java_bind::occurrences;
use java_env::Env;
use java_laws::bindings_are_of_their_kind;
use java_tree::{DocPath, Match, Scope, Text, Unit};
use jx_io::Steps;
use match_locator::locate;
use search_pattern::Pattern;
use std::alloc::{AllocError, Global};

/// The count of the bytes that a search parses.
struct Parsed;

/// Whether a name is one of these.
fn is_among(name: &str, names: &[Text]) -> bool
    ensures { result ≡ list_any (bytes_eq name.now) names.now }
{
    names.iter().any(|other| name == other.as_str())
}

/// Whether a search looks into a document (JDT `IJavaSearchScope`).
fn is_in_scope(scope: &Scope, one: &Opened) -> bool
    ensures { result ≡ is_in_scope scope.now (path_read one.now) }
{
    match scope {
        Scope::All => true,
        Scope::Containers(containers) => {
            is_among(one.document.container.as_str(), containers.as_slice())
        }
    }
}

/// How many documents a search looks into.
pub(crate) fn count_in_scope(scope: &Scope, opened: &[Opened]) -> usize
    ensures { result ≡ count_by (λ o. is_in_scope scope.now (path_read o)) opened.now }
{
    opened.iter().filter(|one| is_in_scope(scope, one)).count()
}

/// The matches among what a unit names.
fn matches_in_unit(
    alloc: Global,
    env: &Env,
    pattern: &Pattern,
    path: &DocPath,
    unit: &Unit,
) -> Result<Vec<Match>, AllocError>
    requires types { IsTrue (is_for_types pattern.now.what) }
    requires stands { StandsIn env.now path.now unit.now }
    ensures { IfOk result (λ ms. AreMatchesIn env.now pattern.now path.now unit.now ms.items) }
{
    bindings_are_of_their_kind();
    let found = occurrences(alloc, env, path, unit)?;
    locate(alloc, pattern, env.types(), found.as_slice(), path)
}

/// The matches in a document. Its text is parsed, and its names are bound; an unreadable one has none.
fn matches_in(
    alloc: Global,
    env: &Env,
    pattern: &Pattern,
    one: &Opened,
) -> Result<Vec<Match>, AllocError>
    requires types { IsTrue (is_for_types pattern.now.what) }
    requires opened { IsOpenedIn env.now one.now }
    ensures { IfOk result (λ ms. AreMatchesOf env.now pattern.now (document_read one.now) ms.items) }
{
    let mut steps = Steps::<Parsed>::new();
    match one.document.unit(alloc, &mut steps)? {
        Some(unit) => {
            let path = path_of(alloc, one)?;
            matches_in_unit(alloc, env, pattern, &path, &unit)
        }
        None => Ok(Vec::new(alloc)),
    }
}

/// The matches in a document, if it is in scope.
fn matches_in_scope(
    alloc: Global,
    env: &Env,
    scope: &Scope,
    pattern: &Pattern,
    one: &Opened,
) -> Result<Vec<Match>, AllocError>
    requires types { IsTrue (is_for_types pattern.now.what) }
    requires opened { IsOpenedIn env.now one.now }
    ensures { IfOk result (λ ms. AreMatchesAmong env.now scope.now pattern.now (document_read one.now ∷ []) ms.items) }
{
    if !is_in_scope(scope, one) {
        return Ok(Vec::new(alloc));
    }
    matches_in(alloc, env, pattern, one)
}

/// Appends matches.
fn append(all: &mut Vec<Match>, found: Vec<Match>) -> Result<(), AllocError>
    ensures { OnOk result (all.new.items ≡ all.old.items ++ found.items) }
{
    for one in found {
        all.push(one)?;
    }
    Ok(())
}

/// The matches of a search for types or packages in the documents in scope, in order. Each of these is parsed and bound
/// once.
pub(crate) fn matches_among(
    alloc: Global,
    env: &Env,
    scope: &Scope,
    pattern: &Pattern,
    opened: &[Opened],
) -> Result<Vec<Match>, AllocError>
    requires types { IsTrue (is_for_types pattern.now.what) }
    requires opened { AllByRecursion (IsOpenedIn env.now) opened.now }
    ensures { IfOk result (λ ms. AreMatchesAmong env.now scope.now pattern.now (documents_read opened.now) ms.items) }
{
    let mut matches = Vec::new(alloc);
    for one in opened {
        append(
            &mut matches,
            matches_in_scope(alloc, env, scope, pattern, one)?,
        )?;
    }
    Ok(matches)
}
