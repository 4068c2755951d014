ghost use Rattle.std.specs.Prelude.{◌≡◌, ◌↔◌, [], map, IsTrue, IfOk};
ghost use Rattle.std.specs.Cmp.Lexicographic.{slice_cmp};
ghost use Rattle.std.specs.List.{IsDistinct};
ghost use Rattle.std.specs.Ordering.{nat_cmp};
ghost use Rattle.std.specs.Str.{bytes_eq};
ghost use Rattle.script_text.specs.Inner.Checks.{run_before, runs_fit};
ghost use Rattle.script_text.specs.Inner.Sorted.{rises};
ghost use Rattle.script_text.specs.Views.{document_of, documents_of};

use crate::script::{ScriptDoc, Search};
use java_tree::MAX_DOCUMENTS;
use std::alloc::{AllocError, Global};
use std::cmp::Ordering;

/// How many documents of its container stand right before one, where so many of a container do.
fn run_before(container: &[u8], count: usize, doc: &ScriptDoc) -> usize
    ensures { result ≡ run_before container.now count (document_of doc.now) }
{
    if doc.container.as_str().as_bytes() == container {
        count
    } else {
        0
    }
}

/// Whether no run of documents of one container is longer than a container may be, in one pass.
pub fn runs_fit(docs: &[ScriptDoc]) -> bool
    ensures { result ≡ runs_fit [] 0 (documents_of docs.now) }
{
    let mut container: &[u8] = b"";
    let mut count = 0;
    let mut rest = docs;
    while let [doc, after @ ..] = rest {
        let before = run_before(container, count, doc);
        if before >= MAX_DOCUMENTS {
            return false;
        }
        container = doc.container.as_str().as_bytes();
        count = before + 1;
        rest = after;
    }
    true
}

/// The names of searches.
fn names_of(alloc: Global, searches: &[Search]) -> Result<Vec<&str>, AllocError>
    ensures { IfOk result (λ names. map (λ name. name.now) names.items ≡ map (λ search. search.name) searches.now) }
{
    let mut names = Vec::new(alloc);
    for search in searches {
        names.push(search.name.as_str())?;
    }
    Ok(names)
}

/// Whether each name is below the next.
fn names_rise(names: &[&str]) -> bool
    ensures { result ≡ rises (slice_cmp nat_cmp) (map (λ name. name.now) names.now) }
{
    let mut rest = names;
    while let [first, second, ..] = rest {
        if first.cmp(second) != Ordering::Less {
            return false;
        }
        rest = &rest[1..];
    }
    true
}

/// Whether no two searches have one name, by a sort of the names.
pub fn have_own_names(alloc: Global, searches: &[Search]) -> Result<bool, AllocError>
    ensures { IfOk result (λ own. IsTrue own ↔ IsDistinct bytes_eq (map (λ search. search.name) searches.now)) }
{
    let mut names = names_of(alloc, searches)?;
    names.sort_unstable();
    Ok(names_rise(&names))
}
