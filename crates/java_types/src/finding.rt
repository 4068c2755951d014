//! Documents by container and path.

ghost use Rattle.std.specs.Prelude.{◌≡◌, map, IsTrue, MatchOption};
ghost use Rattle.java_model.specs.Names.Environments.{same_path};
ghost use Rattle.java_types.specs.Documents.{AreInOrder, HasNone, IsPlaceOf, document_of, path_cmp};

use crate::documents::KeptDocument;
use java_tree::{DocPath, Text, TypeId};
use std::cmp::Ordering;

/// The order of documents: by container, then by path.
pub(crate) fn by_path(left: &DocPath, container: &Text, path: &Text) -> Ordering
    ensures { result ≡ path_cmp left.now (record { container = container.now; path = path.now }) }
{
    let containers = left.container.as_str().cmp(container.as_str());
    containers.then(left.path.as_str().cmp(path.as_str()))
}

fn is_at(document: &KeptDocument, path: &DocPath) -> bool
    ensures { result ≡ same_path path.now document.now.path }
{
    path.path.as_str() == document.path.path.as_str()
        && path.container.as_str() == document.path.container.as_str()
}

/// Whether this is the place of a document.
fn is_place(documents: &[KeptDocument], place: usize, path: &DocPath) -> bool
    ensures { IsTrue result → IsPlaceOf documents.now path.now place }
{
    match documents.get(place) {
        Some(document) => is_at(document, path),
        None => false,
    }
}

/// The place of a document that declares a type. It is where the numbers of the documents' first types say, or is
/// found by a binary search.
pub(crate) fn place_by_type(
    documents: &[KeptDocument],
    firsts: &[u64],
    id: TypeId,
    path: &DocPath,
) -> Option<usize>
    requires { AreInOrder (map document_of documents.now) }
    ensures { MatchOption result (HasNone documents.now path.now) (IsPlaceOf documents.now path.now) }
{
    let next = firsts.partition_point(|first| *first <= id.0);
    let place = next.saturating_sub(1);
    if is_place(documents, place, path) {
        return Some(place);
    }
    place_of(documents, path)
}

/// The place of a document, by a binary search.
pub(crate) fn place_of(documents: &[KeptDocument], path: &DocPath) -> Option<usize>
    requires { AreInOrder (map document_of documents.now) }
    ensures { MatchOption result (HasNone documents.now path.now) (IsPlaceOf documents.now path.now) }
{
    match documents.binary_search_by(|document| by_path(
        &document.path,
        &path.container,
        &path.path,
    )) {
        Ok(place) => Some(place),
        Err(_) => None,
    }
}
