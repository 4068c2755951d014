ghost use Rattle.std.specs.Prelude.{◌≤◌, IsTrue};
ghost use Rattle.java_tree.specs.declared.limits.TheConstants.{MAX_STAMP};
ghost use Rattle.java_tree.specs.Names.{is_container, is_source_path};

use crate::text::Text;
use sqlite_items::Items;

/// A version of a document: its container and path, which legal names are, the place of the edit that
/// put it, or 0 for an opening document, and its stamp.
#[derive(Debug, Drop)]
pub struct DocName {
    pub container: Text,
    pub path: Text,
    pub version: u64,
    pub stamp: u64,
    pub ghost in_container: { IsTrue (is_container container) },
    pub ghost is_source: { IsTrue (is_source_path path) },
    pub ghost stamped: { stamp ≤ MAX_STAMP },
}

/// Where a search looks (JDT `IJavaSearchScope`).
#[derive(Debug, Drop)]
pub enum Scope {
    All,
    Containers(Items<Text>),
}
