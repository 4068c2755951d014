use crate::key::Category;
use crate::text::Text;

/// A document of an index: its path, and its stamp, at most 2^62.
#[derive(Debug, Drop)]
pub struct IndexEntry {
    pub path: Text,
    pub stamp: u64,
}

/// A row of an index: a key, and the number of an entry that has it, from 0.
#[derive(Debug, Drop)]
pub struct Row {
    pub category: Category,
    pub key: Text,
    pub entry: u32,
}
