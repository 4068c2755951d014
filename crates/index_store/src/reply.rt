//! What the store answered to its clients.
use java_tree::Text;

/// What a save or a mark of a client came to.
#[derive(Clone, Copy, Debug, PartialEq, Eq, Drop)]
pub enum SaveAnswer {
    Saved(u64),
    Marked(u64),
    TooLong(u64),
    Full,
    Worn,
    Fault,
}

/// A reply to a client, for a line of its script.
#[derive(Debug, Drop)]
pub struct SaveReply {
    pub client: u8,
    pub line: u32,
    pub container: Text,
    pub answer: SaveAnswer,
}
