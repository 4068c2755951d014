/// A member by the number of its type and its place there.
#[derive(Clone, Copy, Debug, PartialEq, Eq, PartialOrd, Ord)]
pub struct Member {
    pub of: u64,
    pub place: u64,
}
