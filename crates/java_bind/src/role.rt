use java_tree::Access;

/// Where a name stands, which tells what its last identifier may mean (JLS 6.5.1).
#[derive(Clone, Copy, Debug)]
pub(crate) enum Role {
    /// A type name.
    Type,
    /// The name of a type-import-on-demand declaration (JLS 7.5.2).
    Import,
    /// Before a method's name (JLS 15.12).
    Qualifier,
    /// An expression name, whose variable is used so (JLS 6.5.6).
    Variable(Access),
}
