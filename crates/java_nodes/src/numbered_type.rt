use java_tree::TypeDecl;

/// A type, and its number in the list of the unit.
#[derive(Clone, Copy)]
pub struct NumberedType<'a> {
    /// Its number.
    pub number: u64,
    /// The type.
    pub declared: &'a TypeDecl,
}
