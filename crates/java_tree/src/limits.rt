//! The limits of what is read.

/// The most bytes of a document's text.
pub const MAX_TEXT: usize = 1_048_576;

/// The most documents of a container.
pub const MAX_DOCUMENTS: usize = 65_536;

/// The greatest stamp of an opening document.
pub const MAX_OPENING_STAMP: u64 = 2_305_843_009_213_693_952;

/// The greatest stamp of a document.
pub const MAX_STAMP: u64 = 4_611_686_018_427_387_904;

/// The most bytes of a name of a container, a path, a mark or a search.
pub const MAX_NAME: usize = 200;

/// The most counted symbols above a token of a unit: bodies, statements, expressions, unary expressions
/// and array initializers.
pub const MAX_DEPTH: usize = 256;

/// The byte that ends a line.
pub const LF: u8 = b'\n';
