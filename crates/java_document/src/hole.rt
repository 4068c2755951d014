use java_tree::{Items, Span, Text, TypePlace};

/// A type where it is declared: the offset of its `{`, its place, the name in the creation of an anonymous class
/// with the span of its last identifier, and the local classes in scope there (JLS 14.3), innermost first.
#[derive(Drop)]
pub(crate) struct FoundHole {
    pub(crate) brace: u32,
    pub(crate) place: TypePlace,
    pub(crate) created: Items<Text>,
    pub(crate) span: Span,
    pub(crate) locals: Items<u32>,
}
