use java_tree::{Items, Span, Text, TypeKind};

/// What the head of a type gives.
#[derive(Drop)]
pub(crate) struct Head {
    pub(crate) kind: TypeKind,
    pub(crate) name: Text,
    pub(crate) span: Span,
    pub(crate) modifiers: u16,
    pub(crate) extends: Items<Items<Text>>,
    pub(crate) implements: Items<Items<Text>>,
}
