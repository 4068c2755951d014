use std::alloc::Global;

/// The local classes in scope at a place of a body, by the offsets of their `{`: those around the body, innermost
/// first, and those that were declared in it, innermost last.
#[derive(Drop)]
pub(crate) struct Scope<'b> {
    pub(crate) alloc: Global,
    pub(crate) base: &'b [u32],
    pub(crate) own: Vec<u32>,
}
