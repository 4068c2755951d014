ghost use Rattle.std.specs.Prelude.{◌≡◌};
ghost use Rattle.java_nodes.specs.Holes.{top_holes};

use java_tree::Unit;

/// A unit as a node, with the `{` of each of its top-level types.
#[derive(Clone, Copy)]
pub struct Root<'a> {
    /// The unit.
    pub unit: &'a Unit,
    pub(crate) holes: &'a [u32],
    ghost top: { holes.now ≡ top_holes unit.now.declarations },
}
