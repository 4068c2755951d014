ghost use Rattle.java_nodes.specs.Laws.{SpotsAreNodes};

/// The spot at a place of a unit is that of the node there.
#[tactic(auto, using(crate::proofs::Leading::spot_of_node))]
pub fn spots_are_nodes()
    ensures { SpotsAreNodes }
{}
