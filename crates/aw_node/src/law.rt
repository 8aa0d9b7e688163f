//! What nodes do together.
ghost use Rattle.aw_law_sites.specs.Laws.{IsAccepted};
ghost use Rattle.aw_term.specs.Artifacts.{Words};
ghost use Rattle.aw_node.specs.Staying.{NodeStays};
ghost use Rattle.aw_node.specs.TypedNodes.{Rules};
ghost use Rattle.aw_node.specs.TypedRuns.{InTurn, AreOneWorld};

use aw_law_nodes::laws::node_laws;
use aw_law_worlds::laws::site_laws;

/// Frames that a node answers one by one get the replies to the list of them (`turn`). Where the nodes of all roles are asked honest
/// frames, in any order, what happens at them is a list of events of one world, whose sites they then have (`world`). Whatever frames
/// come, forged ones too, nothing that a node holds is taken away or contradicted (`stays`).
pub fn served_nodes()
    ensures turn { (r : Rules) → InTurn r }
    ensures world { (words : Words) (r : Rules) → IsAccepted words r.grammar → AreOneWorld r }
    ensures stays { (r : Rules) → NodeStays r }
{
    node_laws();
    site_laws();
}
