//! The laws of a system, of every accepted grammar. They stand on what `aw_law_nodes` says of worlds with crashes.
ghost use Rattle.aw_law_sites.specs.Laws.{IsAccepted};
ghost use Rattle.aw_law_system.specs.Laws.{CrashesAreAllowed, JournalsAreJoint, SystemIsOneWorld, TakenRemains, WrittenStays};
ghost use Rattle.aw_law_system.specs.Resting.{QuietIsAtRest};
ghost use Rattle.aw_term.specs.Artifacts.{Words};
ghost use Rattle.aw_term.specs.Rules.{Grammar};
ghost use Rattle.aw_typed.specs.Types.{Types};

use aw_law_nodes::laws::crash_laws;
use aw_law_settling::laws::still_laws;
use aw_law_worlds::laws::{site_laws, world_laws};

/// Whatever is asked of nodes, however far each reply gets, whoever carries messages late and again, and whenever a node crashes: the
/// events that remain, each role's in their order, are those of one world, and the nodes have its sites (`world`). Its nodes are those of a world
/// with crashes in which no site that goes back loses an event that sent a delivered message (`crashes`). So the journals of all roles have
/// an order in which their events can have come (`joint`), and where those of some machines have none, one was set back or changed.
pub fn system_laws()
    ensures world { (words : Words) (g : Grammar) → IsAccepted words g → SystemIsOneWorld g }
    ensures crashes { (words : Words) (g : Grammar) → IsAccepted words g → CrashesAreAllowed g }
    ensures joint { (words : Words) (t : Types) (g : Grammar) → IsAccepted words g → JournalsAreJoint t g }
{
    world_laws();
    site_laws();
    crash_laws();
}

/// The events that a role has when a byte of a reply is written stay its first events, whatever happens later (`written`). So each choice
/// remains that was taken, and of whose answer a byte was written (`taken`).
pub fn written_laws()
    ensures written { (g : Grammar) → WrittenStays g }
    ensures taken { (words : Words) (g : Grammar) → IsAccepted words g → TakenRemains g }
{
    world_laws();
    site_laws();
    crash_laws();
}

/// Where a courier answers that all is quiet, whatever crashed and whoever else acted between its frames, and no choice was taken since
/// its last round began, the system is at rest, then and for as long as no choice is taken: no crash takes anything any more, each message in an
/// outbox is a repeat where it comes, and the nodes hold the undivided configuration of the choices that remain (`quiet`).
pub fn rest_laws()
    ensures quiet { (words : Words) (g : Grammar) → IsAccepted words g → QuietIsAtRest g }
{
    world_laws();
    crash_laws();
    still_laws();
}
