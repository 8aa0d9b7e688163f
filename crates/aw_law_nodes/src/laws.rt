//! The laws of nodes, of crashes and of couriers. They stand on what `aw_law_worlds` says of every world.
ghost use Rattle.aw_law_nodes.specs.Couriers.{BytesAreHeard, QuietMeansQuiet};
ghost use Rattle.aw_law_nodes.specs.Crashes.{CrashesLeaveAWorld, InvariantAfterCrashes, KeptEvents, SitesAreTheirEvents};
ghost use Rattle.aw_law_nodes.specs.Encodable.{MessagesAreEncodable, BytesAreHonest};
ghost use Rattle.aw_law_nodes.specs.Ending.{RoundsAreBounded};
ghost use Rattle.aw_law_nodes.specs.Nodes.{MessagesAreOutboxes, OwnSessions, ServedNodes, ServedReplies};
ghost use Rattle.aw_law_sites.specs.Laws.{IsAccepted};
ghost use Rattle.aw_term.specs.Artifacts.{Words};
ghost use Rattle.aw_term.specs.Rules.{Grammar};

use aw_law_worlds::laws::{merge_laws, world_laws};

/// Where nodes are asked honest frames, in any order, what happens at them is a list of events of one world, whose sites they then
/// have (`served`), and their replies to pushes and choices are those of that world (`replies`). The site and the replies of each
/// node are those of its own session (`own`). The messages of a world are those of the outboxes of its sites, by sender (`outboxes`).
pub fn node_laws()
    ensures served { (words : Words) (g : Grammar) → IsAccepted words g → ServedNodes g }
    ensures replies { (words : Words) (g : Grammar) → IsAccepted words g → ServedReplies g }
    ensures own { (g : Grammar) → OwnSessions g }
    ensures outboxes { (words : Words) (g : Grammar) → IsAccepted words g → MessagesAreOutboxes g }
{
    world_laws();
}

/// Where a site may go back to its first events, if none that it loses sent a message that was delivered, what remains is a world
/// without crashes (`world`), of which all laws of worlds hold (`invariant`), and each site is what its own events make of an empty
/// one (`own`). The site of a node after a session is what the events that it keeps make of it (`kept`).
pub fn crash_laws()
    ensures world { (g : Grammar) → CrashesLeaveAWorld g }
    ensures own { (g : Grammar) → SitesAreTheirEvents g }
    ensures invariant { (words : Words) (g : Grammar) → IsAccepted words g → InvariantAfterCrashes g }
    ensures kept { (g : Grammar) → KeptEvents g }
{
    world_laws();
}

/// Where a courier says that all is quiet, over a wire that is honest, and no choice was made once its last round began, the sites
/// that it asked are those of one world, and that world is quiet (`quiet`). Where the bytes of the replies that it heard begin the
/// bytes that the sites reply, so do the replies (`bytes`). Where no choice is made meanwhile it comes to an end, whatever the limits of
/// a turn: the rounds in which something moves are at most twice as many as the bound on the messages of the world (`ends`). Where each
/// choice has its sizes, each message of a world is one of the program (`encodable`), and so each message that is pushed has bytes, and what
/// is read in bytes begins what the sites reply wherever it does so once each of these messages and replies has bytes (`honest`).
pub fn courier_laws()
    ensures quiet { (words : Words) (g : Grammar) → IsAccepted words g → QuietMeansQuiet g }
    ensures bytes { BytesAreHeard }
    ensures ends { (words : Words) (g : Grammar) → IsAccepted words g → RoundsAreBounded g }
    ensures encodable { (words : Words) (g : Grammar) → IsAccepted words g → MessagesAreEncodable g }
    ensures honest { (words : Words) (g : Grammar) → IsAccepted words g → BytesAreHonest g }
{
    world_laws();
    merge_laws();
}
