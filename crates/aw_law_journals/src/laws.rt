//! The laws of joined journals, of every accepted grammar and whatever types are declared. They stand on what `aw_law_worlds` says of
//! every world and of every site.
ghost use Rattle.aw_law_journals.specs.Circles.{StopsAtForgeryOrCircle};
ghost use Rattle.aw_law_journals.specs.Laws.{ForgedIsNotReached, JoinIsExact, JoinReaches, MessagesHaveCauses, OrderLeavesNoTrace, ReachIsGreatest, ReachIsUnique, SitesAreJournals};
ghost use Rattle.aw_law_sites.specs.Laws.{IsAccepted};
ghost use Rattle.aw_term.specs.Artifacts.{Words};
ghost use Rattle.aw_term.specs.Rules.{Grammar};
ghost use Rattle.aw_typed.specs.Types.{Types};

use aw_law_worlds::laws::{site_laws, world_laws};

/// In a world of all events of some journals each site is what its role's journal makes of an empty one (`sites`), so that all that
/// is known of sites of worlds is known of the workspaces that wrote the journals. Whichever order is taken, the sites are the same,
/// and the choices taken and the messages sent are too (`trace`).
pub fn order_laws()
    ensures sites { (words : Words) (t : Types) (g : Grammar) → IsAccepted words g → SitesAreJournals t g }
    ensures trace { (words : Words) (t : Types) (g : Grammar) → IsAccepted words g → OrderLeavesNoTrace t g }
{
    world_laws();
    site_laws();
}

/// The greedy join goes as far as the journals fit: it ends where no journal's next event is allowed (`reaches`). Whoever ends there,
/// whichever events were picked on the way, has an order of all events exactly where there is one (`exact`); nothing else goes
/// further in any journal (`greatest`), so that the place in each journal at which it ends is one (`unique`).
pub fn join_laws()
    ensures reaches { (words : Words) (t : Types) (g : Grammar) → IsAccepted words g → JoinReaches t g }
    ensures exact { (words : Words) (t : Types) (g : Grammar) → IsAccepted words g → JoinIsExact t g }
    ensures greatest { (words : Words) (t : Types) (g : Grammar) → IsAccepted words g → ReachIsGreatest t g }
    ensures unique { (words : Words) (t : Types) (g : Grammar) → IsAccepted words g → ReachIsUnique t g }
{
    world_laws();
    site_laws();
}

/// A message that its sender's journal does not send is in no order (`forged`). Each message before which the join ends was sent and
/// is nothing new to its role, or is of no event of its sender's journal, or is of one that did not come either (`causes`).
pub fn cause_laws()
    ensures forged { (words : Words) (t : Types) (g : Grammar) → IsAccepted words g → ForgedIsNotReached t g }
    ensures causes { (words : Words) (t : Types) (g : Grammar) → IsAccepted words g → MessagesHaveCauses t g }
{
    world_laws();
    site_laws();
}

/// Where journals that each make sense alone do not fit whole, one of them ends before a message that its sender's journal never sends, or they wait for
/// each other in a circle, as journals do of which one was set back (`stops`).
pub fn circle_law()
    ensures stops { (words : Words) (t : Types) (g : Grammar) → IsAccepted words g → StopsAtForgeryOrCircle t g }
{
    world_laws();
    site_laws();
}
