//! What a wire over offices does.
ghost use Rattle.aw_desk_wire.specs.Alike.{HonestAlike};
ghost use Rattle.aw_node.specs.TypedNodes.{Rules, answers};
ghost use Rattle.aw_desk_wire.specs.Quiet.{TurnsAreHonest, WorldIsHonest};
ghost use Rattle.aw_law_sites.specs.Laws.{IsAccepted};
ghost use Rattle.aw_term.specs.Artifacts.{Words};
ghost use Rattle.aw_desk_wire.specs.Shown.{ShowsBy};

use crate::desk::Desk;
use crate::office::Office;
use aw_law_nodes::laws::courier_laws;
use aw_law_worlds::laws::world_laws;

/// A wire that was honest for offices was honest for the plain sites that they show and the rules by which they answer: each whole frame that
/// was written in a session was asked of the site of its role, in order, what was read begins the replies, and the offices show then the
/// sites behind all that was asked.
pub fn offices_are_honest<'g>()
    ensures { (r : Rules) → HonestAlike (ShowsBy r) ⟦<Office<'g> as Desk>⟧.answers (answers r) }
{}

/// Turns of a courier that typed sites answered, as those of a `SiteWire` are by `offices_are_honest`, are honest as `aw_courier::carry` asks for it in
/// what Quiet means. At the sites of a world all of whose choices have their sizes they are so (`world`); at any sites where the requests of the
/// courier have bytes: each message that was pushed, and each place that was pulled from (`readable`).
pub fn turns_are_honest()
    ensures readable { (r : Rules) → TurnsAreHonest r }
    ensures world { (words : Words) (r : Rules) → IsAccepted words r.grammar → WorldIsHonest r }
{
    world_laws();
    courier_laws();
}
