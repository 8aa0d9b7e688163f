//! Who waits for whom in a world.
ghost use Rattle.std.specs.Prelude.{◌≡◌, ◌++◌, ◌<◌, Some, IfOk, OnOk, map as list_map};
ghost use Rattle.aw_choice.specs.ChoiceView.{choice_of};
ghost use Rattle.aw_grammar.specs.GrammarOf.{grammar_of};
ghost use Rattle.aw_law_sites.specs.Worlds as V;
ghost use Rattle.aw_wait.specs.Waiting.{IsFreeOfWaiting};
ghost use Rattle.aw_world.specs.Opened.{AreAllInOrder};
ghost use Rattle.aw_world.specs.Shown.{Shows};
ghost use Rattle.aw_world_waits.specs.Blocks.{waiting, pair_on, pairs_with, waiters_at, waiters_in};
ghost use Rattle.aw_world_waits.specs.Laws.{StandThere, HaveNoCircle};

use crate::developed::is_developed;
use crate::pair::{Pairs, pair_of};
use crate::waiter::{Waiter, waiters};
use aw_list::Items;
use aw_name::Node;
use aw_world::{Spot, Workspace, World};
use std::alloc::AllocError;

/// The nodes that the workspace of a role holds.
fn waiters_of<W: Workspace>(world: &World<W>, role: u16) -> Result<Items<Waiter>, AllocError>
    requires { role < (grammar_of world.now.accepted.now.grammar).roles }
    ensures { IfOk result (λ made. (v : V.World) → Shows ⟦<W as Workspace>⟧ world.now v → made ≡ waiters_at (grammar_of world.now.accepted.now.grammar) v role) }
{
    let items = world.list(role)?;
    waiters(
        world.allocator(),
        world.site(role).nodes(),
        items.as_slice(),
    )
}

/// The nodes that the workspaces hold, role by role.
fn all_waiters<W: Workspace>(world: &World<W>) -> Result<Items<Items<Waiter>>, AllocError>
    ensures { IfOk result (λ all. (v : V.World) → Shows ⟦<W as Workspace>⟧ world.now v → all ≡ waiters_in (grammar_of world.now.accepted.now.grammar) v) }
{
    let mut all = Items::new(world.allocator());
    let count = world.accepted().grammar().roles.len();
    for role in 0..count {
        all.push(waiters_of(world, role as u16)?)?;
    }
    Ok(all)
}

/// Adds a node with one for which it waits, so long as no choice was taken on that.
fn push_pair<W: Workspace>(
    world: &World<W>,
    node: &Node,
    on: &Node,
    pairs: &mut Pairs,
) -> Result<(), AllocError>
    ensures { OnOk result (pairs.new ≡ pairs.old ++ pair_on (list_map choice_of world.now.taken.items) node.now (Some on.now)) }
{
    if is_developed(world, on) {
        return Ok(());
    }
    pairs.push(pair_of(node, on)?)?;
    Ok(())
}

/// Adds a node with each of those for which it waits, so long as no choice was taken on them.
fn push_pairs<W: Workspace>(
    world: &World<W>,
    waiter: &Waiter,
    pairs: &mut Pairs,
) -> Result<(), AllocError>
    ensures { OnOk result (pairs.new ≡ pairs.old ++ pairs_with (list_map choice_of world.now.taken.items) waiter.now.node waiter.now.on) }
{
    for on in waiter.on.as_slice() {
        push_pair(world, &waiter.node, on, pairs)?;
    }
    Ok(())
}

/// The pairs of the nodes that stand at these places.
fn pairs_at<W: Workspace>(
    world: &World<W>,
    all: &Items<Items<Waiter>>,
    spots: &[Spot],
) -> Result<Pairs, AllocError>
    requires spots { AreAllInOrder ⟦<W as Workspace>⟧ world.now.sites.items spots.now }
    requires all { (v : V.World) → Shows ⟦<W as Workspace>⟧ world.now v → all.now ≡ waiters_in (grammar_of world.now.accepted.now.grammar) v }
    ensures { IfOk result (λ pairs. (v : V.World) → Shows ⟦<W as Workspace>⟧ world.now v → pairs ≡ waiting (grammar_of world.now.accepted.now.grammar) v) }
{
    let mut pairs = Items::new(world.allocator());
    for spot in spots {
        let row = all.at(spot.site);
        push_pairs(world, row.at(spot.place), &mut pairs)?;
    }
    Ok(pairs)
}

/// The nodes that wait for others: for each open node in order, and each rule of its sort by position, the node for a result of
/// which the rule waits, so long as no choice was taken on that. The nodes are those of all roles; what a rule waits for is what the
/// workspace of its node knows. Each pair stands in the undivided configuration of the choices taken: there too the one pending node
/// waits for the other. Where the grammar is free of waiting, the pairs have no circle.
///
/// Want of memory is the only error.
pub fn waiting<W: Workspace>(world: &World<W>) -> Result<Pairs, AllocError>
    ensures exact { IfOk result (λ pairs. (v : V.World) → Shows ⟦<W as Workspace>⟧ world.now v → pairs ≡ waiting (grammar_of world.now.accepted.now.grammar) v) }
    ensures stand { IfOk result (λ pairs. StandThere (grammar_of world.now.accepted.now.grammar) (list_map choice_of world.now.taken.items) pairs) }
    ensures no_circle { IfOk result (λ pairs. IsFreeOfWaiting (grammar_of world.now.accepted.now.grammar) → HaveNoCircle pairs) }
{
    let all = all_waiters(world)?;
    let spots = world.in_order()?;
    pairs_at(world, &all, spots.as_slice())
}
