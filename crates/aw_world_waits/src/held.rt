//! Which held nodes are developed.
ghost use Rattle.std.specs.Prelude.{◌≡◌};
ghost use Rattle.aw_node_list.specs.HeldView.{all_of};
ghost use Rattle.aw_node_list.specs.InOrder.{IsInOrder};
ghost use Rattle.aw_term.specs.Rules.{Grammar};
ghost use Rattle.aw_world_waits.specs.Waiters.{holds_done};

use aw_name::Node;
use aw_node_list::{Holding, find_held};

/// Whether a node is among these, and developed.
pub(crate) fn holds_done(held: &Holding, node: &Node) -> bool
    requires { IsInOrder held.now.items }
    ensures { (g : Grammar) → result ≡ holds_done node.now (all_of g held.now.items) }
{
    match find_held(held, node) {
        Some(at) => held.at(at).done.is_some(),
        None => false,
    }
}
