//! On which nodes a choice was taken.
ghost use Rattle.std.specs.Prelude.{◌≡◌, map as list_map};
ghost use Rattle.aw_choice.specs.ChoiceView.{choice_of};
ghost use Rattle.aw_world_waits.specs.Waiters.{is_developed};

use crate::held::holds_done;
use aw_base::home_of;
use aw_name::Node;
use aw_world::{Workspace, World};

/// Whether a choice was taken on a node: its home holds it as developed.
pub(crate) fn is_developed<W: Workspace>(world: &World<W>, node: &Node) -> bool
    ensures { result ≡ is_developed (list_map choice_of world.now.taken.items) node.now }
{
    let g = world.accepted().grammar();
    let role = home_of(g, node).unwrap_or(0);
    if usize::from(role) < g.roles.len() {
        holds_done(world.site(role).nodes(), node)
    } else {
        false
    }
}
