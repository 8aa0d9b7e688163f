//! A node that another role calls, as it is to be held.
ghost use Rattle.std.specs.Prelude.{◌≡◌, IfOk};
ghost use Rattle.aw_space.specs.Placings.{called_open};

use aw_name::{Node, Refs, copy_node};
use aw_node_list::Held;
use std::alloc::AllocError;

/// A called node, open.
pub fn called(node: &Node, inherited: &Refs) -> Result<Held, AllocError>
    ensures { IfOk result (λ h. h ≡ called_open node.now inherited.now) }
{
    Ok(Held {
        node: copy_node(node)?,
        inherited: inherited.clone()?,
        done: None,
    })
}
