//! The nodes that a workspace holds, each with those for results of which its rules wait.
ghost use Rattle.std.specs.Prelude.{◌≡◌, IfOk, map as list_map};
ghost use Rattle.aw_choice.specs.ChoiceView.{item_of};
ghost use Rattle.aw_node_list.specs.HeldView.{all_of};
ghost use Rattle.aw_node_list.specs.InOrder.{IsInOrder};
ghost use Rattle.aw_law_sites.specs.Worklists.{site_worklist};
ghost use Rattle.aw_store.specs.Equations.{Map};
ghost use Rattle.aw_term.specs.Rules.{Grammar};
ghost use Rattle.aw_world_waits.specs.Waiters.{waited_in};
ghost use Rattle.aw_world_waits.specs.Blocks.{waiter_at};

use crate::items::{count_of, waited_in};
use aw_choice::Item;
use aw_list::Items;
use aw_name::{Node, copy_node};
use aw_node_list::Holding;
use std::alloc::{AllocError, Global};

/// A held node, and the nodes for results of which its rules wait.
#[derive(Drop)]
pub(crate) struct Waiter {
    pub(crate) node: Node,
    pub(crate) on: Items<Node>,
}

/// A held node, of which these are the items.
fn waiter_of(alloc: Global, node: &Node, items: &[Item]) -> Result<Waiter, AllocError>
    ensures { IfOk result (λ made. made ≡ record { node = node.now; on = waited_in (list_map item_of items.now) }) }
{
    Ok(Waiter {
        node: copy_node(node)?,
        on: waited_in(alloc, items)?,
    })
}

/// Each of the nodes that a workspace holds, of which these are all items.
pub(crate) fn waiters(
    alloc: Global,
    nodes: &Holding,
    items: &[Item],
) -> Result<Items<Waiter>, AllocError>
    requires { IsInOrder nodes.now.items }
    ensures { IfOk result (λ made. (g : Grammar) (k : Map) → list_map item_of items.now ≡ site_worklist g k (all_of g nodes.now.items) → made ≡ list_map (waiter_at g k) (all_of g nodes.now.items)) }
{
    let mut made = Items::new(alloc);
    let mut rest = items;
    for place in 0..nodes.len() {
        let node = &nodes.at(place).node;
        let (own, later) = rest.split_at(count_of(rest, node));
        made.push(waiter_of(alloc, node, own)?)?;
        rest = later;
    }
    Ok(made)
}
