//! What the items of a worklist wait for.
ghost use Rattle.std.specs.Prelude.{◌≡◌, ◌≤◌, IfOk, length, map};
ghost use Rattle.std.specs.List.{prefix_len};
ghost use Rattle.std.specs.Option.{option_copied};
ghost use Rattle.aw_choice.specs.ChoiceView.{item_of, refusal_of};
ghost use Rattle.aw_term.specs.Names.{node_eq};
ghost use Rattle.aw_world_waits.specs.Waiters.{waits_on, waited_in};

use aw_choice::{Item, Standing};
use aw_list::Items;
use aw_name::{Node, Ref, Slot, copy_node};
use aw_term::order::is_node;
use std::alloc::{AllocError, Global};

/// The node of a result; a part is none.
fn of_result(reference: &Ref) -> Option<&Node>
    ensures { option_copied result ≡ waits_on (refusal_of (Standing.Waits reference.now)) }
{
    match reference.slot {
        Slot::Result(_) => Some(&reference.node),
        Slot::Part(_) => None,
    }
}

/// The node for a result of which a rule waits, where it waits for one.
fn waited_on(state: &Standing) -> Option<&Node>
    ensures { option_copied result ≡ waits_on (refusal_of state.now) }
{
    match state {
        Standing::Waits(reference) => of_result(reference),
        Standing::Ready | Standing::Differs(_) | Standing::Circle(_) | Standing::TooDeep => None,
    }
}

/// How many items stand in front that are of this node.
pub(crate) fn count_of(items: &[Item], node: &Node) -> usize
    ensures value { result ≡ prefix_len (λ i. node_eq i.node node.now) items.now }
    ensures within { result ≤ length items.now }
{
    items
        .iter()
        .take_while(|item| is_node(&item.node, node))
        .count()
}

/// The nodes for results of which these items wait.
pub(crate) fn waited_in(alloc: Global, items: &[Item]) -> Result<Items<Node>, AllocError>
    ensures { IfOk result (λ nodes. nodes ≡ waited_in (map item_of items.now)) }
{
    let mut nodes = Items::new(alloc);
    for item in items {
        if let Some(node) = waited_on(&item.state) {
            nodes.push(copy_node(node)?)?;
        }
    }
    Ok(nodes)
}
