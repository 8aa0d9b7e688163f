//! Pairs of nodes, of which the one waits for the other.
use aw_list::Items;
use aw_name::{Node, copy_node};
use std::alloc::AllocError;

/// A pending node, and a pending node for a result of which a rule of the first waits.
#[derive(Debug, Clone, PartialEq, Eq, Drop)]
pub struct Pair {
    pub node: Node,
    pub on: Node,
}

/// Pairs, in the order of their first nodes, and those of one node by rule.
pub type Pairs = Items<Pair>;

ghost use Rattle.std.specs.Prelude.{◌≡◌, IfOk};

/// A pair of copies of these nodes.
pub(crate) fn pair_of(node: &Node, on: &Node) -> Result<Pair, AllocError>
    ensures { IfOk result (λ pair. pair ≡ record { node = node.now; on = on.now }) }
{
    Ok(Pair {
        node: copy_node(node)?,
        on: copy_node(on)?,
    })
}
