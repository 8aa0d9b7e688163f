//! The open nodes of several workspaces in one order.
ghost use Rattle.std.specs.Prelude.{◌≡◌, ◌++◌, ◌∷◌, [], None, IfOk, IfSome, OnOk, drop};
ghost use Rattle.aw_node_list.specs.HeldView.{all_of, state_of};
ghost use Rattle.aw_term.specs.Rules.{Grammar as PlainGrammar};
ghost use Rattle.aw_world.specs.Merged.{merged, nodes_of};
ghost use Rattle.aw_world.specs.NodeLists.{AreOrdered, put_among, is_first_next};
ghost use Rattle.aw_world.specs.Opened.{open_on, open_nodes};

use crate::workspace::Workspace;
use aw_name::{Node, copy_node};
use aw_node_list::{Held, Holding};
use aw_term::order::is_before;
use std::alloc::{AllocError, Global};

/// How many nodes of two lists were passed.
#[derive(Clone, Copy, Debug)]
struct Passed {
    mine: usize,
    others: usize,
}

/// Adds a node where it is open.
fn push_open(nodes: &mut Vec<Node>, held: &Held) -> Result<(), AllocError>
    ensures { OnOk result (nodes.new.items ≡ nodes.old.items ++ open_on (state_of held.now.done) held.now.node []) }
{
    match &held.done {
        Some(_) => Ok(()),
        None => {
            nodes.push(copy_node(&held.node)?)?;
            Ok(())
        }
    }
}

/// The open nodes among those of a workspace, in order.
fn opens_of(alloc: Global, held: &Holding) -> Result<Vec<Node>, AllocError>
    ensures { IfOk result (λ nodes. (g : PlainGrammar) → nodes.items ≡ open_nodes (all_of g held.now.items)) }
{
    let mut nodes = Vec::new(alloc);
    for place in 0..held.len() {
        push_open(&mut nodes, held.at(place))?;
    }
    Ok(nodes)
}

/// Whether the first list's node comes next of what is left of two lists.
fn is_first_next(mine: &[Node], others: &[Node], passed: &Passed) -> bool
    ensures { result ≡ is_first_next (drop passed.now.mine mine.now) (drop passed.now.others others.now) }
{
    let Some(node) = mine.get(passed.mine) else {
        return false;
    };
    match others.get(passed.others) {
        Some(other) => is_before(node, other),
        None => true,
    }
}

/// The node at a place, which is passed.
fn pass<'n>(nodes: &'n [Node], place: &mut usize) -> Option<&'n Node>
    ensures none { result ≡ None → drop place.old nodes.now ≡ [] }
    ensures some { IfSome result (λ node. drop place.old nodes.now ≡ node.now ∷ drop place.new nodes.now) }
{
    let node = nodes.get(*place)?;
    *place += 1;
    Some(node)
}

/// The next node of what is left of two lists in order, which is passed.
fn take_next<'n>(mine: &'n [Node], others: &'n [Node], passed: &mut Passed) -> Option<&'n Node>
    requires { AreOrdered mine.now }
    ensures none { result ≡ None → put_among (drop passed.old.mine mine.now) (drop passed.old.others others.now) ≡ [] }
    ensures some { IfSome result (λ node. put_among (drop passed.old.mine mine.now) (drop passed.old.others others.now) ≡ node.now ∷ put_among (drop passed.new.mine mine.now) (drop passed.new.others others.now)) }
{
    if is_first_next(mine, others, passed) {
        pass(mine, &mut passed.mine)
    } else {
        pass(others, &mut passed.others)
    }
}

/// The nodes of two lists in one order, of equal ones that of the second first.
fn merge(alloc: Global, mine: &[Node], others: &[Node]) -> Result<Vec<Node>, AllocError>
    requires { AreOrdered mine.now }
    ensures { IfOk result (λ nodes. nodes.items ≡ put_among mine.now others.now) }
{
    let mut nodes = Vec::new(alloc);
    let mut passed = Passed { mine: 0, others: 0 };
    while let Some(node) = take_next(mine, others, &mut passed) {
        nodes.push(copy_node(node)?)?;
    }
    Ok(nodes)
}

/// These nodes with the open ones of a workspace, in one order.
fn with_opens<W: Workspace>(
    alloc: Global,
    site: &W,
    nodes: Vec<Node>,
) -> Result<Vec<Node>, AllocError>
    ensures { IfOk result (λ all. (g : PlainGrammar) → all.items ≡ put_among (open_nodes (all_of g (W.its_nodes site.now))) nodes.items) }
{
    let mine = opens_of(alloc, site.nodes())?;
    if mine.is_empty() {
        return Ok(nodes);
    }
    merge(alloc, mine.as_slice(), nodes.as_slice())
}

/// The open nodes of all workspaces in order. Nodes that are done are passed over where they stand, and not put in order.
pub(crate) fn open_all<W: Workspace>(alloc: Global, sites: &[W]) -> Result<Vec<Node>, AllocError>
    ensures { IfOk result (λ nodes. (g : PlainGrammar) → nodes.items ≡ open_nodes (all_of g (merged (nodes_of ⟦<W as Workspace>⟧ sites.now)))) }
{
    let mut nodes = Vec::new(alloc);
    let mut at = sites.len();
    while at > 0 {
        at -= 1;
        nodes = with_opens(alloc, &sites[at], nodes)?;
    }
    Ok(nodes)
}
