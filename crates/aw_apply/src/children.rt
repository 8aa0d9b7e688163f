//! The children of a taken rule: their results, their nodes, and their inherited references.
ghost use Rattle.std.specs.Prelude.{◌≡◌, ◌<◌, ◌≤◌, ◌+◌, ◌++◌, ◌∷◌, [], List, IfOk, OnOk, length, map};
ghost use Rattle.aw_term.specs.Names.{below, result as result_ref};
ghost use Rattle.aw_term.specs.Rules.{upto};
ghost use Rattle.aw_term.specs.WellFormed.{child_symbols};
ghost use Rattle.aw_name.specs.Limits.{most_steps};
ghost use Rattle.aw_term.specs.Limits.{most_children};
ghost use Rattle.aw_grammar.specs.declared.rule.Sort.{Sort as SortValue};
ghost use Rattle.aw_grammar.specs.GrammarView.{child_of};
ghost use Rattle.aw_apply.specs.Made.{child_refs as plain_refs};
ghost use Rattle.aw_apply.specs.MadeView.{all_children, AreCalled};

use crate::laid::{LaidAll, lay_terms};
use crate::making::MadeChild;
use aw_base::{Child, Grammar, child_node};
use aw_name::{Node, Ref, Slot, copy_node};
use aw_store::{Equation, Refs};
use std::alloc::{AllocError, Global};

/// Adds the first results of a node.
fn push_results(refs: &mut Vec<Ref>, node: &Node, results: u8) -> Result<(), AllocError>
    ensures { OnOk result (refs.new.items ≡ refs.old.items ++ map (result_ref node.now) (upto 1 results)) }
{
    for j in 0..results {
        refs.push(Ref {
            node: copy_node(node)?,
            slot: Slot::Result(u16::from(j) + 1),
        })?;
    }
    Ok(())
}

/// The nodes of so many children of a rule, in order.
pub fn child_nodes(
    alloc: Global,
    node: &Node,
    rule: u16,
    count: usize,
) -> Result<Vec<Node>, AllocError>
    requires few { count ≤ most_children }
    requires room { 0 < count → length node.now.steps < most_steps }
    ensures { IfOk result (λ nodes. nodes.items ≡ map (below node.now rule) (upto 1 count)) }
{
    let mut nodes = Vec::with_capacity(alloc, count)?;
    for i in 0..count {
        nodes.push(child_node(node, rule, i as u8 + 1)?)?;
    }
    Ok(nodes)
}

/// Adds the results of a child at a node.
fn push_child_results(
    refs: &mut Vec<Ref>,
    g: &Grammar,
    node: &Node,
    child: &Child,
) -> Result<(), AllocError>
    ensures { OnOk result (refs.new.items ≡ refs.old.items ++ map (result_ref node.now) (upto 1 (child_of g.now.sorts child.now).outs)) }
{
    push_results(refs, node, g.gives(child.sort))
}

/// Adds the results of a rule's children, in order. These are their nodes.
pub fn push_children_results(
    refs: &mut Vec<Ref>,
    g: &Grammar,
    node: &Node,
    rule: u16,
    nodes: &[Node],
    children: &[Child],
) -> Result<(), AllocError>
    requires { nodes.now ≡ map (below node.now rule) (upto 1 (length children.now)) }
    ensures { OnOk result (refs.new.items ≡ refs.old.items ++ plain_refs node.now rule 1 (map (child_of g.now.sorts) children.now)) }
{
    for i in 0..children.len() {
        push_child_results(refs, g, &nodes[i], &children[i])?;
    }
    Ok(())
}

/// Children whose inherited values were laid down one after the other, and the next part number.
#[derive(Debug, Drop)]
pub struct Called {
    pub children: Vec<MadeChild>,
    pub next: u16,
}

impl Called {
    /// Nothing yet, with room for so many children; the next part has this number.
    fn with_capacity(alloc: Global, count: usize, next: u16) -> Result<Called, AllocError>
        ensures children { IfOk result (λ called. called.children.items ≡ []) }
        ensures next { IfOk result (λ called. called.next ≡ next) }
    {
        Ok(Called {
            children: Vec::with_capacity(alloc, count)?,
            next,
        })
    }

    /// One more child, whose inherited values were laid down.
    fn add(&mut self, node: Node, inherited: LaidAll) -> Result<(), AllocError>
        ensures children { OnOk result (self.new.children.items ≡ self.old.children.items ++ record { node = node; inherited = inherited.roots.items } ∷ []) }
        ensures next { OnOk result (self.new.next ≡ inherited.next) }
    {
        let LaidAll { roots, next } = inherited;
        let inherited = Refs::from_vec(roots)?;
        self.children.push(MadeChild { node, inherited })?;
        self.next = next;
        Ok(())
    }
}

/// The children of a rule with their inherited references, from part k on. These are their nodes.
pub fn lay_children(
    alloc: Global,
    equations: &mut Vec<Equation>,
    node: &Node,
    rule: u16,
    refs: &[Ref],
    k: u16,
    nodes: &[Node],
    children: &[Child],
) -> Result<Called, AllocError>
    requires nodes { nodes.now ≡ map (below node.now rule) (upto 1 (length children.now)) }
    requires parts { (sorts : List SortValue) → k + child_symbols (map (child_of sorts) children.now) ≤ 65535 }
    ensures { IfOk result (λ c. (sorts : List SortValue) → AreCalled equations.old.items equations.new.items c (all_children node.now rule refs.now k (map (child_of sorts) children.now))) }
{
    let mut called = Called::with_capacity(alloc, children.len(), k)?;
    for i in 0..children.len() {
        let below = copy_node(&nodes[i])?;
        let next = called.next;
        let args = children[i].args.as_slice();
        let inherited = lay_terms(alloc, equations, node, refs, next, args)?;
        called.add(below, inherited)?;
    }
    Ok(called)
}
