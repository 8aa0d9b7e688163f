//! Which names of nodes and references are valid, where a node is worked on, and the nodes of a rule's children.
ghost use Rattle.std.specs.Prelude.{◌≡◌, ◌<◌, List, length, map, is_some, option_map, slice_get, IfOk};
ghost use Rattle.aw_term.specs.Names.{below};
ghost use Rattle.aw_term.specs.Rules.{child_at, sort_of_step, sort_after, sort_of, home_of};
ghost use Rattle.aw_name.specs.Limits.{most_steps};
ghost use Rattle.aw_grammar.specs.GrammarView.{child_of};
ghost use Rattle.aw_grammar.specs.declared.rule.Sort.{Sort};
ghost use Rattle.aw_grammar.specs.GrammarOf.{grammar_of};
ghost use Rattle.aw_base.specs.ChoiceFits.{slot_ok, ref_ok};

use aw_grammar::{Children, Grammar};
use aw_name::{Node, Ref, Slot, Step, copy_node};
use aw_term::limits::MOST_NODE_PARTS;
use std::alloc::AllocError;

/// The sort of the child with a number, from 1.
pub(crate) fn sort_of_child(children: &Children, number: u8) -> Option<u16>
    ensures { (sorts : List Sort) → result ≡ option_map (λ c. c.sort) (child_at (map (child_of sorts) children.now) number) }
{
    let at = number.checked_sub(1)?;
    let child = children.get(usize::from(at))?;
    Some(child.sort)
}

/// The sort of the child that a step from a sort names; `None` where the step does not fit.
pub(crate) fn sort_of_step(g: &Grammar, sort: u16, step: &Step) -> Option<u16>
    ensures { result ≡ sort_of_step (grammar_of g.now) sort step.now }
{
    let rule = g.rule(step.rule)?;
    if rule.sort == sort {
        sort_of_child(&rule.children, step.child)
    } else {
        None
    }
}

/// The sort after some steps; `None` where one does not fit.
fn sort_after(g: &Grammar, start: u16, steps: &[Step]) -> Option<u16>
    ensures { result ≡ sort_after (grammar_of g.now) start steps.now }
{
    let mut sort = start;
    for step in steps {
        sort = sort_of_step(g, sort, step)?;
    }
    Some(sort)
}

/// The sort of a node; `None` exactly where its name is not valid.
pub fn sort_of(g: &Grammar, n: &Node) -> Option<u16>
    ensures { result ≡ sort_of (grammar_of g.now) n.now }
{
    let start = g.sort(n.start)?;
    if start.start {
        sort_after(g, n.start, n.steps.as_slice())
    } else {
        None
    }
}

/// The node of a child, counted from 1, of a rule at this node.
pub fn child_node(node: &Node, rule: u16, child: u8) -> Result<Node, AllocError>
    requires { length node.now.steps < most_steps }
    ensures { IfOk result (λ n. n ≡ below node.now rule child) }
{
    let mut below = copy_node(node)?;
    below.steps.push(Step { rule, child })?;
    Ok(below)
}

/// The role of a sort, where it is declared.
fn role_of_sort(g: &Grammar, sort: u16) -> Option<u16>
    ensures { result ≡ option_map (λ s. s.role) (slice_get (grammar_of g.now).sorts sort) }
{
    let sort = g.sort(sort)?;
    Some(sort.role)
}

/// The role at which a node is worked on; `None` exactly where its name is not valid.
pub fn home_of(g: &Grammar, n: &Node) -> Option<u16>
    ensures value { result ≡ home_of (grammar_of g.now) n.now }
    ensures exact { is_some result ≡ is_some (sort_of (grammar_of g.now) n.now) }
{
    let sort = sort_of(g, n)?;
    role_of_sort(g, sort)
}

fn slot_ok(g: &Grammar, sort: u16, slot: Slot) -> bool
    ensures { result ≡ slot_ok (grammar_of g.now) (Some sort) slot }
{
    match slot {
        Slot::Result(number) => match g.sort(sort) {
            Some(sort) => number >= 1 && number <= u16::from(sort.gives),
            None => false,
        },
        Slot::Part(number) => number >= 1 && number <= MOST_NODE_PARTS,
    }
}

/// Whether a reference is valid: its node is, and it speaks of a result of the node's sort or of one of its parts, within their limit.
pub fn ref_ok(g: &Grammar, r: &Ref) -> bool
    ensures { result ≡ ref_ok (grammar_of g.now) r.now }
{
    match sort_of(g, &r.node) {
        Some(sort) => slot_ok(g, sort, r.slot),
        None => false,
    }
}
