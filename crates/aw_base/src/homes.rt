//! The sort and the role of a node by the last step of its name alone, exact where the name is valid.
ghost use Rattle.std.specs.Prelude.{◌≡◌, true, Some, is_some};
ghost use Rattle.aw_term.specs.Rules.{sort_of_child, sort_at, role_of, home_at, sort_of, home_of};
ghost use Rattle.aw_grammar.specs.GrammarOf.{grammar_of};

use crate::names::sort_of_child;
use aw_grammar::Grammar;
use aw_name::{Node, Step};

/// The sort of the child that a step names; 0 where there is none.
fn sort_behind(g: &Grammar, step: &Step) -> u16
    ensures { result ≡ sort_of_child (grammar_of g.now) step.now }
{
    match g.rule(step.rule) {
        Some(rule) => sort_of_child(&rule.children, step.child).unwrap_or(0),
        None => 0,
    }
}

/// The sort of a node by the last step of its name. Where the name is valid it is the node's sort.
pub fn sort_at(g: &Grammar, n: &Node) -> u16
    ensures { result ≡ sort_at (grammar_of g.now) n.now }
{
    match n.steps.as_slice().last() {
        Some(step) => sort_behind(g, step),
        None => n.start,
    }
}

/// The role of a sort; 0 where it is not declared.
pub fn role_of(g: &Grammar, sort: u16) -> u16
    ensures { result ≡ role_of (grammar_of g.now).sorts sort }
{
    match g.sort(sort) {
        Some(sort) => sort.role,
        None => 0,
    }
}

/// The role of a node by the last step of its name. Where the name is valid the node is worked on there.
pub fn home_at(g: &Grammar, n: &Node) -> u16
    ensures { result ≡ home_at (grammar_of g.now) n.now }
{
    role_of(g, sort_at(g, n))
}

/// The role at which a node is worked on, where its name is valid. Only its last step is looked at.
pub fn home_of_valid(g: &Grammar, n: &Node) -> u16
    requires { is_some (sort_of (grammar_of g.now) n.now) ≡ true }
    ensures { home_of (grammar_of g.now) n.now ≡ Some result }
{
    home_at(g, n)
}
