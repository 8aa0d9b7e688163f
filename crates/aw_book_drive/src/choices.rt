//! The role at which a choice is made.
ghost use Rattle.std.specs.Prelude.{◌≡◌, true};
ghost use Rattle.aw_base.specs.ChoiceFits.{choice_ok};
ghost use Rattle.aw_choice.specs.ChoiceView.{choice_of};
ghost use Rattle.aw_grammar.specs.GrammarOf.{grammar_of};
ghost use Rattle.aw_law_sites.specs.Homes.{home};
ghost use Rattle.aw_law_sites.specs.Worlds.{node_of};

use aw_base::{home_of, home_of_valid};
use aw_choice::Choice;
use aw_grammar::Grammar;
use aw_name::{Node, Trail};
use std::alloc::Global;

/// The role of a node, and 0 where its name is not valid.
pub(crate) fn role_at(g: &Grammar, node: &Node) -> u16
    ensures { result ≡ home (grammar_of g.now) node.now }
{
    match home_of(g, node) {
        Some(role) => role,
        None => 0,
    }
}

/// The role at which a choice that fits the grammar is made.
pub(crate) fn role_of(alloc: Global, g: &Grammar, choice: &Choice) -> u16
    requires { choice_ok (grammar_of g.now) (choice_of choice.now) ≡ true }
    ensures { result ≡ home (grammar_of g.now) (node_of (choice_of choice.now)) }
{
    match choice {
        Choice::Start { sort, case } => role_at(
            g,
            &Node {
                start: *sort,
                case: *case,
                steps: Trail::new(alloc),
            },
        ),
        Choice::Develop { node, .. } => home_of_valid(g, node),
    }
}
