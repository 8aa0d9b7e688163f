//! Rules of a grammar with what every one of them keeps.
ghost use Rattle.std.specs.Prelude.{◌≡◌, ◌<◌, length, slice_get, Some};
ghost use Rattle.aw_grammar.specs.GrammarView.{rule_of};
ghost use Rattle.aw_iograph.specs.Small.{IsSmall, HasFew};

use aw_grammar::{Grammar, Rule};

/// A rule of a grammar, with what every rule keeps.
pub(crate) fn small_rule(g: &Grammar, rule: usize) -> &Rule
    requires { rule < length g.now.rules }
    ensures value { slice_get g.now.rules rule ≡ Some result.now }
    ensures small { IsSmall result.now }
    ensures few { HasFew (rule_of g.now.sorts result.now) }
    ensures declared { result.now.sort < length g.now.sorts }
{
    g.rules.at(rule)
}
