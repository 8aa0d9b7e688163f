//! The pairs with which the waiting relation begins: each result of a sort, by each inherited value that is guarded.
ghost use Rattle.std.specs.Prelude.{◌≡◌, ◌↔◌, ◌≤◌, ◌<◌, ℕ, length, slice_get, Some, IfOk, IsTrue};
ghost use Rattle.aw_term.specs.Views.{pattern_of};
ghost use Rattle.aw_grammar.specs.GrammarView.{rule_of};
ghost use Rattle.aw_grammar.specs.GrammarOf.{grammar_of};
ghost use Rattle.aw_accept.specs.Acyclic.{gives};
ghost use Rattle.aw_iograph.specs.Pairs.{Has, HasSort, IsFor, IsNumber};
ghost use Rattle.aw_wait.specs.Waiting.{Looks, IsHeldUp};
ghost use Rattle.aw_wait.specs.Seeding.{Adds, AtValue, AtPattern, IsHeldUpBy};

use aw_grammar::{Grammar, Pattern, Rule};
use aw_iograph::Io;
use std::alloc::{AllocError, Global};

/// Whether a pattern is more than a variable, and so looks at the value.
fn looks(pattern: &Pattern) -> bool
    ensures { IsTrue result ↔ Looks (pattern_of pattern.now) }
{
    match pattern {
        Pattern::Var(_) => false,
        Pattern::Lit(_) | Pattern::Con(_, _) => true,
    }
}

/// Adds the pairs of an inherited value of a sort and each of so many results.
fn add_results(seed: &mut Io, sort: u16, count: u8, value: u8)
    requires sort { HasSort seed.old sort }
    requires inherited { IsNumber value }
    requires few { count ≤ 8 }
    ensures { Adds seed.old seed.new (AtValue sort count value) }
{
    for j in 0..count {
        seed.add(sort, value, j + 1);
    }
}

/// Adds the same pairs, where the pattern of the inherited value looks at it.
fn add_pattern(seed: &mut Io, sort: u16, count: u8, value: u8, pattern: &Pattern)
    requires sort { HasSort seed.old sort }
    requires inherited { IsNumber value }
    requires few { count ≤ 8 }
    ensures { Adds seed.old seed.new (AtPattern sort count value (pattern_of pattern.now)) }
{
    if looks(pattern) {
        add_results(seed, sort, count, value);
    }
}

/// How many results a sort gives: at most 8.
fn few_results(g: &Grammar, sort: u16) -> u8
    ensures value { result ≡ gives (grammar_of g.now) sort }
    ensures few { result ≤ 8 }
{
    g.gives(sort)
}

/// Adds what a rule holds up.
fn add_rule(g: &Grammar, rule: &Rule, seed: &mut Io)
    requires sort { HasSort seed.old rule.now.sort }
    requires few { length rule.now.patterns ≤ 8 }
    ensures { Adds seed.old seed.new (IsHeldUpBy (grammar_of g.now) (rule_of g.now.sorts rule.now)) }
{
    let count = few_results(g, rule.sort);
    for (at, pattern) in rule.patterns.as_slice().iter().enumerate() {
        add_pattern(seed, rule.sort, count, (at + 1) as u8, pattern);
    }
}

/// A rule of a grammar, with what every rule keeps.
fn kept_rule(g: &Grammar, rule: usize) -> &Rule
    requires { rule < length g.now.rules }
    ensures value { slice_get g.now.rules rule ≡ Some result.now }
    ensures few { length result.now.patterns ≤ 8 }
    ensures declared { result.now.sort < length g.now.sorts }
{
    g.rules.at(rule)
}

/// Each result of a sort is held up by each inherited value that is guarded.
pub(crate) fn held_up(alloc: Global, g: &Grammar) -> Result<Io, AllocError>
    ensures made { IfOk result (λ seed. IsFor g.now seed) }
    ensures exact { IfOk result (λ seed. (s i j : ℕ) → Has seed s i j ↔ IsHeldUp (grammar_of g.now) s i j) }
{
    let mut seed = Io::new(alloc, g)?;
    for rule in 0..g.rules.len() {
        add_rule(g, kept_rule(g, rule), &mut seed);
    }
    Ok(seed)
}
