//! The rules of a sort.
ghost use Rattle.std.specs.Prelude.{◌≡◌, ◌+◌, ◌++◌, IfOk, OnOk, drop, slice_get};
ghost use Rattle.aw_grammar.specs.GrammarOf.{grammar_of};
ghost use Rattle.aw_standing.specs.Records.{rules_of};
ghost use Rattle.aw_trial.specs.Turns.{params_of};

use aw_grammar::Grammar;
use std::alloc::{AllocError, Global};

/// Adds the number of a rule where it is of the sort.
fn push_rule(rules: &mut Vec<u16>, g: &Grammar, number: u16, sort: u16) -> Result<(), AllocError>
    ensures rules { OnOk result (rules.new.items ++ rules_of sort (number + 1) (drop (number + 1) (grammar_of g.now).rules)
        ≡ rules.old.items ++ rules_of sort number (drop number (grammar_of g.now).rules)) }
{
    let Some(rule) = g.rule(number) else {
        return Ok(());
    };
    if rule.sort == sort {
        rules.push(number)?;
    }
    Ok(())
}

/// The numbers of the rules of a sort, in order.
pub(crate) fn rules_of(alloc: Global, g: &Grammar, sort: u16) -> Result<Vec<u16>, AllocError>
    ensures { IfOk result (λ rules. rules.items ≡ rules_of sort 0 (grammar_of g.now).rules) }
{
    let mut rules = Vec::new(alloc);
    for number in 0..g.rules.len() {
        push_rule(&mut rules, g, number as u16, sort)?;
    }
    Ok(rules)
}

/// How many parameters a rule has, and 0 where it is not declared.
pub(crate) fn params_of(g: &Grammar, rule: u16) -> u8
    ensures { result ≡ params_of (slice_get (grammar_of g.now).rules rule) }
{
    match g.rule(rule) {
        Some(rule) => rule.params,
        None => 0,
    }
}
