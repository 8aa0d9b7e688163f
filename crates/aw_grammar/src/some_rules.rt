//! The grammar of one role's rules alone.
ghost use Rattle.std.specs.Prelude.{◌≡◌, IfOk};
ghost use Rattle.aw_term.specs.Rules.{role_of, some_rules};
ghost use Rattle.aw_grammar.specs.GrammarView.{rule_of, sorts_of};
ghost use Rattle.aw_grammar.specs.GrammarOf.{grammar_of};
ghost use Rattle.aw_grammar.specs.SomeRules.{is_at, rules_at};

use crate::copies::{copy_cons, copy_names, copy_rule, copy_sorts};
use crate::grammar::Grammar;
use crate::rule::{Rule, Rules, Sorts};
use aw_list::Items;
use std::alloc::{AllocError, Global};

/// The role of a sort, or 0 where no such sort is declared.
fn role_of(sorts: &Sorts, sort: u16) -> u16
    ensures { result ≡ role_of (sorts_of sorts.now) sort }
{
    match sorts.get(usize::from(sort)) {
        Some(declared) => declared.role,
        None => 0,
    }
}

/// Whether a rule is at a role.
fn is_at(sorts: &Sorts, rule: &Rule, role: u16) -> bool
    ensures { result ≡ is_at (sorts_of sorts.now) role (rule_of sorts.now rule.now) }
{
    role_of(sorts, rule.sort) == role
}

/// Copies of the rules that are at a role, in their order.
fn rules_at(sorts: &Sorts, rules: &Rules, role: u16) -> Result<Rules, AllocError>
    ensures { IfOk result (λ kept. kept ≡ rules_at sorts.now role rules.now) }
{
    let mut kept = Items::new(rules.allocator());
    for rule in rules.as_slice() {
        if is_at(sorts, rule, role) {
            kept.push(copy_rule(rule)?)?;
        }
    }
    Ok(kept)
}

/// The same grammar with the rules of one role alone, in their order: those whose sort is that role's.
pub fn only_rules_of(alloc: Global, g: &Grammar, role: u16) -> Result<Grammar, AllocError>
    ensures roles { IfOk result (λ h. h.roles ≡ g.now.roles) }
    ensures cons { IfOk result (λ h. h.cons ≡ g.now.cons) }
    ensures sorts { IfOk result (λ h. h.sorts ≡ g.now.sorts) }
    ensures rules { IfOk result (λ h. h.rules ≡ rules_at g.now.sorts role g.now.rules) }
    ensures grammar { IfOk result (λ h. grammar_of h ≡ some_rules (is_at (grammar_of g.now).sorts role) (grammar_of g.now)) }
{
    let roles = copy_names(&g.roles)?;
    let cons = copy_cons(&g.cons)?;
    let sorts = copy_sorts(&g.sorts)?;
    let rules = rules_at(&g.sorts, &g.rules, role)?;
    let kept = Grammar::of_declared(alloc, roles, cons, sorts, rules)?;
    Ok(kept)
}
