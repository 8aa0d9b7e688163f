//! What a choice of a rule leads to at an open row.
ghost use Rattle.std.specs.Prelude.{◌≡◌, ◌≤◌, IfOk, List, Some, true, length, map, slice_get};
ghost use Rattle.aw_term.specs.Matching.{Yes};
ghost use Rattle.aw_term.specs.Trees.{join};
ghost use Rattle.aw_term.specs.Choices.{Develop, after_guard, at_rule, outcome};
ghost use Rattle.aw_term.specs.WellFormed.{all_nesting};
ghost use Rattle.aw_term.specs.Views.{ground_of, pattern_of};
ghost use Rattle.aw_term.specs.Limits.{most_levels, most_inherited};
ghost use Rattle.aw_grammar.specs.declared.rule.Sort.{Sort as SortValue};
ghost use Rattle.aw_grammar.specs.GrammarView.{rule_of};
ghost use Rattle.aw_grammar.specs.GrammarOf.{grammar_of};
ghost use Rattle.aw_plain_rows.specs.TreeView.{values_of};
ghost use Rattle.aw_plain_rows.specs.RowView.{plain_row, config_of};
ghost use Rattle.aw_plain.specs.Filled.{AreFilled};
ghost use Rattle.aw_plain.specs.Ordered.{IsOrdered};
ghost use Rattle.aw_plain.specs.Narrow.{are_narrow};
ghost use Rattle.aw_plain.specs.OutcomeView.{outcome_of, IsTakable};

use crate::guard::{Guard, match_all};
use crate::row::find_row;
use aw_base::{Answer, Grammar, Ground, Rule};
use aw_name::{Node, Trail};
use aw_plain_rows::{Row, State, Trees};
use std::alloc::{AllocError, Global};

/// A refusal, or a rule with the values that its patterns bind.
#[derive(Debug, Drop)]
pub enum Outcome<'g> {
    Refused(Answer),
    Takes { rule: &'g Rule, bound: Trees },
}

/// A rule whose guard has given these values.
fn past_guard<'g>(node: &Node, rule: &'g Rule, bound: Trees) -> Outcome<'g>
    ensures value { (sorts : List SortValue) → outcome_of sorts result ≡ after_guard node.now (rule_of sorts rule.now) (Yes (values_of bound)) }
    ensures takable { IsTakable (λ r. r ≡ rule.now) node.now result }
{
    if node.steps.len() == Trail::MOST && !rule.children.is_empty() {
        Outcome::Refused(Answer::TooDeep)
    } else {
        Outcome::Takes { rule, bound }
    }
}

/// A rule at an open row.
fn weigh_rule<'g>(
    alloc: Global,
    rule: &'g Rule,
    node: &Node,
    args: &[Ground],
    row: &Row,
) -> Result<Outcome<'g>, AllocError>
    requires narrow { are_narrow (join (map pattern_of rule.now.patterns)) ≡ true }
    requires shallow { all_nesting (join (map pattern_of rule.now.patterns)) ≤ most_levels }
    requires few { length rule.now.patterns ≤ most_inherited }
    requires same { rule.now.sort ≡ row.now.sort → length rule.now.patterns ≡ length row.now.inherited }
    ensures value { IfOk result (λ o. (sorts : List SortValue) → outcome_of sorts o ≡ at_rule (Some (rule_of sorts rule.now)) node.now (map ground_of args.now) (plain_row row.now)) }
    ensures takable { IfOk result (λ o. IsTakable (λ r. r ≡ rule.now) node.now o) }
{
    if rule.sort != row.sort {
        return Ok(Outcome::Refused(Answer::NotItsRule));
    }
    if args.len() != usize::from(rule.params) {
        return Ok(Outcome::Refused(Answer::Arguments));
    }
    match match_all(alloc, rule.patterns.as_slice(), row.inherited.as_slice())? {
        Guard::Yes(bound) => Ok(past_guard(node, rule, bound)),
        Guard::Waits(on) => Ok(Outcome::Refused(Answer::Waits(on))),
        Guard::Differs(place) => Ok(Outcome::Refused(Answer::Differs(place))),
    }
}

/// What a choice of a rule leads to on these rows.
pub fn weigh<'g>(
    alloc: Global,
    grammar: &'g Grammar,
    rows: &[Row],
    node: &Node,
    number: u16,
    args: &[Ground],
) -> Result<Outcome<'g>, AllocError>
    requires filled { ∥ AreFilled (grammar_of grammar.now) (config_of rows.now) ∥₁ }
    requires ordered { IsOrdered (config_of rows.now) }
    ensures value { IfOk result (λ o. outcome_of grammar.now.sorts o ≡ outcome (grammar_of grammar.now) (config_of rows.now) (Develop node.now number (map ground_of args.now))) }
    ensures takable { IfOk result (λ o. IsTakable (λ r. slice_get grammar.now.rules number ≡ Some r) node.now o) }
{
    let row = match find_row(rows, node) {
        Some(row) => row,
        None => return Ok(Outcome::Refused(Answer::NotHere)),
    };
    if let State::Done { rule: _, args: _ } = &row.state {
        return Ok(Outcome::Refused(Answer::Developed));
    }
    match grammar.rule(number) {
        Some(rule) => weigh_rule(alloc, rule, node, args, row),
        None => Ok(Outcome::Refused(Answer::NotItsRule)),
    }
}
