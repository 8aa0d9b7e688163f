//! The record of a node that is to be held, made before anything changes.
ghost use Rattle.std.specs.Prelude.{◌≡◌, ◌+◌, ◌++◌, true, All, IfOk, OnOk, drop, is_some, length, map as list_map, slice_get};
ghost use Rattle.aw_term.specs.Rules.{sort_of as plain_sort_of};
ghost use Rattle.aw_term.specs.WellFormed.{takes_of};
ghost use Rattle.aw_grammar.specs.GrammarOf.{grammar_of};
ghost use Rattle.aw_node_list.specs.HeldView.{sort_or};
ghost use Rattle.aw_store.specs.NamedRefs.{Grows};
ghost use Rattle.aw_standing.specs.Records.{IsFit, IsOf, open_node, mark_rule, rules_of};
ghost use Rattle.aw_standing.specs.Tested.{IsFresh, IsUntested};

use crate::record::{Mark, Record, Stands};
use aw_base::{Grammar, sort_of};
use aw_name::{Node, Ref, Trail};
use aw_store::{Facts, intern_all};
use std::alloc::{AllocError, Global};

/// Adds a mark for the rule with this number, where it is of the sort.
fn push_mark(
    marks: &mut Vec<Mark>,
    grammar: &Grammar,
    number: u16,
    sort: u16,
) -> Result<(), AllocError>
    requires { All IsUntested marks.old.items }
    ensures rules { OnOk result (list_map mark_rule marks.new.items ++ rules_of sort (number + 1) (drop (number + 1) (grammar_of grammar.now).rules)
        ≡ list_map mark_rule marks.old.items ++ rules_of sort number (drop number (grammar_of grammar.now).rules)) }
    ensures untested { All IsUntested marks.new.items }
{
    let Some(rule) = grammar.rule(number) else {
        return Ok(());
    };
    if rule.sort == sort {
        marks.push(Mark {
            rule: number,
            stands: Stands::TooDeep,
        })?;
    }
    Ok(())
}

/// A mark for each rule of a sort, in order. None of them was tested: until then each stands as too deep.
fn marks_for(alloc: Global, grammar: &Grammar, sort: u16) -> Result<Vec<Mark>, AllocError>
    ensures rules { IfOk result (λ ms. list_map mark_rule ms.items ≡ rules_of sort 0 (grammar_of grammar.now).rules) }
    ensures untested { IfOk result (λ ms. All IsUntested ms.items) }
{
    let mut marks = Vec::new(alloc);
    for number in 0..grammar.rules.len() {
        push_mark(&mut marks, grammar, number as u16, sort)?;
    }
    Ok(marks)
}

/// The record of a node that is to be held, with the marks of the rules of its sort, which are to be tested. Its references are
/// named. An error may have named some.
pub fn prepare<F: Facts>(
    alloc: Global,
    grammar: &Grammar,
    facts: &mut F,
    node: &Node,
    inherited: &[Ref],
) -> Result<Record, AllocError>
    requires valid { is_some (plain_sort_of (grammar_of grammar.now) node.now) ≡ true }
    requires takes { length inherited.now ≡ takes_of (slice_get (grammar_of grammar.now).sorts (sort_or (plain_sort_of (grammar_of grammar.now) node.now))) }
    ensures of_node { IfOk result (λ x. IsOf (grammar_of grammar.now) (F.names facts.new) (open_node node.now inherited.now) x) }
    ensures fit { IfOk result (λ x. IsFit (grammar_of grammar.now) (F.names facts.new) x) }
    ensures fresh { IfOk result (λ x. IsFresh x) }
    ensures map { F.map facts.new ≡ F.map facts.old }
    ensures names { Grows (F.names facts.old) (F.names facts.new) }
{
    let Some(sort) = sort_of(grammar, node) else {
        unreachable!();
    };
    let marks = marks_for(alloc, grammar, sort)?;
    let slots = intern_all(alloc, facts, inherited)?;
    Ok(Record {
        slots,
        sort,
        deep: node.steps.len() == Trail::MOST,
        marks,
    })
}
