//! The rule that a written rule stands for.
ghost use Rattle.std.specs.Prelude.{◌≡◌, ◌≤◌, length, map, true, IfOk};
ghost use Rattle.aw_term.specs.Views.{pattern_of, term_of};
ghost use Rattle.aw_term.specs.Limits.{most_params};
ghost use Rattle.aw_grammar.specs.Written.{written_of, child_of_raw, rule_of_raw};
ghost use Rattle.aw_grammar.specs.Terms.{terms_of};
ghost use Rattle.aw_grammar.specs.Resolved.{entering, numbered, children_numbered};
ghost use Rattle.aw_grammar.specs.Declarations.{entry_of};
ghost use Rattle.aw_grammar.specs.Kinds.{rule_kind, children_fit, takes_and_gives, sort_called};
ghost use Rattle.aw_grammar.specs.Making.{AreNoCons, MakesChild, MakesChildren};
ghost use Rattle.aw_grammar.specs.Faultless.{all_faultless, is_faultless_rule, IsMade};
ghost use Rattle.aw_grammar.specs.GrammarView.{child_of};
ghost use Rattle.aw_grammar.specs.GrammarOf.{declarations_of, words_of, entry};
ghost use Rattle.aw_grammar.specs.Build.{Checked};

use crate::children::children_fit;
use crate::fault::{AddFault, DeclKind};
use crate::grammar::Grammar;
use crate::raw::{RawChild, RawChildren, RawRule};
use crate::resolve::{to_patterns, to_terms};
use crate::rule::{Child, Children, Names, Rule};
use crate::rule_kinds::{
    entering, head_fits, is_past_counts, is_past_terms, kind_of_names, late_kind,
};
use crate::variables::Variables;
use aw_list::Items;
use aw_term::{Patterns, Terms};
use std::alloc::AllocError;

fn to_child(
    grammar: &Grammar,
    variables: &Variables,
    child: &RawChild,
) -> Result<Option<Child>, AllocError>
    requires fits { takes_and_gives (sort_called child.now.sort grammar.now.sorts) (length (child_of_raw child.now).args) (length child.now.results) ≡ true }
    requires free { AreNoCons grammar.now variables.now.names }
    ensures { IfOk result (MakesChild grammar.now variables.now.names (child_of_raw child.now)) }
{
    let sort = grammar.sort_number(child.sort.as_slice());
    let Some(args) = to_terms(grammar, variables, &child.args)? else {
        return Ok(None);
    };
    Ok(Some(Child { sort, args }))
}

/// The children of written children, or `None` where an argument is at fault.
fn to_children(
    grammar: &Grammar,
    variables: &Variables,
    children: &RawChildren,
) -> Result<Option<Children>, AllocError>
    requires fit { children_fit grammar.now.sorts (map child_of_raw children.now) ≡ true }
    requires free { AreNoCons grammar.now variables.now.names }
    ensures { IfOk result (MakesChildren grammar.now variables.now.names (map child_of_raw children.now)) }
{
    let mut made = Items::from_vec(Vec::with_capacity(children.allocator(), children.len())?);
    for child in children.as_slice() {
        let Some(one) = to_child(grammar, variables, child)? else {
            return Ok(None);
        };
        made.push(one)?;
    }
    Ok(Some(made))
}

/// The rule of a written rule with what its terms and children stand for.
fn made_rule(
    grammar: &Grammar,
    rule: &RawRule,
    names: Names,
    patterns: Patterns,
    results: Terms,
    children: Children,
) -> Result<Rule, AllocError>
    requires few { length rule.now.params ≤ most_params }
    requires names { names ≡ entering (words_of grammar.now).cons (rule_of_raw rule.now) }
    requires patterns { map pattern_of patterns ≡ map (numbered (words_of grammar.now).cons names) (map written_of rule.now.patterns) }
    requires results { map term_of results ≡ map (numbered (words_of grammar.now).cons names) (map written_of rule.now.results) }
    requires children { map (child_of grammar.now.sorts) children ≡ children_numbered (words_of grammar.now) names (map child_of_raw rule.now.children) }
    ensures { IfOk result (λ r. entry grammar.now.sorts r ≡ entry_of (declarations_of grammar.now) (rule_of_raw rule.now)) }
{
    Ok(Rule {
        name: rule.name.clone()?,
        sort: grammar.sort_number(rule.sort.as_slice()),
        params: rule.params.len() as u8,
        vars: names,
        patterns,
        results,
        children,
    })
}

/// The rule of a written rule whose sizes, names and sorts are right, or `None` where a word in its terms is at fault.
fn to_rule(
    grammar: &Grammar,
    rule: &RawRule,
    names: Names,
    variables: &Variables,
) -> Result<Option<Rule>, AllocError>
    requires few { length rule.now.params ≤ most_params }
    requires children { children_fit grammar.now.sorts (map child_of_raw rule.now.children) ≡ true }
    requires names { names ≡ entering (words_of grammar.now).cons (rule_of_raw rule.now) }
    requires variables { variables.now.names ≡ names }
    requires free { AreNoCons grammar.now variables.now.names }
    ensures { IfOk result (IsMade (all_faultless grammar.now.cons names (terms_of (rule_of_raw rule.now))) (λ r. entry grammar.now.sorts r ≡ entry_of (declarations_of grammar.now) (rule_of_raw rule.now))) }
{
    let Some(patterns) = to_patterns(grammar, variables, &rule.patterns)? else {
        return Ok(None);
    };
    let Some(children) = to_children(grammar, variables, &rule.children)? else {
        return Ok(None);
    };
    let Some(results) = to_terms(grammar, variables, &rule.results)? else {
        return Ok(None);
    };
    Ok(Some(made_rule(grammar, rule, names, patterns, results, children)?))
}

/// The rule of a written rule whose sizes and names are right, or `None` where a sort or a word in its terms is at fault.
fn faultless_rule(
    grammar: &Grammar,
    rule: &RawRule,
    names: Names,
    variables: &Variables,
) -> Result<Option<Rule>, AllocError>
    requires few { length rule.now.params ≤ most_params }
    requires names { names ≡ entering (words_of grammar.now).cons (rule_of_raw rule.now) }
    requires variables { variables.now.names ≡ names }
    requires free { AreNoCons grammar.now variables.now.names }
    ensures { IfOk result (IsMade (is_faultless_rule (declarations_of grammar.now) (rule_of_raw rule.now)) (λ r. entry grammar.now.sorts r ≡ entry_of (declarations_of grammar.now) (rule_of_raw rule.now))) }
{
    if !head_fits(grammar, rule) {
        return Ok(None);
    }
    if !children_fit(grammar, &rule.children) {
        return Ok(None);
    }
    to_rule(grammar, rule, names, variables)
}

/// The rule of a written rule, or the first kind of fault in it. A rule without fault is looked through once; which fault it
/// is that stands in another is found by a walk for each kind, in their order.
pub(crate) fn checked_rule(grammar: &Grammar, rule: &RawRule) -> Result<Rule, AddFault>
    ensures { Checked (rule_kind (declarations_of grammar.now) (rule_of_raw rule.now)) (entry_of (declarations_of grammar.now) (rule_of_raw rule.now)) grammar.now.sorts result }
{
    if is_past_counts(grammar, rule) || is_past_terms(rule) {
        return Err(AddFault::Bad(DeclKind::Limit));
    }
    let names = entering(grammar, rule)?;
    if let Some(kind) = kind_of_names(grammar, rule, &names) {
        return Err(AddFault::Bad(kind));
    }
    let Some(variables) = Variables::of_names(names.allocator(), names.as_slice())? else {
        return Err(AddFault::Bad(late_kind(grammar, rule, DeclKind::Twice)));
    };
    match faultless_rule(grammar, rule, names, &variables)? {
        Some(made) => Ok(made),
        None => Err(AddFault::Bad(late_kind(grammar, rule, DeclKind::Never))),
    }
}
