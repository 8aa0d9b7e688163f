//! The lines of rules.
ghost use Rattle.std.specs.Prelude.{◌≡◌, ◌++◌, ◌∷◌, ◌≤◌, ◌<◌, [], OnOk, IfSome, IfOk, codes, map, length, slice_get, drop};
ghost use Rattle.std.specs.Option.{option_copied};
ghost use Rattle.aw_term.specs.Rules.{get};
ghost use Rattle.aw_term.specs.Rules as P;
ghost use Rattle.aw_term.specs.Choices.{gives_of};
ghost use Rattle.aw_term.specs.Views.{pattern_of, term_of};
ghost use Rattle.aw_term.specs.WellFormed.{Each, outs_of};
ghost use Rattle.aw_grammar.specs.GrammarOf.{words_of, entry, declarations_of};
ghost use Rattle.aw_grammar.specs.GrammarView.{sorts_of, child_of, rule_of};
ghost use Rattle.aw_grammar.specs.Declarations.{Entry};
ghost use Rattle.aw_spec.specs.Lines.{RuleLine};
ghost use Rattle.aw_spec_writer.specs.ChildTexts.{text_with, text_of_next};
ghost use Rattle.aw_spec_writer.specs.LineTexts.{params_text, children_text, text_of_lines};
ghost use Rattle.aw_spec_writer.specs.SpecLines.{sides_text, named_children, later_variables, named_rule, rule_lines};
ghost use Rattle.aw_spec_writer.specs.Writable.{NumbersFit, SmallNumbers};

use crate::names::{push_names, push_params, split_names};
use crate::terms::{push_patterns, push_terms};
use aw_base::{Child, Grammar, Rule, sort_name};
use aw_list::Text;
use std::alloc::AllocError;

/// How many results a sort gives.
fn gives_of(g: &Grammar, sort: u16) -> usize
    ensures value { result ≡ gives_of (slice_get (sorts_of g.now.sorts) sort) }
    ensures few { result < 256 }
{
    match g.sort(sort) {
        Some(sort) => usize::from(sort.gives),
        None => 0,
    }
}

/// How many results some children give together.
fn outs_of(g: &Grammar, children: &[Child]) -> usize
    requires { length children.now ≤ 8 }
    ensures value { result ≡ outs_of (map (child_of g.now.sorts) children.now) }
    ensures few { result ≤ 2048 }
{
    let mut outs = 0;
    for child in children {
        outs += gives_of(g, child.sort);
    }
    outs
}

/// The names of a rule's parameters, and then of its children's results.
fn later_variables<'a>(g: &Grammar, rule: &'a Rule) -> &'a [Text]
    requires { length rule.now.children ≤ 8 }
    ensures { result.now ≡ later_variables (entry g.now.sorts rule.entry.now) }
{
    let later = usize::from(rule.params) + outs_of(g, rule.children.as_slice());
    let (_, names) = split_names(rule.vars.as_slice(), rule.vars.len().saturating_sub(later));
    names
}

/// Adds a child, whose results have these names.
fn push_child(
    text: &mut Text,
    g: &Grammar,
    vars: &[Text],
    child: &Child,
    results: &[Text],
) -> Result<(), AllocError>
    ensures text { OnOk result (text.new ≡ text.old ++ text_with g.now vars.now child.now results.now) }
    ensures numbers { OnOk result (Each NumbersFit (map term_of child.now.args)) }
{
    text.push_bytes(sort_name(g, child.sort))?;
    text.push_bytes(b"(")?;
    push_terms(text, g, vars, &child.args)?;
    text.push_bytes(b")<")?;
    push_names(text, results)?;
    text.push_bytes(b">")
}

/// Adds a separator and a child, whose results have the first of the names that are left. Gives the names behind these.
fn push_next<'a>(
    text: &mut Text,
    g: &Grammar,
    vars: &[Text],
    separator: &[u8],
    left: &'a [Text],
    child: &Child,
) -> Result<&'a [Text], AllocError>
    ensures text { OnOk result (text.new ≡ text.old ++ (separator.now ++ text_of_next g.now vars.now child.now left.entry.now)) }
    ensures left { IfOk result (λ rest. rest.now ≡ drop (child_of g.now.sorts child.now).outs left.entry.now) }
    ensures numbers { OnOk result (Each NumbersFit (map term_of child.now.args)) }
{
    let (results, rest) = split_names(left, gives_of(g, child.sort));
    text.push_bytes(separator)?;
    push_child(text, g, vars, child, results)?;
    Ok(rest)
}

/// Adds the children of a rule behind `=`, whose results have these names, or nothing where there are none.
fn push_children(
    text: &mut Text,
    g: &Grammar,
    vars: &[Text],
    results: &[Text],
    children: &[Child],
) -> Result<(), AllocError>
    ensures text { OnOk result (text.new ≡ text.old ++ children_text (named_children (words_of g.now).cons (words_of g.now).sorts vars.now results.now (map (child_of g.now.sorts) children.now))) }
    ensures numbers { OnOk result (Each (λ (c : P.Child). Each NumbersFit c.args) (map (child_of g.now.sorts) children.now)) }
{
    let mut separator = b" = ".as_slice();
    let mut left = results;
    for child in children {
        left = push_next(text, g, vars, separator, left, child)?;
        separator = b" ; ";
    }
    Ok(())
}

/// Adds a rule up to its sort.
fn push_head(text: &mut Text, g: &Grammar, rule: &Rule, params: &[Text]) -> Result<(), AllocError>
    ensures { OnOk result (text.new ≡ text.old ++ (codes "rule " ++ (rule.now.name ++ (params_text params.now ++ (codes " : " ++ get [] (words_of g.now).sorts rule.now.sort))))) }
{
    text.push_bytes(b"rule ")?;
    text.push_bytes(rule.name.as_slice())?;
    push_params(text, params)?;
    text.push_bytes(b" : ")?;
    text.push_bytes(sort_name(g, rule.sort))
}

/// Adds the patterns and the results of a rule.
fn push_both(text: &mut Text, g: &Grammar, rule: &Rule) -> Result<(), AllocError>
    ensures text { OnOk result (text.new ≡ text.old ++ sides_text (words_of g.now).cons rule.now.vars (map pattern_of rule.now.patterns) (map term_of rule.now.results)) }
    ensures patterns { OnOk result (Each NumbersFit (map pattern_of rule.now.patterns)) }
    ensures results { OnOk result (Each NumbersFit (map term_of rule.now.results)) }
{
    let vars = rule.vars.as_slice();
    text.push_bytes(b"(")?;
    push_patterns(text, g, vars, &rule.patterns)?;
    text.push_bytes(b")<")?;
    push_terms(text, g, vars, &rule.results)?;
    text.push_bytes(b">")
}

/// Adds the line of a rule.
fn push_rule(text: &mut Text, g: &Grammar, rule: &Rule) -> Result<(), AllocError>
    requires { length rule.now.children ≤ 8 }
    ensures text { OnOk result (text.new ≡ text.old ++ text_of_lines (RuleLine (named_rule (words_of g.now).cons (words_of g.now).sorts (entry g.now.sorts rule.now)) ∷ [])) }
    ensures numbers { OnOk result (SmallNumbers (rule_of g.now.sorts rule.now)) }
{
    let vars = rule.vars.as_slice();
    let children = rule.children.as_slice();
    let (params, results) = split_names(later_variables(g, rule), usize::from(rule.params));
    push_head(text, g, rule, params)?;
    push_both(text, g, rule)?;
    push_children(text, g, vars, results, children)?;
    text.push_bytes(b"\n")
}

/// A rule by its number, from 0.
fn declared_rule(g: &Grammar, number: u16) -> Option<&Rule>
    ensures value { option_copied result ≡ slice_get g.now.rules number }
    ensures few { IfSome result (λ r. length r.now.children ≤ 8) }
    ensures below { IfSome result (λ r. number ≤ 1023) }
{
    g.rule(number)
}

/// Adds the lines of all rules.
pub(crate) fn push_rules(text: &mut Text, g: &Grammar) -> Result<(), AllocError>
    ensures text { OnOk result (text.new ≡ text.old ++ text_of_lines (rule_lines (declarations_of g.now))) }
    ensures numbers { OnOk result (Each (λ (e : Entry). SmallNumbers e.rule) (declarations_of g.now).rules) }
{
    let mut number = 0;
    while let Some(rule) = declared_rule(g, number) {
        push_rule(text, g, rule)?;
        number += 1;
    }
    Ok(())
}
