//! The text of a rule as a graph: from where a variable enters to each occurrence whose term uses it.
ghost use Rattle.std.specs.Prelude.{◌≡◌, ◌++◌, ◌+◌, ◌<◌, ◌≤◌, ◌↔◌, map, length, replicate, Some, None, IfOk, OnOk, slice_get};
ghost use Rattle.aw_list.specs.Members.{Member};
ghost use Rattle.aw_term.specs.Rules as P;
ghost use Rattle.aw_term.specs.Rules.{upto};
ghost use Rattle.aw_term.specs.WellFormed.{leaves};
ghost use Rattle.aw_term.specs.Views.{pattern_of, term_of};
ghost use Rattle.aw_grammar.specs.GrammarView.{rule_of, child_of};
ghost use Rattle.aw_grammar.specs.GrammarOf.{grammar_of};
ghost use Rattle.aw_iograph.specs.Occurrences.{given, pattern_entries, child_entries, entries, flow_to, flows_to, term_flows, child_flows, text_flows};
ghost use Rattle.aw_iograph.specs.Dependence.{IsTextEdge};
ghost use Rattle.aw_iograph.specs.Small.{IsSmall, HasFewArgs};

use crate::occ::{Flow, Occ};
use crate::rules::small_rule;
use aw_grammar::{Children, Expr, Grammar, Pattern, Patterns, Rule, Terms};
use aw_list::Items;
use std::alloc::{AllocError, Global};

/// Pairs of occurrences: from where a variable enters to each occurrence whose term uses it.
pub type RuleGraph = Items<Flow>;

/// Where the variables of a rule enter, by their numbers. A parameter enters at no occurrence.
pub(crate) type Entries = Items<Option<Occ>>;

/// Memory is taken at once for so many variables of a rule, which is enough for most.
const ENTRIES: usize = 64;

/// The variables of a pattern enter at an occurrence.
fn enter_pattern(pattern: &Pattern, at: Occ, entries: &mut Entries) -> Result<(), AllocError>
    ensures { OnOk result (entries.new ≡ entries.old ++ map (λ v. Some at) (leaves (pattern_of pattern.now))) }
{
    match pattern {
        Pattern::Var(_) => {
            entries.push(Some(at))?;
        }
        Pattern::Lit(_) => {}
        Pattern::Con(_, parts) => {
            for part in parts.as_slice() {
                enter_pattern(part, at, entries)?;
            }
        }
    }
    Ok(())
}

/// The variables of a rule's patterns enter at its inherited values.
fn enter_patterns(patterns: &Patterns, entries: &mut Entries) -> Result<(), AllocError>
    requires { length patterns.now ≤ 8 }
    ensures { OnOk result (entries.new ≡ entries.old ++ pattern_entries 1 (map pattern_of patterns.now)) }
{
    for (i, pattern) in patterns.as_slice().iter().enumerate() {
        let at = Occ {
            child: 0,
            result: false,
            number: (i + 1) as u8,
        };
        enter_pattern(pattern, at, entries)?;
    }
    Ok(())
}

/// So many parameters enter, at no occurrence.
fn enter_params(count: u8, entries: &mut Entries) -> Result<(), AllocError>
    ensures { OnOk result (entries.new ≡ entries.old ++ replicate count None) }
{
    for _ in 0..count {
        entries.push(None)?;
    }
    Ok(())
}

/// So many results of a child enter, each at its occurrence.
fn enter_results(child: u8, count: u8, entries: &mut Entries) -> Result<(), AllocError>
    ensures { OnOk result (entries.new ≡ entries.old ++ map (λ l. Some (given child l)) (upto 1 count)) }
{
    for l in 0..count {
        entries.push(Some(Occ {
            child,
            result: true,
            number: l + 1,
        }))?;
    }
    Ok(())
}

/// The results of a rule's children enter.
fn enter_children(g: &Grammar, children: &Children, entries: &mut Entries) -> Result<(), AllocError>
    requires { length children.now ≤ 8 }
    ensures { OnOk result (entries.new ≡ entries.old ++ child_entries 1 (map (child_of g.now.sorts) children.now)) }
{
    for (k, child) in children.as_slice().iter().enumerate() {
        enter_results((k + 1) as u8, g.gives(child.sort), entries)?;
    }
    Ok(())
}

/// Where each variable of a rule enters.
pub(crate) fn entries(alloc: Global, g: &Grammar, rule: &Rule) -> Result<Entries, AllocError>
    requires { IsSmall rule.now }
    ensures { IfOk result (λ es. es ≡ entries (rule_of g.now.sorts rule.now)) }
{
    let mut entries = Items::from_vec(Vec::with_capacity(alloc, ENTRIES)?);
    enter_patterns(&rule.patterns, &mut entries)?;
    enter_params(rule.params, &mut entries)?;
    enter_children(g, &rule.children, &mut entries)?;
    Ok(entries)
}

/// Where a variable enters, if at an occurrence.
fn entry(entries: &Entries, variable: u8) -> Option<Occ>
    ensures { result ≡ P.get None entries.now variable }
{
    match entries.get(usize::from(variable)) {
        Some(at) => *at,
        None => None,
    }
}

/// From where a variable enters, if at an occurrence, to one that uses it.
fn flow(from: Option<Occ>, to: Occ, graph: &mut RuleGraph) -> Result<(), AllocError>
    ensures { OnOk result (graph.new ≡ graph.old ++ flow_to from to) }
{
    match from {
        Some(from) => {
            graph.push(Flow { from, to })?;
            Ok(())
        }
        None => Ok(()),
    }
}

/// From where the variables of a term enter to the occurrence of the term.
fn flow_term(
    entries: &Entries,
    term: &Expr,
    to: Occ,
    graph: &mut RuleGraph,
) -> Result<(), AllocError>
    ensures { OnOk result (graph.new ≡ graph.old ++ flows_to entries.now to (leaves (term_of term.now))) }
{
    match term {
        Expr::Var(x) => flow(entry(entries, *x), to, graph)?,
        Expr::Lit(_) => {}
        Expr::Con(_, parts) => {
            for part in parts.as_slice() {
                flow_term(entries, part, to, graph)?;
            }
        }
    }
    Ok(())
}

/// To the inherited values or the results of a child, or of the left side, which have these terms.
pub(crate) fn flow_terms(
    entries: &Entries,
    terms: &Terms,
    child: u8,
    is_result: bool,
    graph: &mut RuleGraph,
) -> Result<(), AllocError>
    requires { length terms.now ≤ 8 }
    ensures { OnOk result (graph.new ≡ graph.old ++ term_flows entries.now child is_result 1 (map term_of terms.now)) }
{
    for (i, term) in terms.as_slice().iter().enumerate() {
        let to = Occ {
            child,
            result: is_result,
            number: (i + 1) as u8,
        };
        flow_term(entries, term, to, graph)?;
    }
    Ok(())
}

/// To the inherited values of a rule's children.
fn flow_children(
    g: &Grammar,
    entries: &Entries,
    children: &Children,
    graph: &mut RuleGraph,
) -> Result<(), AllocError>
    requires few { length children.now ≤ 8 }
    requires args { HasFewArgs children.now }
    ensures { OnOk result (graph.new ≡ graph.old ++ child_flows entries.now 1 (map (child_of g.now.sorts) children.now)) }
{
    for (k, child) in children.as_slice().iter().enumerate() {
        flow_terms(entries, &child.args, (k + 1) as u8, false, graph)?;
    }
    Ok(())
}

/// The flows in the text of a rule.
pub(crate) fn text_of(alloc: Global, g: &Grammar, rule: &Rule) -> Result<RuleGraph, AllocError>
    requires { IsSmall rule.now }
    ensures { IfOk result (λ graph. graph ≡ text_flows (rule_of g.now.sorts rule.now)) }
{
    let entries = entries(alloc, g, rule)?;
    let mut graph = Items::new(alloc);
    flow_children(g, &entries, &rule.children, &mut graph)?;
    flow_terms(&entries, &rule.results, 0, true, &mut graph)?;
    Ok(graph)
}

/// The pairs of occurrences of a rule, from where a variable enters to each occurrence whose term uses it: those of the
/// arguments of the children come first, and then those of the results.
pub fn rule_graph(alloc: Global, g: &Grammar, rule: u16) -> Result<RuleGraph, AllocError>
    requires { rule < length g.now.rules }
    ensures list { IfOk result (λ graph. (r : P.Rule) → slice_get (grammar_of g.now).rules rule ≡ Some r → graph ≡ text_flows r) }
    ensures edges { IfOk result (λ graph. (r : P.Rule) → slice_get (grammar_of g.now).rules rule ≡ Some r →
        (o u : Occ) → (Member (record { from = o; to = u }) graph ↔ IsTextEdge r o u)) }
{
    let graph = text_of(alloc, g, small_rule(g, usize::from(rule)))?;
    Ok(graph)
}
