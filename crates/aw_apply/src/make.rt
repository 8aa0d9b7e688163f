//! What a taken rule makes: by three groups of equations, with parts numbered from 1 over all of them.
ghost use Rattle.std.specs.Prelude.{◌≡◌, ◌<◌, ◌≤◌, ◌+◌, ◌++◌, [], Some, IfOk, OnOk, IsSome, length, map, slice_get};
ghost use Rattle.aw_term.specs.Names.{below, result as result_ref};
ghost use Rattle.aw_term.specs.Rules.{get, upto};
ghost use Rattle.aw_term.specs.WellFormed.{symbols, symbols_of, child_symbols};
ghost use Rattle.aw_term.specs.Views.{ground_of, term_of};
ghost use Rattle.aw_name.specs.Limits.{most_steps};
ghost use Rattle.aw_term.specs.Limits.{most_results, most_symbols, most_children};
ghost use Rattle.aw_grammar.specs.declared.rule.Rule.{Rule as RuleValue};
ghost use Rattle.aw_grammar.specs.GrammarView.{rule_of};
ghost use Rattle.aw_grammar.specs.GrammarOf.{grammar_of};
ghost use Rattle.aw_store.specs.EquationView.{equation_of};
ghost use Rattle.aw_apply.specs.Made.{lay_list, lay_results as plain_results, child_refs, no_ref, made as plain_made};
ghost use Rattle.aw_apply.specs.MadeView.{as_child, con_equations, result_laid, HasEntered, IsMade, OfRule};

use crate::children::{Called, child_nodes, lay_children, push_children_results};
use crate::laid::{
    LaidAll, add_equation, add_place, lay_grounds, lay_terms, lit_body, ref_at, write_con,
};
use crate::making::{Made, MadeChild};
use aw_base::{Expr, Grammar, Grounds, Rule};
use aw_list::Items;
use aw_name::{Node, Ref, Slot, copy_node};
use aw_store::{Body, Equation};
use std::alloc::{AllocError, Global};

/// Result j of a node.
fn result_of(node: &Node, j: u8) -> Result<Ref, AllocError>
    ensures { IfOk result (λ r. r ≡ result_ref node.now j) }
{
    Ok(Ref {
        node: copy_node(node)?,
        slot: Slot::Result(u16::from(j)),
    })
}

/// A constructor that a result is, behind its place: its parts, from part k on.
fn lay_con(
    alloc: Global,
    equations: &mut Vec<Equation>,
    left: Ref,
    node: &Node,
    refs: &[Ref],
    k: u16,
    con: u16,
    parts: &[Expr],
) -> Result<u16, AllocError>
    requires { k + symbols_of (map term_of parts.now) ≤ 65535 }
    ensures equations { OnOk result (map equation_of equations.new.items ≡ map equation_of equations.old.items
        ++ con_equations left con (lay_list node.now (get (no_ref node.now) refs.now) k (map term_of parts.now))) }
    ensures next { IfOk result (λ next. next ≡ (lay_list node.now (get (no_ref node.now) refs.now) k (map term_of parts.now)).next) }
{
    let at = add_place(equations, left)?;
    let all = lay_terms(alloc, equations, node, refs, k, parts)?;
    let LaidAll { roots, next } = all;
    write_con(equations, at, con, roots)?;
    Ok(next)
}

/// The equation of result j, and those of its parts from part k on; the next part number.
fn lay_result(
    alloc: Global,
    equations: &mut Vec<Equation>,
    node: &Node,
    refs: &[Ref],
    k: u16,
    j: u8,
    term: &Expr,
) -> Result<u16, AllocError>
    requires { k + symbols (term_of term.now) ≤ 65535 }
    ensures equations { OnOk result (map equation_of equations.new.items ≡ map equation_of equations.old.items ++ (result_laid node.now refs.now k j (term_of term.now)).equations) }
    ensures next { IfOk result (λ next. next ≡ (result_laid node.now refs.now k j (term_of term.now)).next) }
{
    let left = result_of(node, j)?;
    match term {
        Expr::Var(x) => {
            let body = Body::Same(ref_at(node, refs, *x)?);
            add_equation(equations, left, body)?;
            Ok(k)
        }
        Expr::Lit(lit) => {
            let body = lit_body(alloc, lit)?;
            add_equation(equations, left, body)?;
            Ok(k)
        }
        Expr::Con(c, parts) => lay_con(alloc, equations, left, node, refs, k, *c, parts.as_slice()),
    }
}

/// The equations of the results of a rule, with parts from k on.
fn lay_results(
    alloc: Global,
    equations: &mut Vec<Equation>,
    node: &Node,
    refs: &[Ref],
    k: u16,
    results: &[Expr],
) -> Result<(), AllocError>
    requires few { length results.now ≤ most_results }
    requires parts { k + symbols_of (map term_of results.now) ≤ 65535 }
    ensures { OnOk result (map equation_of equations.new.items ≡ map equation_of equations.old.items ++ plain_results node.now (get (no_ref node.now) refs.now) k 1 (map term_of results.now)) }
{
    let mut next = k;
    for j in 0..results.len() {
        next = lay_result(alloc, equations, node, refs, next, j as u8 + 1, &results[j])?;
    }
    Ok(())
}

/// Adds the references of a rule's variables behind those that its patterns have bound: entered, and results of its children, whose
/// nodes are these.
fn add_variables(
    refs: &mut Vec<Ref>,
    g: &Grammar,
    node: &Node,
    number: u16,
    rule: &Rule,
    nodes: &[Node],
    entered: Vec<Ref>,
) -> Result<(), AllocError>
    requires { nodes.now ≡ map (below node.now number) (upto 1 (length rule.now.children)) }
    ensures { OnOk result (refs.new.items ≡ refs.old.items ++ (entered.items ++ child_refs node.now number 1 (rule_of g.now.sorts rule.now).children)) }
{
    let mut entered = entered;
    refs.append(&mut entered)?;
    let children = rule.children.as_slice();
    push_children_results(refs, g, node, number, nodes, children)
}

/// The equations of the arguments, with the references of all variables behind those that are bound; the next part number.
fn enter(
    alloc: Global,
    equations: &mut Vec<Equation>,
    refs: &mut Vec<Ref>,
    g: &Grammar,
    node: &Node,
    number: u16,
    rule: &Rule,
    nodes: &[Node],
    args: &Grounds,
) -> Result<u16, AllocError>
    requires nodes { nodes.now ≡ map (below node.now number) (upto 1 (length rule.now.children)) }
    requires entered { symbols_of (map ground_of args.now) ≤ most_symbols }
    ensures { IfOk result (λ next. HasEntered equations.old.items equations.new.items refs.old.items refs.new.items next (lay_list node.now (λ x. elim x [ ]) 1 (map ground_of args.now)) (child_refs node.now number 1 (rule_of g.now.sorts rule.now).children)) }
{
    let entered = lay_grounds(alloc, equations, node, 1, args.as_slice())?;
    let LaidAll { roots, next } = entered;
    add_variables(refs, g, node, number, rule, nodes, roots)?;
    Ok(next)
}

/// Lays down what a rule makes at a node, whose children have these nodes, and tells its children. Behind the bound references come those
/// of the other variables.
fn lay_made(
    alloc: Global,
    equations: &mut Vec<Equation>,
    refs: &mut Vec<Ref>,
    g: &Grammar,
    node: &Node,
    number: u16,
    rule: &Rule,
    nodes: &[Node],
    args: &Grounds,
) -> Result<Vec<MadeChild>, AllocError>
    requires nodes { nodes.now ≡ map (below node.now number) (upto 1 (length rule.now.children)) }
    requires gives { length rule.now.results ≤ most_results }
    requires entered { symbols_of (map ground_of args.now) ≤ most_symbols }
    requires symbols { child_symbols (rule_of g.now.sorts rule.now).children + symbols_of (map term_of rule.now.results) ≤ most_symbols }
    ensures { IfOk result (λ children. IsMade equations.old.items equations.new.items children.items (plain_made node.now number (rule_of g.now.sorts rule.now) (map ground_of args.now) refs.old.items)) }
{
    let next = enter(alloc, equations, refs, g, node, number, rule, nodes, args)?;
    let known = refs.as_slice();
    let declared = rule.children.as_slice();
    let called = lay_children(alloc, equations, node, number, known, next, nodes, declared)?;
    let Called { children, next } = called;
    lay_results(alloc, equations, node, known, next, rule.results.as_slice())?;
    Ok(children)
}

/// Most rules make no more equations.
const USUAL_EQUATIONS: usize = 8;

/// What a rule makes at a node.
fn made_by(
    alloc: Global,
    g: &Grammar,
    node: &Node,
    number: u16,
    rule: &Rule,
    args: &Grounds,
    bound: Vec<Ref>,
) -> Result<Made, AllocError>
    requires few { length rule.now.children ≤ most_children }
    requires gives { length rule.now.results ≤ most_results }
    requires room { 0 < length rule.now.children → length node.now.steps < most_steps }
    requires entered { symbols_of (map ground_of args.now) ≤ most_symbols }
    requires symbols { child_symbols (rule_of g.now.sorts rule.now).children + symbols_of (map term_of rule.now.results) ≤ most_symbols }
    ensures { IfOk result (λ m. IsMade [] m.equations m.children (plain_made node.now number (rule_of g.now.sorts rule.now) (map ground_of args.now) bound.items)) }
{
    let mut refs = bound;
    let mut equations = Vec::with_capacity(alloc, USUAL_EQUATIONS)?;
    let nodes = child_nodes(alloc, node, number, rule.children.len())?;
    let at = nodes.as_slice();
    let children = lay_made(
        alloc,
        &mut equations,
        &mut refs,
        g,
        node,
        number,
        rule,
        at,
        args,
    )?;
    Ok(Made {
        equations: Items::from_vec(equations),
        children: Items::from_vec(children),
    })
}

/// What taking a rule on a node makes, where its patterns have bound these references. The equations of the arguments
/// come first, then those of the children's inherited values, then those of the results; parts are numbered from 1 over
/// all of them, each symbol before its parts.
pub fn made(
    alloc: Global,
    g: &Grammar,
    node: &Node,
    rule: u16,
    args: &Grounds,
    bound: Vec<Ref>,
) -> Result<Made, AllocError>
    requires declared { IsSome (slice_get g.now.rules rule) }
    requires room { (r : RuleValue) → slice_get g.now.rules rule ≡ Some r → 0 < length r.children → length node.now.steps < most_steps }
    requires entered { symbols_of (map ground_of args.now) ≤ most_symbols }
    ensures equations { IfOk result (λ m. OfRule (grammar_of g.now) rule (λ r. map equation_of m.equations ≡ (plain_made node.now rule r (map ground_of args.now) bound.items).equations)) }
    ensures children { IfOk result (λ m. OfRule (grammar_of g.now) rule (λ r. m.children ≡ map as_child (plain_made node.now rule r (map ground_of args.now) bound.items).calls)) }
{
    match g.rule(rule) {
        Some(declared) => made_by(alloc, g, node, rule, declared, args, bound),
        None => unreachable!(),
    }
}
