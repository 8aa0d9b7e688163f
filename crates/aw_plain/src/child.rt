//! The children of a taken rule: their nodes, their results and their rows.
ghost use Rattle.std.specs.Prelude.{◌≡◌, ◌<◌, ◌≤◌, ◌++◌, ◌∷◌, [], IfOk, OnOk, length, map};
ghost use Rattle.aw_term.specs.Names.{below};
ghost use Rattle.aw_term.specs.Configs.{holes as plain_holes, child_rows as plain_child_rows, env as plain_env};
ghost use Rattle.aw_term.specs.Views.{ground_of};
ghost use Rattle.aw_name.specs.Limits.{most_steps};
ghost use Rattle.aw_term.specs.Limits.{most_children};
ghost use Rattle.aw_grammar.specs.GrammarView.{child_of, rule_of};
ghost use Rattle.aw_plain_rows.specs.TreeView.{values_of};
ghost use Rattle.aw_plain_rows.specs.RowView.{plain_row, config_of};

use crate::fill::{fill_all, holes, lift_all};
use crate::matching::append;
use aw_base::{Child, Grammar, Ground, Rule, child_node};
use aw_name::Node;
use aw_plain_rows::{Row, State, Tree, Trees};
use std::alloc::{AllocError, Global};

/// Adds the results of a child, counted from 1.
fn push_child_holes(
    alloc: Global,
    env: &mut Vec<Tree>,
    grammar: &Grammar,
    node: &Node,
    rule: u16,
    k: u8,
    child: &Child,
) -> Result<(), AllocError>
    requires { length node.now.steps < most_steps }
    ensures { OnOk result (values_of env.new.items ≡ values_of env.old.items ++ plain_holes (below node.now rule k) (child_of grammar.now.sorts child.now).outs) }
{
    let below = child_node(node, rule, k)?;
    append(env, holes(alloc, &below, grammar.gives(child.sort))?)
}

/// The values of a rule's variables by number: bound by its patterns, entered, and results of its children.
pub fn bindings(
    alloc: Global,
    grammar: &Grammar,
    node: &Node,
    number: u16,
    rule: &Rule,
    bound: Trees,
    args: &[Ground],
) -> Result<Vec<Tree>, AllocError>
    requires few { length rule.now.children ≤ most_children }
    requires room { 0 < length rule.now.children → length node.now.steps < most_steps }
    ensures { IfOk result (λ env. values_of env.items ≡ plain_env node.now number (rule_of grammar.now.sorts rule.now) (values_of bound) (map ground_of args.now)) }
{
    let mut env = bound.into_vec();
    append(&mut env, lift_all(alloc, args)?)?;
    let children = rule.children.as_slice();
    for i in 0..children.len() {
        push_child_holes(
            alloc,
            &mut env,
            grammar,
            node,
            number,
            i as u8 + 1,
            &children[i],
        )?;
    }
    Ok(env)
}

/// The pending row of a child, counted from 1.
fn child_row(
    alloc: Global,
    grammar: &Grammar,
    node: &Node,
    rule: u16,
    k: u8,
    child: &Child,
    env: &[Tree],
) -> Result<Row, AllocError>
    requires { length node.now.steps < most_steps }
    ensures { IfOk result (λ row. plain_row row ∷ [] ≡ plain_child_rows node.now rule (values_of env.now) k (child_of grammar.now.sorts child.now ∷ [])) }
{
    let below = child_node(node, rule, k)?;
    let results = holes(alloc, &below, grammar.gives(child.sort))?;
    Ok(Row {
        node: below,
        sort: child.sort,
        inherited: fill_all(alloc, child.args.as_slice(), env)?,
        results,
        state: State::Pending,
    })
}

/// The pending rows of a rule's children.
pub fn child_rows(
    alloc: Global,
    grammar: &Grammar,
    node: &Node,
    number: u16,
    rule: &Rule,
    env: &[Tree],
) -> Result<Vec<Row>, AllocError>
    requires few { length rule.now.children ≤ most_children }
    requires room { 0 < length rule.now.children → length node.now.steps < most_steps }
    ensures { IfOk result (λ rows. config_of rows.items ≡ plain_child_rows node.now number (values_of env.now) 1 (rule_of grammar.now.sorts rule.now).children) }
{
    let mut rows = Vec::new(alloc);
    let children = rule.children.as_slice();
    for i in 0..children.len() {
        rows.push(child_row(alloc, grammar, node, number, i as u8 + 1, &children[i], env)?)?;
    }
    Ok(rows)
}
