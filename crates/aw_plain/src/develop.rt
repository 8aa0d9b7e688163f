//! What a taken rule does to the rows.
ghost use Rattle.std.specs.Prelude.{◌≡◌, ◌<◌, ◌≤◌, IfOk, OnOk, OnErr, length, map, option_map};
ghost use Rattle.aw_term.specs.Configs.{develop as plain_develop, done_row as plain_done, Done};
ghost use Rattle.aw_term.specs.Choices.{or_same};
ghost use Rattle.aw_term.specs.Views.{ground_of};
ghost use Rattle.aw_name.specs.Limits.{most_steps};
ghost use Rattle.aw_term.specs.Limits.{most_children};
ghost use Rattle.aw_grammar.specs.GrammarView.{rule_of};
ghost use Rattle.aw_plain_rows.specs.TreeView.{values_of};
ghost use Rattle.aw_plain_rows.specs.RowView.{plain_row, plain_state, config_of};
ghost use Rattle.aw_plain_rows.specs.Rounds.{row_fed};
ghost use Rattle.aw_plain.specs.Changes.{row_taken};
ghost use Rattle.aw_plain.specs.Ordered.{IsOrdered};
ghost use Rattle.aw_plain.specs.Cases.{AreApart};

use crate::change::{apply, changes};
use crate::child::{bindings, child_rows};
use crate::fill::fill_all;
use crate::row::add_rows;
use crate::taking::Taking;
use crate::touch::touched;
use aw_base::{Grammar, Grounds, Rule};
use aw_name::{Node, copy_node};
use aw_plain_rows::{Row, State, Tree, Trees, copy_parts, copy_state, put_rounds};
use aw_term::order::is_node;
use std::alloc::{AllocError, Global};

/// Each of these rows with all holes of the node replaced.
fn put_each(
    alloc: Global,
    rows: Vec<Row>,
    node: &Node,
    results: &[Tree],
) -> Result<Vec<Row>, AllocError>
    ensures { IfOk result (λ rs. config_of rs.items ≡ map (row_fed node.now (values_of results.now)) (config_of rows.items)) }
{
    let mut replaced = Vec::new(alloc);
    for row in rows {
        replaced.push(put_rounds(alloc, row, node, results)?)?;
    }
    Ok(replaced)
}

/// A copy of arguments.
fn copy_grounds(args: &Grounds) -> Result<Grounds, AllocError>
    ensures { IfOk result (λ copy. copy ≡ args.now) }
{
    args.clone()
}

/// The state of a row after rule `number` was taken on the node.
fn state_after(row: &Row, node: &Node, number: u16, args: &Grounds) -> Result<State, AllocError>
    ensures { IfOk result (λ s. plain_state s ≡ (plain_done node.now (Done number (map ground_of args.now)) (plain_row row.now)).state) }
{
    if is_node(node, &row.node) {
        Ok(State::Done {
            rule: number,
            args: copy_grounds(args)?,
        })
    } else {
        copy_state(&row.state)
    }
}

/// A copy of values. They share their parts.
fn copy_trees(alloc: Global, trees: &[Tree]) -> Result<Trees, AllocError>
    ensures { IfOk result (λ ts. values_of ts ≡ values_of trees.now) }
{
    copy_parts(alloc, trees, false)
}

/// A copy of a row, done where it is the node's.
#[tactic(auto, using(crate::proofs::DevelopLemmas::done_parts))]
fn done_row(
    alloc: Global,
    row: &Row,
    node: &Node,
    number: u16,
    args: &Grounds,
) -> Result<Row, AllocError>
    ensures { IfOk result (λ r. plain_row r ≡ plain_done node.now (Done number (map ground_of args.now)) (plain_row row.now)) }
{
    Ok(Row {
        node: copy_node(&row.node)?,
        sort: row.sort,
        inherited: copy_trees(alloc, row.inherited.as_slice())?,
        results: copy_trees(alloc, row.results.as_slice())?,
        state: state_after(row, node, number, args)?,
    })
}

/// A row that was held, after this rule was taken; none where it stays as it is, which is not looked for where the rule
/// gives results.
pub fn row_after(alloc: Global, row: &Row, taking: &Taking<'_>) -> Result<Option<Row>, AllocError>
    ensures { IfOk result (λ after. or_same (plain_row row.now) (option_map plain_row after) ≡ row_taken taking.now (plain_row row.now)) }
{
    if taking.results.is_empty() && !is_node(taking.node, &row.node) {
        return Ok(None);
    }
    let done = done_row(alloc, row, taking.node, taking.number, taking.args)?;
    Ok(Some(put_rounds(alloc, done, taking.node, taking.results)?))
}

/// Takes a rule with this number on the node. Nothing is changed before all that may fail is done.
pub fn develop(
    alloc: Global,
    grammar: &Grammar,
    rows: &mut Vec<Row>,
    node: &Node,
    number: u16,
    rule: &Rule,
    bound: Trees,
    args: &Grounds,
) -> Result<(), AllocError>
    requires few { length rule.now.children ≤ most_children }
    requires room { 0 < length rule.now.children → length node.now.steps < most_steps }
    requires ordered { IsOrdered (config_of rows.old.items) }
    requires apart { AreApart (config_of rows.old.items) }
    ensures ok { OnOk result (config_of rows.new.items ≡ plain_develop node.now number (rule_of grammar.now.sorts rule.now) (values_of bound) (map ground_of args.now) (config_of rows.old.items)) }
    ensures err { OnErr result (rows.new.items ≡ rows.old.items) }
{
    let env = bindings(alloc, grammar, node, number, rule, bound, args.as_slice())?;
    let results = fill_all(alloc, rule.results.as_slice(), env.as_slice())?;
    let given = results.as_slice();
    let open = child_rows(alloc, grammar, node, number, rule, env.as_slice())?;
    let children = put_each(alloc, open, node, given)?;
    let held = rows.as_slice();
    let places = touched(held, node, given);
    let taking = Taking {
        node,
        number,
        args,
        results: given,
    };
    let changed = changes(alloc, held, places, &taking)?;
    rows.reserve(children.len())?;
    apply(rows, changed);
    add_rows(rows, children);
    Ok(())
}
