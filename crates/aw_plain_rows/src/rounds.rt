//! Rows with the holes of a node replaced.
ghost use Rattle.std.specs.Prelude.{◌≡◌, IfOk, map};
ghost use Rattle.aw_term.specs.Trees.{bind};
ghost use Rattle.aw_term.specs.Configs.{put, row_put};
ghost use Rattle.aw_plain_rows.specs.TreeView.{values_of};
ghost use Rattle.aw_plain_rows.specs.RowView.{plain_row};
ghost use Rattle.aw_plain_rows.specs.Rounds.{row_fed};

use crate::put::put_all;
use crate::row::{Row, copy_state};
use crate::tree::{Tree, Trees};
use aw_list::Items;
use aw_name::{Node, copy_node};
use std::alloc::{AllocError, Global};

/// Values with all holes of the node replaced at once.
fn put_trees(
    alloc: Global,
    trees: &[Tree],
    node: &Node,
    results: &[Tree],
) -> Result<Trees, AllocError>
    ensures { IfOk result (λ ts. values_of ts ≡ map (bind (put node.now (values_of results.now))) (values_of trees.now)) }
{
    let mut replaced = Vec::new(alloc);
    for tree in trees {
        replaced.push(put_all(alloc, tree, node, results)?)?;
    }
    Ok(Items::from_vec(replaced))
}

/// A row with all holes of the node replaced at once.
fn put_row(alloc: Global, row: &Row, node: &Node, results: &[Tree]) -> Result<Row, AllocError>
    ensures { IfOk result (λ r. plain_row r ≡ row_put (put node.now (values_of results.now)) (plain_row row.now)) }
{
    Ok(Row {
        node: copy_node(&row.node)?,
        sort: row.sort,
        inherited: put_trees(alloc, row.inherited.as_slice(), node, results)?,
        results: put_trees(alloc, row.results.as_slice(), node, results)?,
        state: copy_state(&row.state)?,
    })
}

/// Replaces all holes of the node as many times as it has results: a node may be fed by its own results.
pub fn put_rounds(
    alloc: Global,
    mut row: Row,
    node: &Node,
    results: &[Tree],
) -> Result<Row, AllocError>
    ensures { IfOk result (λ r. plain_row r ≡ row_fed node.now (values_of results.now) (plain_row row)) }
{
    for _round in 0..results.len() {
        row = put_row(alloc, &row, node, results)?;
    }
    Ok(row)
}
