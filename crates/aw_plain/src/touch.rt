//! Which rows a taken rule can change: those of its case, which stand together, and where it gives nothing its own alone.
ghost use Rattle.std.specs.Prelude.{◌≡◌, ◌≤◌, length};
ghost use Rattle.aw_term.specs.Configs.{State};
ghost use Rattle.aw_plain_rows.specs.TreeView.{values_of};
ghost use Rattle.aw_plain_rows.specs.RowView.{config_of};
ghost use Rattle.aw_plain.specs.Ordered.{IsOrdered};
ghost use Rattle.aw_plain.specs.Cases.{IsSameCase, AreApart, AreOutside};
ghost use Rattle.aw_plain.specs.Changes.{row_after};

use crate::order::is_case_before;
use aw_name::Node;
use aw_plain_rows::{Row, Tree};
use aw_term::order::is_before;
use std::ops::Range;

/// The places of the rows of a node: at most one, where nodes differ.
fn rows_of_node(rows: &[Row], node: &Node) -> Range<usize>
    requires { IsOrdered (config_of rows.now) }
    ensures order { result.start ≤ result.end }
    ensures within { result.end ≤ length rows.now }
    ensures outside { AreOutside (λ q. node.now ≡ q.node → ⊥) result.start result.end (config_of rows.now) }
{
    let start = rows.partition_point(|row| is_before(&row.node, node));
    let end = rows.partition_point(|row| !is_before(node, &row.node));
    start..end
}

/// The places of the rows of a node's case.
fn rows_of_case(rows: &[Row], node: &Node) -> Range<usize>
    requires { IsOrdered (config_of rows.now) }
    ensures order { result.start ≤ result.end }
    ensures within { result.end ≤ length rows.now }
    ensures outside { AreOutside (λ q. IsSameCase node.now q.node → ⊥) result.start result.end (config_of rows.now) }
{
    let start = rows.partition_point(|row| is_case_before(&row.node, node));
    let end = rows.partition_point(|row| !is_case_before(node, &row.node));
    start..end
}

/// The places outside of which a rule with these results, taken on the node, leaves the rows as they are.
pub fn touched(rows: &[Row], node: &Node, results: &[Tree]) -> Range<usize>
    requires ordered { IsOrdered (config_of rows.now) }
    requires apart { AreApart (config_of rows.now) }
    ensures order { result.start ≤ result.end }
    ensures within { result.end ≤ length rows.now }
    ensures outside { (s : State) → AreOutside (λ q. row_after node.now s (values_of results.now) q ≡ q) result.start result.end (config_of rows.now) }
{
    if results.is_empty() {
        rows_of_node(rows, node)
    } else {
        rows_of_case(rows, node)
    }
}
