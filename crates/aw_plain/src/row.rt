//! Rows of a configuration, in the order of their nodes.
ghost use Rattle.std.specs.Prelude.{◌≡◌, ◌+◌, ◌<◌, ◌≤◌, ◌++◌, ◌∷◌, OnOk, OnErr, length, take, drop, option_map, vec_len, vec_capacity};
ghost use Rattle.std.specs.Option.{option_copied};
ghost use Rattle.aw_term.specs.Configs.{insert_row, insert_rows, row_of, Row as PlainRow};
ghost use Rattle.aw_plain_rows.specs.RowView.{plain_row, config_of};
ghost use Rattle.aw_plain.specs.Ordered.{IsOrdered};

use aw_name::Node;
use aw_plain_rows::Row;
use aw_term::order::{is_before, is_node};
use std::alloc::AllocError;

/// The row of a node, where it is held.
pub fn find_row<'r>(rows: &'r [Row], node: &Node) -> Option<&'r Row>
    requires { IsOrdered (config_of rows.now) }
    ensures { option_map plain_row (option_copied result) ≡ row_of node.now (config_of rows.now) }
{
    let at = rows.partition_point(|row| is_before(&row.node, node));
    match rows.get(at) {
        Some(row) if is_node(node, &row.node) => Some(row),
        _ => None,
    }
}

/// The place of the first row that is after the node.
fn place(rows: &[Row], node: &Node) -> usize
    requires { IsOrdered (config_of rows.now) }
    ensures within { result ≤ length rows.now }
    ensures value { (r : PlainRow) → r.node ≡ node.now → insert_row r (config_of rows.now) ≡ config_of (take result rows.now) ++ r ∷ config_of (drop result rows.now) }
{
    rows.partition_point(|row| !is_before(node, &row.node))
}

/// Puts a row before the first that is after it. There is room for it.
fn put_between(rows: &mut Vec<Row>, row: Row)
    requires ordered { IsOrdered (config_of rows.old.items) }
    requires room { vec_len rows.old < vec_capacity rows.old }
    ensures items { config_of rows.new.items ≡ insert_row (plain_row row) (config_of rows.old.items) }
    ensures len { vec_len rows.new ≡ vec_len rows.old + 1 }
    ensures room { vec_capacity rows.old ≤ vec_capacity rows.new }
{
    let at = place(rows.as_slice(), &row.node);
    match rows.insert(at, row) {
        Ok(()) => {}
        Err(_) => unreachable!(),
    }
}

/// Adds a row before the first that is after it. An error changes nothing.
pub fn add_row(rows: &mut Vec<Row>, row: Row) -> Result<(), AllocError>
    requires { IsOrdered (config_of rows.old.items) }
    ensures ok { OnOk result (config_of rows.new.items ≡ insert_row (plain_row row) (config_of rows.old.items)) }
    ensures err { OnErr result (rows.new.items ≡ rows.old.items) }
{
    rows.reserve(1)?;
    put_between(rows, row);
    Ok(())
}

/// Puts each of the rows before the first that is after it. There is room for all of them.
pub fn add_rows(rows: &mut Vec<Row>, more: Vec<Row>)
    requires ordered { IsOrdered (config_of rows.old.items) }
    requires room { vec_len rows.old + vec_len more ≤ vec_capacity rows.old }
    ensures { config_of rows.new.items ≡ insert_rows (config_of more.items) (config_of rows.old.items) }
{
    for row in more {
        put_between(rows, row);
    }
}
