//! What memory and stack are needed for: a row is printed up to a limit, and a value that is 100,000 levels deep is copied and let
//! go. What is to be told was worked out by hand.

use aw_base::{Grammar, Node, Trail};
use aw_list::{Items, Text};
use aw_out::{PrintFault, Report};
use aw_plain::print_rows;
use aw_plain_rows::{Row, State, Tree, copy_tree, make_con};
use std::alloc::{AllocError, Global};
use table_common::TableFault;

/// How deep the value is.
const LEVELS: u32 = 100_000;

/// An open task that inherits the number 12, and whose result is missing. Where nothing is declared, each name is empty, so
/// its line has 22 bytes.
fn open_row(alloc: Global) -> Result<Row, AllocError> {
    let node = Node {
        start: 0,
        case: 1,
        steps: Trail::new(alloc),
    };
    let mut inherited = Vec::new(alloc);
    inherited.push(Tree::Num(12))?;
    let mut results = Vec::new(alloc);
    results.push(Tree::Hole(node.clone()?, 1))?;
    Ok(Row {
        node,
        sort: 0,
        inherited: Items::from_vec(inherited),
        results: Items::from_vec(results),
        state: State::Pending,
    })
}

/// Adds what was printed, or that it passes the limit.
fn push_printed(
    told: &mut Text,
    report: &Report,
    printed: Result<(), PrintFault>,
) -> Result<(), AllocError> {
    match printed {
        Ok(()) => told.push_bytes(report.bytes()),
        Err(PrintFault::TooLarge) => told.push_bytes(b"too large\n"),
        Err(PrintFault::NoMemory) => Err(AllocError),
    }
}

/// Adds the lines of rows, or that they pass the limit.
fn push_rows(alloc: Global, told: &mut Text, rows: &[Row], limit: usize) -> Result<(), AllocError> {
    let grammar = Grammar::new(alloc);
    let mut report = Report::new(alloc, limit);
    let printed = print_rows(alloc, &grammar, rows, &mut report);
    drop(grammar);
    push_printed(told, &report, printed)
}

/// A constructor around the number 1 and a value.
fn around(alloc: Global, tree: Tree) -> Result<Tree, AllocError> {
    let mut parts = Vec::new(alloc);
    parts.push(Tree::Num(1))?;
    parts.push(tree)?;
    make_con(1, parts)
}

/// A value of so many levels.
fn deep_tree(alloc: Global) -> Result<Tree, AllocError> {
    let mut tree = Tree::Num(7);
    for _ in 0..LEVELS {
        tree = around(alloc, tree)?;
    }
    Ok(tree)
}

/// What is told of them.
pub(crate) fn told(alloc: Global) -> Result<Text, TableFault> {
    let mut text = Text::new(alloc);
    let mut rows = Vec::new(alloc);
    rows.push(open_row(alloc)?)?;
    push_rows(alloc, &mut text, rows.as_slice(), 21)?;
    push_rows(alloc, &mut text, rows.as_slice(), 22)?;
    let tree = deep_tree(alloc)?;
    drop(copy_tree(&tree)?);
    drop(tree);
    text.push_bytes(b"copied and let go\n")?;
    Ok(text)
}
