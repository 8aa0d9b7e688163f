//! Rows that a taken rule changes: they are made first, and put in their places when nothing can fail any more.
ghost use Rattle.std.specs.Prelude.{◌≡◌, ◌≤◌, IfOk, OnOk, length, map, slice_set, vec_len, vec_capacity};
ghost use Rattle.aw_plain_rows.specs.RowView.{config_of};
ghost use Rattle.aw_plain.specs.Cases.{AreOutside};
ghost use Rattle.aw_plain.specs.Changes.{row_taken, changed, AreRightPast};

use crate::develop::row_after;
use crate::taking::Taking;
use aw_plain_rows::Row;
use std::alloc::{AllocError, Global};
use std::ops::Range;

/// A row that takes the place of another.
#[derive(Debug, Drop)]
pub struct Change {
    pub at: usize,
    pub row: Row,
}

/// Adds the row at a place after the rule was taken. One that is known to stay as it is, is left out.
fn push_change(
    alloc: Global,
    changes: &mut Vec<Change>,
    at: usize,
    row: &Row,
    taking: &Taking<'_>,
) -> Result<(), AllocError>
    ensures { OnOk result (AreRightPast (row_taken taking.now) at row.now changes.old.items changes.new.items) }
{
    match row_after(alloc, row, taking)? {
        Some(row) => changes.push(Change { at, row })?,
        None => {}
    }
    Ok(())
}

/// The changes that a rule brings to the rows that are held: only those at these places change.
pub fn changes(
    alloc: Global,
    rows: &[Row],
    places: Range<usize>,
    taking: &Taking<'_>,
) -> Result<Vec<Change>, AllocError>
    requires order { places.start ≤ places.end }
    requires within { places.end ≤ length rows.now }
    requires outside { AreOutside (λ q. row_taken taking.now q ≡ q) places.start places.end (config_of rows.now) }
    ensures { IfOk result (λ xs. config_of (changed rows.now xs.items) ≡ map (row_taken taking.now) (config_of rows.now)) }
{
    let mut changes = Vec::new(alloc);
    for at in places.start..places.end {
        push_change(alloc, &mut changes, at, &rows[at], taking)?;
    }
    Ok(changes)
}

/// Puts a row in its place.
fn apply_one(rows: &mut Vec<Row>, change: Change)
    ensures items { rows.new.items ≡ slice_set rows.old.items change.at change.row }
    ensures len { vec_len rows.new ≡ vec_len rows.old }
    ensures room { vec_capacity rows.new ≡ vec_capacity rows.old }
{
    if change.at < rows.len() {
        rows[change.at] = change.row;
    }
}

/// Puts each row in its place. It needs no memory, and the rows keep the room that they have.
pub fn apply(rows: &mut Vec<Row>, changes: Vec<Change>)
    ensures items { rows.new.items ≡ changed rows.old.items changes.items }
    ensures len { vec_len rows.new ≡ vec_len rows.old }
    ensures room { vec_capacity rows.new ≡ vec_capacity rows.old }
{
    for change in changes {
        apply_one(rows, change);
    }
}
