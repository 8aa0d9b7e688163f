//! Journals that go on from older copies of them.
use crate::faults::BookStop;
use crate::joint::Said;
use crate::offices::name_of;
use crate::older::tell_older;
use aw_disk::Pages;
use std::alloc::Global;

/// The files of older copies and of journals, to be compared; none where no copies are named.
#[derive(Drop)]
pub struct Copies<P> {
    pub older: Vec<P>,
    pub newer: Vec<P>,
}

/// Says of each role's journal, where it does not go on from its older copy, that it does not. The files are told for each role.
pub fn say_copies<P: Pages + Drop>(
    alloc: Global,
    names: &[&str],
    older: &[Option<usize>],
    newer: &[Option<usize>],
    mut copies: Copies<P>,
    said: &mut Said,
) -> Result<(), BookStop> {
    for role in 0..newer.len() {
        let (Some(new), Some(Some(old))) = (newer[role], older.get(role)) else {
            continue;
        };
        let old = *old;
        if old >= copies.older.len() || new >= copies.newer.len() {
            continue;
        }
        if let Some(fault) = tell_older(alloc, &mut copies.older[old], &mut copies.newer[new])? {
            said.push_fault(alloc, name_of(newer, names, role), &fault)?;
        }
    }
    Ok(())
}
