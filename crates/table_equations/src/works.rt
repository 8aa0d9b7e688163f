//! Work for a store, which `bench/race.py` times beside the same work in plain Rust: names and equations of many nodes. Each line is a
//! size and a work, as `wide-added`, and gives a line with the number that the work comes to, which has to be that of plain Rust.
use crate::nodes::Size;
use crate::work::{Work, run};
use aw_list::Text;
use aw_spelling::push_number;
use bstr::ByteSlice;
use std::alloc::Global;
use table_common::TableFault;

fn size_of(word: &[u8]) -> Option<Size> {
    match word {
        b"small" => Some(Size::Small),
        b"wide" => Some(Size::Wide),
        b"deep" => Some(Size::Deep),
        _ => None,
    }
}

fn work_of(word: &[u8]) -> Option<Work> {
    match word {
        b"built" => Some(Work::Built),
        b"named" => Some(Work::Named),
        b"added" => Some(Work::Added),
        b"both" => Some(Work::Both),
        b"reserved" => Some(Work::Reserved),
        b"read" => Some(Work::Read),
        _ => None,
    }
}

/// What a line asks for.
fn asked(line: &[u8]) -> Option<(Size, Work)> {
    let (size, work) = line.split_once_str(b"-")?;
    Some((size_of(size)?, work_of(work)?))
}

/// Adds the number that the work of a line comes to.
fn push_work(alloc: Global, told: &mut Text, line: &[u8]) -> Result<(), TableFault> {
    let (size, work) = asked(line).ok_or(TableFault::Unreadable)?;
    push_number(told, run(alloc, size, work)?)?;
    Ok(told.push(b'\n')?)
}

/// Adds the number of each line.
pub fn push_works(alloc: Global, told: &mut Text, text: &[u8]) -> Result<(), TableFault> {
    for line in text.lines() {
        push_work(alloc, told, line)?;
    }
    Ok(())
}
