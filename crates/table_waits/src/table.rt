//! The table: its entries, each told in turn.
use crate::fault::EntryFault;
use crate::told::push_entry;
use aw_list::Text;
use bstr::ByteSlice;
use std::alloc::{AllocError, Global};
use table_common::TableFault;

/// What stands in front of an entry's name.
const MARK: &[u8] = b"=== ";

/// Adds an entry's name, and what is told of it.
fn push_named(alloc: Global, told: &mut Text, name: &[u8], input: &[u8]) -> Result<(), AllocError> {
    told.push_bytes(MARK)?;
    told.push_bytes(name)?;
    told.push_bytes(b"\n")?;
    match push_entry(alloc, told, input) {
        Ok(()) => Ok(()),
        Err(EntryFault::Unreadable) => told.push_bytes(b"not read\n"),
        Err(EntryFault::NoMemory) => Err(AllocError),
    }
}

/// Adds an entry's name, and what is told of it. What has no line is none.
fn push_part(alloc: Global, told: &mut Text, entry: &[u8]) -> Result<(), AllocError> {
    match entry.split_once_str(b"\n") {
        Some((name, input)) => push_named(alloc, told, name, input),
        None => Ok(()),
    }
}

/// Adds what is told of all entries. What stands before the first mark is none.
fn push_entries(alloc: Global, told: &mut Text, text: &[u8]) -> Result<(), AllocError> {
    for entry in text.split_str(MARK) {
        push_part(alloc, told, entry)?;
    }
    Ok(())
}

/// What is told of all entries.
pub fn table(alloc: Global, text: &[u8]) -> Result<Text, TableFault> {
    let mut told = Text::new(alloc);
    push_entries(alloc, &mut told, text)?;
    Ok(told)
}
