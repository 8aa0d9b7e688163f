//! The lines of the events of a journal, written as they are read.

use crate::faults::{BookStop, FileFault};
use crate::reading::{Book, open_book};
use aw_base::{Grammar, NameWriter};
use aw_book_read::push_event;
use aw_disk::Pages;
use aw_journal::{ReadFault, Records};
use aw_list::Text;
use aw_out::{Sink, write_all};
use std::alloc::Global;

/// After so many bytes, what stands in the buffer is written.
const FULL: usize = 1_048_576;

/// Writes what stands in a buffer where it is full, and empties it.
fn write_full<K: Sink>(text: &mut Text, out: &mut K) -> Result<(), BookStop> {
    if text.len() < FULL {
        return Ok(());
    }
    write_all(out, text.as_slice())?;
    text.truncate(0);
    Ok(())
}

/// Writes the lines of the events from where a reader stands, and tells where the file was not read.
fn write_events<P: Pages, K: Sink>(
    alloc: Global,
    pages: &mut P,
    records: &mut Records,
    grammar: &Grammar,
    out: &mut K,
) -> Result<Option<FileFault>, BookStop> {
    let mut names = NameWriter::new(alloc, grammar);
    let mut text = Text::new(alloc);
    'events: loop {
        match records.next(alloc, pages) {
            Ok(Some(event)) => {
                push_event(&mut text, &mut names, &event)?;
                write_full(&mut text, out)?;
            }
            Ok(None) => {
                write_all(out, text.as_slice())?;
                return Ok(None);
            }
            Err(ReadFault::Failed) => {
                write_all(out, text.as_slice())?;
                return Ok(Some(FileFault::Unread));
            }
            Err(ReadFault::NoMemory) => return Err(BookStop::NoMemory),
        }
    }
}

/// Writes the lines of the events of a journal. Of one that is not read to its end, those before.
pub fn tell_events<P: Pages, K: Sink>(
    alloc: Global,
    pages: &mut P,
    out: &mut K,
) -> Result<Option<FileFault>, BookStop> {
    match open_book(alloc, pages)? {
        Ok(
            Book {
                opened,
                mut records,
                ..
            },
        ) => write_events(alloc, pages, &mut records, opened.accepted.grammar(), out),
        Err(fault) => Ok(Some(fault)),
    }
}
