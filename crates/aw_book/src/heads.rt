//! What is told of a head.

use crate::faults::{BookStop, FileFault};
use crate::reading::open_book;
use aw_disk::Pages;
use aw_out::{Sink, write_all};
use std::alloc::Global;

/// Writes the specification of a journal.
pub fn tell_spec<P: Pages, K: Sink>(
    alloc: Global,
    pages: &mut P,
    out: &mut K,
) -> Result<Option<FileFault>, BookStop> {
    match open_book(alloc, pages)? {
        Ok(book) => {
            write_all(out, book.opened.text.as_slice())?;
            Ok(None)
        }
        Err(fault) => Ok(Some(fault)),
    }
}
