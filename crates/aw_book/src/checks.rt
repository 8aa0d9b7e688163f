//! What is told of how a file stands.

use crate::faults::{BookStop, FileFault};
use crate::redoing::redo_all;
use aw_base::role_name;
use aw_book_read::{Checked, HeadFault, HeadText, Seen, check, open_head, push_check};
use aw_disk::Pages;
use aw_journal::{ReadFault, Standing};
use aw_list::Text;
use aw_out::{Sink, write_all};
use std::alloc::{AllocError, Global};

/// What is wrong with a file that stands so.
fn fault_of(standing: Standing) -> Option<FileFault> {
    match standing {
        Standing::Headless => Some(FileFault::Headless),
        Standing::Damaged => Some(FileFault::Damaged),
        Standing::Empty | Standing::Sound | Standing::Cut => None,
    }
}

/// The line of a file with a head, and what is wrong with it.
fn with_head(
    alloc: Global,
    head: &HeadText,
    checked: &Checked,
    name: &[u8],
    text: &mut Text,
) -> Result<Option<FileFault>, AllocError> {
    match open_head(alloc, head.role, &head.text) {
        Ok(opened) => {
            let role = role_name(opened.accepted.grammar(), head.role);
            push_check(text, checked, role, name)?;
            Ok(fault_of(checked.standing))
        }
        Err(HeadFault::NoMemory) => Err(AllocError),
        Err(fault) => {
            push_check(text, checked, b"-", name)?;
            Ok(Some(FileFault::Head(fault)))
        }
    }
}

/// The line of a file that was seen, and what is wrong with it.
fn line_of(
    alloc: Global,
    seen: &Seen,
    name: &[u8],
    text: &mut Text,
) -> Result<Option<FileFault>, AllocError> {
    match &seen.head {
        Some(head) => with_head(alloc, head, &seen.checked, name, text),
        None => {
            push_check(text, &seen.checked, b"-", name)?;
            Ok(fault_of(seen.checked.standing))
        }
    }
}

/// Writes the line of a file of this name: how it stands, with a digest of what counts where that is asked for; and tells what is wrong with it.
fn tell_line<P: Pages, K: Sink>(
    alloc: Global,
    name: &[u8],
    pages: &mut P,
    digest: bool,
    out: &mut K,
) -> Result<Option<FileFault>, BookStop> {
    let seen = match check(alloc, pages, digest) {
        Ok(seen) => seen,
        Err(ReadFault::Failed) => return Ok(Some(FileFault::Unread)),
        Err(ReadFault::NoMemory) => return Err(BookStop::NoMemory),
    };
    let mut text = Text::new(alloc);
    let fault = line_of(alloc, &seen, name, &mut text)?;
    write_all(out, text.as_slice())?;
    Ok(fault)
}

/// Writes the line of a file, and where that is asked for, and nothing is wrong, does the events of the journal again.
pub fn tell_check<P: Pages, K: Sink>(
    alloc: Global,
    name: &[u8],
    pages: &mut P,
    digest: bool,
    redo: bool,
    out: &mut K,
) -> Result<Option<FileFault>, BookStop> {
    match tell_line(alloc, name, pages, digest, out)? {
        None if redo => redo_all(alloc, pages),
        fault => Ok(fault),
    }
}
