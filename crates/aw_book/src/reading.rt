//! A journal that is opened to be read.
ghost use Rattle.std.specs.Prelude.{IfOk};
ghost use Rattle.aw_grammar.specs.GrammarOf.{grammar_of};
ghost use Rattle.aw_typed.specs.Typing.{IsMadeFor};

use crate::faults::{BookStop, FileFault};
use aw_book_read::{HeadFault, open_head};
use aw_disk::Pages;
use aw_front::Opened;
use aw_journal::{Begun, ReadFault, Records};
use aw_list::Text;
use std::alloc::Global;

/// A journal whose head opens a specification, with a reader of its records.
#[derive(Drop)]
pub struct Book {
    pub role: u16,
    pub opened: Opened,
    pub records: Records,
}

/// The journal behind a head, or what is wrong with the head.
fn book_of(
    alloc: Global,
    role: u16,
    text: &Text,
    records: Records,
) -> Result<Result<Book, FileFault>, BookStop>
    ensures { IfOk result (λ found. IfOk found (λ book. IsMadeFor (grammar_of book.opened.accepted.grammar) book.opened.typed)) }
{
    match open_head(alloc, role, text) {
        Ok(opened) => Ok(Ok(Book {
            role,
            opened,
            records,
        })),
        Err(HeadFault::NoMemory) => Err(BookStop::NoMemory),
        Err(fault) => Ok(Err(FileFault::Head(fault))),
    }
}

/// Opens the journal in a file, or tells why it is none.
pub fn open_book<P: Pages>(
    alloc: Global,
    pages: &mut P,
) -> Result<Result<Book, FileFault>, BookStop>
    ensures { IfOk result (λ found. IfOk found (λ book. IsMadeFor (grammar_of book.opened.accepted.grammar) book.opened.typed)) }
{
    match Records::begin(alloc, pages) {
        Ok(
            Begun::Whole {
                role,
                text,
                records,
            },
        ) => book_of(alloc, role, &text, records),
        Ok(Begun::Headless { .. }) => Ok(Err(FileFault::Headless)),
        Err(ReadFault::Failed) => Ok(Err(FileFault::Unread)),
        Err(ReadFault::NoMemory) => Err(BookStop::NoMemory),
    }
}
