//! The tasks of a journal, told again and again.
ghost use Rattle.aw_book_join.specs.Replicas.{IsUsable};

use crate::asked::TaskView;
use crate::faults::{BookStop, FileFault};
use crate::reading::{Book, open_book};
use crate::redoing::Redone;
use crate::tasks::view_of;
use aw_book_join::View;
use aw_disk::Pages;
use aw_out::{Got, Sink, Source, write_all};
use std::alloc::Global;

/// Reads on in a journal, and writes its tasks and an empty line.
fn answer<P: Pages, K: Sink>(
    alloc: Global,
    pages: &mut P,
    redone: &mut Redone<'_>,
    view: &View,
    out: &mut K,
) -> Result<Option<FileFault>, BookStop>
    requires { IsUsable redone.old.replica }
    ensures usable { IsUsable redone.new.replica }
{
    if let Some(fault) = redone.look_again(pages) {
        return Ok(Some(fault));
    }
    if let Some(fault) = redone.read_on(alloc, pages)? {
        return Ok(Some(fault));
    }
    if let Some(fault) = redone.write(alloc, view, out)? {
        return Ok(Some(fault));
    }
    write_all(out, b"\n")?;
    Ok(None)
}

/// Answers once, and once more after each line that comes.
fn answer_each<P: Pages, S: Source, K: Sink>(
    alloc: Global,
    pages: &mut P,
    redone: &mut Redone<'_>,
    view: &View,
    asks: &mut S,
    out: &mut K,
) -> Result<Option<FileFault>, BookStop>
    requires { IsUsable redone.old.replica }
{
    let mut byte = *b"\n";
    'asks: for _ in 0..u64::MAX {
        if byte == *b"\n" {
            if let Some(fault) = answer(alloc, pages, redone, view, out)? {
                return Ok(Some(fault));
            }
        }
        match asks.read(&mut byte) {
            Got::Read(_) => {}
            Got::End => return Ok(None),
            Got::Failed => return Err(BookStop::NotAsked),
        }
    }
    Ok(None)
}

/// Writes the tasks of a journal and an empty line, and again after each line that comes, when it reads on from where it was.
pub fn follow_tasks<P: Pages, S: Source, K: Sink>(
    alloc: Global,
    pages: &mut P,
    asked: &TaskView,
    asks: &mut S,
    out: &mut K,
) -> Result<Option<FileFault>, BookStop> {
    let Book {
        role,
        opened,
        records,
    } = match open_book(alloc, pages)? {
        Ok(book) => book,
        Err(fault) => return Ok(Some(fault)),
    };
    match view_of(opened.accepted.grammar(), asked) {
        Some(view) => {
            let mut redone = Redone::new(alloc, role, &opened, records);
            answer_each(alloc, pages, &mut redone, &view, asks, out)
        }
        None => Ok(Some(FileFault::NoSort)),
    }
}
