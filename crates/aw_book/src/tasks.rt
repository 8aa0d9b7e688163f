//! The tasks of a journal.
ghost use Rattle.aw_book_join.specs.Replicas.{IsUsable};

use crate::asked::{CaseName, TaskView};
use crate::faults::{BookStop, FileFault};
use crate::reading::{Book, open_book};
use crate::redoing::Redone;
use aw_base::Grammar;
use aw_book_join::{Case, View};
use aw_disk::Pages;
use aw_out::Sink;
use std::alloc::Global;

/// The case of a name, where its sort is declared.
fn case_of(grammar: &Grammar, name: &CaseName) -> Option<Case> {
    match grammar.sort_named(name.sort.as_slice()) {
        Some(sort) => Some(Case {
            sort,
            number: name.number,
        }),
        None => None,
    }
}

/// The tasks that are asked for, where the sort of their case is declared.
pub fn view_of(grammar: &Grammar, asked: &TaskView) -> Option<View> {
    let only_open = asked.only_open;
    match &asked.case {
        None => Some(View {
            case: None,
            only_open,
        }),
        Some(name) => match case_of(grammar, name) {
            Some(case) => Some(View {
                case: Some(case),
                only_open,
            }),
            None => None,
        },
    }
}

/// Reads a journal to its end, and writes its tasks.
fn tell_once<P: Pages, K: Sink>(
    alloc: Global,
    pages: &mut P,
    redone: &mut Redone<'_>,
    view: &View,
    out: &mut K,
) -> Result<Option<FileFault>, BookStop>
    requires { IsUsable redone.old.replica }
{
    match redone.read_on(alloc, pages)? {
        None => redone.write(alloc, view, out),
        Some(fault) => Ok(Some(fault)),
    }
}

/// Writes the tasks of a journal with their values, and how each rule stands at the open ones, as its node has them behind all events.
pub fn tell_tasks<P: Pages, K: Sink>(
    alloc: Global,
    pages: &mut P,
    asked: &TaskView,
    out: &mut K,
) -> Result<Option<FileFault>, BookStop> {
    let Book {
        role,
        opened,
        records,
    } = match open_book(alloc, pages)? {
        Ok(book) => book,
        Err(fault) => return Ok(Some(fault)),
    };
    match view_of(opened.accepted.grammar(), asked) {
        Some(view) => {
            let mut redone = Redone::new(alloc, role, &opened, records);
            tell_once(alloc, pages, &mut redone, &view, out)
        }
        None => Ok(Some(FileFault::NoSort)),
    }
}
