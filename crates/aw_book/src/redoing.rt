//! The events of a journal, done again as its node does them when it is started.
ghost use Rattle.std.specs.Prelude.{◌≡◌};
ghost use Rattle.aw_grammar.specs.GrammarOf.{grammar_of};
ghost use Rattle.aw_typed.specs.Typing.{IsMadeFor};
ghost use Rattle.aw_book_join.specs.Replicas.{IsUsable};

use crate::faults::{BookStop, FileFault};
use crate::reading::{Book, open_book};
use aw_base::{Grammar, node_text};
use aw_book_join::{Replica, TasksFault, View};
use aw_disk::Pages;
use aw_front::Opened;
use aw_journal::{ReadFault, Records};
use aw_out::{Got, Sink};
use std::alloc::Global;

/// What the events of a journal make, so far as it was read.
#[derive(Drop)]
pub struct Redone<'g> {
    pub grammar: &'g Grammar,
    pub records: Records,
    pub replica: Replica<'g>,
    /// How many events were done again.
    pub count: u64,
}

impl<'g> Redone<'g> {
    /// No event was read.
    pub fn new(alloc: Global, role: u16, opened: &'g Opened, records: Records) -> Redone<'g>
        requires { IsMadeFor (grammar_of opened.now.accepted.grammar) opened.now.typed }
        ensures usable { IsUsable result.replica }
    {
        Redone {
            grammar: opened.accepted.grammar(),
            records,
            replica: Replica::new(alloc, &opened.accepted, &opened.typed, role),
            count: 0,
        }
    }

    /// Reads the events behind those that were read, and does them again. Where one is none, that is told.
    pub fn read_on<P: Pages>(
        &mut self,
        alloc: Global,
        pages: &mut P,
    ) -> Result<Option<FileFault>, BookStop>
        requires { IsUsable self.old.replica }
        ensures usable { IsUsable self.new.replica }
    {
        'events: loop {
            match self.records.next(alloc, pages) {
                Ok(Some(event)) => {
                    let number = self.count.saturating_add(1);
                    if !self.replica.redo(&event)? {
                        return Ok(Some(FileFault::NoEvent(number)));
                    }
                    self.count = number;
                }
                Ok(None) => return Ok(None),
                Err(ReadFault::Failed) => return Ok(Some(FileFault::Unread)),
                Err(ReadFault::NoMemory) => return Err(BookStop::NoMemory),
            }
        }
    }

    /// Lets go of what is held of the file, and tells where it got so short that the last gate is gone.
    pub fn look_again<P: Pages>(&mut self, pages: &mut P) -> Option<FileFault>
        ensures { self.new.replica ≡ self.old.replica }
    {
        self.records.forget();
        let mut byte = [0u8; 1];
        match pages.read_at(self.records.place(), &mut byte) {
            Got::Read(_) => None,
            Got::End => Some(FileFault::Shorter),
            Got::Failed => Some(FileFault::Unread),
        }
    }

    /// Writes the tasks, and tells where the line of one is too long.
    pub fn write<K: Sink>(
        &self,
        alloc: Global,
        view: &View,
        out: &mut K,
    ) -> Result<Option<FileFault>, BookStop>
        requires { IsUsable self.now.replica }
    {
        match self.replica.write_tasks(alloc, view, out) {
            Ok(()) => Ok(None),
            Err(TasksFault::TooLong(node)) => {
                let name = node_text(alloc, self.grammar, &node)?;
                Ok(Some(FileFault::LongTask(name)))
            }
            Err(TasksFault::WriteFault) => Err(BookStop::NotWritten),
            Err(TasksFault::NoMemory) => Err(BookStop::NoMemory),
        }
    }
}

/// Does all events of a journal again, and tells where one is none. A file without a head has no event.
pub fn redo_all<P: Pages>(alloc: Global, pages: &mut P) -> Result<Option<FileFault>, BookStop> {
    match open_book(alloc, pages)? {
        Ok(
            Book {
                role,
                opened,
                records,
            },
        ) => {
            let mut redone = Redone::new(alloc, role, &opened, records);
            redone.read_on(alloc, pages)
        }
        Err(FileFault::Headless) => Ok(None),
        Err(fault) => Ok(Some(fault)),
    }
}
