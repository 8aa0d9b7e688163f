//! The events of a journal in a file.
ghost use Rattle.aw_book_drive.specs.JournalSources.{JournalGives};
ghost use Rattle.aw_book_drive.specs.SourceLaws.{journal_some};

use crate::source::{EventSource, SourceFault};
use aw_disk::Pages;
use aw_journal::{NodeEvent, ReadFault, Records};
use std::alloc::Global;

/// The events of a journal in a file, from where a reader of its records stands.
#[derive(Drop)]
pub struct JournalSource<P> {
    pub pages: P,
    pub records: Records,
}

impl<P: Pages + Drop> EventSource for JournalSource<P> {
    ghost gives = { λ s events. JournalGives ⟦<P as Pages>⟧ s events };

    ghost faults = { λ s. P.faults s.pages };

    fn next(&mut self, alloc: Global) -> Result<Option<NodeEvent>, SourceFault> {
        match self.records.next(alloc, &mut self.pages) {
            Ok(found) => Ok(found),
            Err(ReadFault::Failed) => Err(SourceFault::Unread),
            Err(ReadFault::NoMemory) => Err(SourceFault::NoMemory),
        }
    }

    ghost some = { λ s. journal_some ⟦<P as Pages>⟧ s };
}
