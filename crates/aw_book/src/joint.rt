//! What is asked of the journals of all roles, and what is told of them.
use crate::faults::{BookStop, FileFault};
use crate::printable::push_printable;
use crate::sentences::{sentence_of, status_of};
use aw_journal::ReadFault;
use aw_list::Text;
use aw_spelling::push_number;
use std::alloc::{AllocError, Global};

/// What is written of joined journals.
#[derive(Clone, Copy, Debug, PartialEq, Eq)]
pub enum Written {
    /// Their text: the specification and the events in an order in which they can have come. Behind them all messages are delivered, where it is
    /// settled.
    Text { settled: bool },
    /// The lines of the cases, once all messages came; those of open tasks alone, or all.
    Cases { open: bool },
}

/// What is asked of the journals of all roles.
#[derive(Drop)]
pub struct JointAsked<'a> {
    pub written: Written,
    /// The events of one case alone: the name of its sort, and its number.
    pub case: Option<(&'a str, u64)>,
    /// Roles that have no journal, where nothing happened.
    pub without: Vec<&'a str>,
    /// Older copies of the journals, which count as their first readings; none where the files themselves are read twice.
    pub older: Vec<&'a str>,
    /// As far as they fit, where they do not fit whole.
    pub reach: bool,
}

/// Sentences on what is wrong, a line for each, and the greatest of their statuses.
#[derive(Drop)]
pub struct Said {
    pub text: Text,
    pub status: u8,
}

impl Said {
    /// Nothing is wrong.
    pub fn new(alloc: Global) -> Said {
        Said {
            text: Text::new(alloc),
            status: 0,
        }
    }

    /// Where the sentences take their memory from.
    pub fn allocator(&self) -> Global {
        self.text.allocator()
    }

    /// Adds a piece of a sentence.
    pub fn push(&mut self, piece: &str) -> Result<(), AllocError> {
        self.text.push_bytes(piece.as_bytes())
    }

    /// Adds a number.
    pub fn push_count(&mut self, number: u64) -> Result<(), AllocError> {
        push_number(&mut self.text, number)
    }

    /// Adds a piece that may have any bytes.
    pub fn push_any(&mut self, piece: &[u8]) -> Result<(), AllocError> {
        push_printable(&mut self.text, piece)
    }

    /// Ends a sentence of this status.
    pub fn end(&mut self, status: u8) -> Result<(), AllocError> {
        self.text.push(b'\n')?;
        self.status = self.status.max(status);
        Ok(())
    }

    /// A sentence on a fault of a file.
    pub fn push_fault(
        &mut self,
        alloc: Global,
        name: &str,
        fault: &FileFault,
    ) -> Result<(), AllocError> {
        let sentence = format!(in alloc; "{}", sentence_of(name, fault))?;
        self.push(sentence.as_str())?;
        self.end(status_of(fault))
    }
}

/// What is wrong with a file that was not read, where its reader tells that.
pub fn unread(fault: ReadFault) -> Result<FileFault, BookStop> {
    match fault {
        ReadFault::Failed => Ok(FileFault::Unread),
        ReadFault::NoMemory => Err(BookStop::NoMemory),
    }
}
