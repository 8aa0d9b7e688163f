//! Why an entry is not told.
use aw_codec::{MsgFault, Unread};
use std::alloc::AllocError;
use table_common::TableFault;

/// Why an entry is not told.
#[derive(Clone, Copy)]
pub enum EntryFault {
    /// An entry has none of the forms.
    Unreadable,
    /// Memory ran out.
    NoMemory,
}

impl From<AllocError> for EntryFault {
    fn from(_failed: AllocError) -> EntryFault {
        EntryFault::NoMemory
    }
}

impl From<TableFault> for EntryFault {
    fn from(fault: TableFault) -> EntryFault {
        match fault {
            TableFault::Unreadable => EntryFault::Unreadable,
            TableFault::NoMemory => EntryFault::NoMemory,
        }
    }
}

impl From<Unread> for EntryFault {
    fn from(unread: Unread) -> EntryFault {
        match unread {
            Unread::NoMemory => EntryFault::NoMemory,
            Unread::Short | Unread::Bad { .. } => EntryFault::Unreadable,
        }
    }
}

impl From<MsgFault> for EntryFault {
    fn from(fault: MsgFault) -> EntryFault {
        match fault {
            MsgFault::NoMemory => EntryFault::NoMemory,
            MsgFault::Short | MsgFault::Bad { .. } => EntryFault::Unreadable,
        }
    }
}

impl From<EntryFault> for TableFault {
    fn from(fault: EntryFault) -> TableFault {
        match fault {
            EntryFault::Unreadable => TableFault::Unreadable,
            EntryFault::NoMemory => TableFault::NoMemory,
        }
    }
}
