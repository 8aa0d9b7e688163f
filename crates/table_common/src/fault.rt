//! Why a table is not told.
use std::alloc::{AllocError, AllocFailed};

/// Why a table is not told.
#[derive(Clone, Copy, Debug, PartialEq, Eq)]
pub enum TableFault {
    /// The specification or an entry has not its form.
    Unreadable,
    /// Memory ran out.
    NoMemory,
}

impl From<AllocError> for TableFault {
    fn from(_failed: AllocError) -> TableFault {
        TableFault::NoMemory
    }
}

impl<T: Drop> From<AllocFailed<T>> for TableFault {
    fn from(_failed: AllocFailed<T>) -> TableFault {
        TableFault::NoMemory
    }
}

impl TableFault {
    /// The status of a program that tells nothing for it: 1 where the input has not its form, and 10 where memory ran out.
    pub(crate) fn status(self) -> u8 {
        match self {
            TableFault::Unreadable => 1,
            TableFault::NoMemory => 10,
        }
    }
}
