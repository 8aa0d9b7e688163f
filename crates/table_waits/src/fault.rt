//! Why an entry is not told.
use aw_out::PrintFault;
use std::alloc::AllocError;

/// Why an entry is not told.
#[derive(Clone, Copy)]
pub enum EntryFault {
    /// The specification is not accepted, or the schedule not read.
    Unreadable,
    /// Memory ran out.
    NoMemory,
}

impl From<AllocError> for EntryFault {
    fn from(_failed: AllocError) -> EntryFault {
        EntryFault::NoMemory
    }
}

impl From<PrintFault> for EntryFault {
    fn from(fault: PrintFault) -> EntryFault {
        match fault {
            PrintFault::TooLarge => EntryFault::Unreadable,
            PrintFault::NoMemory => EntryFault::NoMemory,
        }
    }
}
