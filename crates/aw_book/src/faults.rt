//! What is wrong with a journal, and why nothing more is told.
ghost use Rattle.std.specs.Prelude.{◌≡◌};
ghost use Rattle.aw_book.specs.declared.faults.BookStop.TheVariants.{NoMemory, NotWritten};

use aw_book_read::HeadFault;
use aw_list::Text;
use aw_out::WriteError;
use std::alloc::AllocError;

/// What is wrong with a file.
#[derive(Drop)]
pub enum FileFault {
    /// A call failed: the file was not read, or not to its end.
    Unread,
    /// It got shorter since it was read.
    Shorter,
    /// No head stands whole at its front.
    Headless,
    /// Whole records stand behind those that count.
    Damaged,
    /// Its head opens nothing that a node would serve.
    Head(HeadFault),
    /// Its specification has no sort of the name that was asked for.
    NoSort,
    /// The event with this number, from 1, is none at its place: a node would not start.
    NoEvent(u64),
    /// The line of the task of this name is too long.
    LongTask(Text),
    /// It does not go on from the older copy that was named.
    Older(OlderFault),
}

/// Why a file is not seen to go on from an older copy of it.
#[derive(Clone, Copy, Debug, PartialEq, Eq)]
pub enum OlderFault {
    /// A call failed: the copy was not read, or not to its end.
    Unread,
    /// No head stands whole at its front.
    Headless,
    /// The file begins otherwise.
    Other,
}

/// Why nothing more is told.
#[derive(Clone, Copy, Debug, PartialEq, Eq)]
pub enum BookStop {
    /// The source of what is asked failed.
    NotAsked,
    /// The sink failed.
    NotWritten,
    /// There was not enough memory.
    NoMemory,
}

impl From<AllocError> for BookStop {
    ghost from_gives = { λ _ stop. stop ≡ NoMemory };

    fn from(_error: AllocError) -> BookStop {
        BookStop::NoMemory
    }
}

impl From<WriteError> for BookStop {
    ghost from_gives = { λ _ stop. stop ≡ NotWritten };

    fn from(_error: WriteError) -> BookStop {
        BookStop::NotWritten
    }
}
