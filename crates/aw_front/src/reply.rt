//! What the program says, and the status it says it with.
ghost use Rattle.std.specs.Prelude.{◌≡◌, [], IfOk};
ghost use Rattle.aw_front.specs.Statuses.{code_of};

use aw_list::Text;
use std::alloc::{AllocError, Global};

/// How a run ended.
#[derive(Clone, Copy, Debug, PartialEq, Eq)]
pub enum Status {
    /// The whole output was written.
    Done,
    /// The words are no command.
    Usage,
    /// The input is no good specification.
    BadSpec,
    /// A value of the specification depends on itself.
    Circular,
    /// What stands behind the specification is no good schedule.
    BadSchedule,
    /// The output is longer than its limit.
    TooLarge,
    /// The source failed.
    ReadFault,
    /// The sink failed.
    WriteFault,
    /// The wire failed.
    NetFault,
    /// There was not enough memory.
    NoMemory,
    /// The input is longer than its limit.
    TooLong,
    /// A constructor or a sort has no types, or a term does not fit.
    BadTypes,
    /// The disk failed.
    DiskFault,
    /// The journal is that of another role or specification, or an event in it is none.
    BadJournal,
    /// The journal has no room for its head or for one more event.
    JournalFull,
    /// What a role sent in a reply's place is none.
    BadReply,
}

impl Status {
    /// The program's exit code.
    pub fn code(self) -> u8
        ensures { result ≡ code_of self }
    {
        match self {
            Status::Done => 0,
            Status::Usage => 2,
            Status::BadSpec => 3,
            Status::Circular => 4,
            Status::BadSchedule => 5,
            Status::TooLarge => 6,
            Status::ReadFault => 7,
            Status::WriteFault => 8,
            Status::NetFault => 9,
            Status::NoMemory => 10,
            Status::TooLong => 11,
            Status::DiskFault => 12,
            Status::BadJournal => 13,
            Status::BadReply => 14,
            Status::BadTypes => 15,
            Status::JournalFull => 16,
        }
    }
}

/// What is to be written, and the status that is told once it was written whole.
#[derive(Drop)]
pub struct Reply {
    pub status: Status,
    pub text: Text,
}

impl Reply {
    /// A refusal and its line.
    pub fn line(alloc: Global, status: Status, line: &[u8]) -> Result<Reply, AllocError>
        ensures { IfOk result (λ reply. reply ≡ record { status = status; text = line.now }) }
    {
        Ok(Reply {
            status,
            text: Text::from_bytes(alloc, line)?,
        })
    }

    /// A refusal without a line. It takes no memory.
    pub fn silent(alloc: Global, status: Status) -> Reply
        ensures { result ≡ record { status = status; text = [] } }
    {
        Reply {
            status,
            text: Text::new(alloc),
        }
    }
}
