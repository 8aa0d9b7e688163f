//! Why a run stops without a reply.
ghost use Rattle.std.specs.Prelude.{◌≡◌};
ghost use Rattle.aw_run.specs.Statuses.{status_of_stop, stop_of};

use aw_front::Status;
use aw_kept_node::KeptFault;
use std::alloc::AllocError;

/// Why there is nothing to say.
#[derive(Clone, Copy, Debug, PartialEq, Eq)]
pub enum Stop {
    ReadFault,
    NetFault,
    DiskFault,
    BadJournal,
    JournalFull,
    NoMemory,
}

impl Stop {
    /// The status that tells it.
    pub fn status(self) -> Status
        ensures { result ≡ status_of_stop self }
    {
        match self {
            Stop::ReadFault => Status::ReadFault,
            Stop::NetFault => Status::NetFault,
            Stop::DiskFault => Status::DiskFault,
            Stop::BadJournal => Status::BadJournal,
            Stop::JournalFull => Status::JournalFull,
            Stop::NoMemory => Status::NoMemory,
        }
    }
}

impl From<AllocError> for Stop {
    ghost from_gives = { λ _ stop. stop ≡ StopNoMemory };

    fn from(_error: AllocError) -> Stop {
        Stop::NoMemory
    }
}

impl From<KeptFault> for Stop {
    ghost from_gives = { λ fault stop. stop ≡ stop_of fault };

    fn from(fault: KeptFault) -> Stop {
        match fault {
            KeptFault::NetFault => Stop::NetFault,
            KeptFault::DiskFault => Stop::DiskFault,
            KeptFault::BadHead | KeptFault::BadEvent { .. } => Stop::BadJournal,
            KeptFault::Full => Stop::JournalFull,
            KeptFault::NoMemory => Stop::NoMemory,
        }
    }
}

ghost use Rattle.aw_run.specs.declared.reply.Stop.TheVariants.{NoMemory as StopNoMemory};
