//! Why a kept workspace is served no further.
ghost use Rattle.std.specs.Prelude.{◌≡◌};

use aw_journal::{AppendFault, OpenFault};
use std::alloc::AllocError;

/// Why no further session was served.
#[derive(Clone, Copy, Debug, PartialEq, Eq)]
pub enum KeptFault {
    /// The next session could not be opened.
    NetFault,
    /// A call of the disk failed.
    DiskFault,
    /// The file has the head of another role or specification.
    BadHead,
    /// The event of this number, from 0, is not taken, or not new, when its turn comes.
    BadEvent { number: u64 },
    /// The head, or the record of an event, would end past the limit.
    Full,
    NoMemory,
}

impl From<AllocError> for KeptFault {
    ghost use Rattle.aw_kept_node.specs.declared.fault.KeptFault.TheVariants.{NoMemory};

    ghost from_gives = { λ _ e. e ≡ NoMemory };

    fn from(_: AllocError) -> Self {
        KeptFault::NoMemory
    }
}

impl From<OpenFault> for KeptFault {
    ghost use Rattle.aw_kept_node.specs.Faults.{of_opening};

    ghost from_gives = { λ fault e. e ≡ of_opening fault };

    fn from(fault: OpenFault) -> Self {
        match fault {
            OpenFault::DiskFault => KeptFault::DiskFault,
            OpenFault::BadHead => KeptFault::BadHead,
            OpenFault::Full => KeptFault::Full,
            OpenFault::NoMemory => KeptFault::NoMemory,
        }
    }
}

impl From<AppendFault> for KeptFault {
    ghost use Rattle.aw_kept_node.specs.Faults.{of_append};

    ghost from_gives = { λ fault e. e ≡ of_append fault };

    fn from(fault: AppendFault) -> Self {
        match fault {
            AppendFault::DiskFault => KeptFault::DiskFault,
            AppendFault::Full => KeptFault::Full,
            AppendFault::NoMemory => KeptFault::NoMemory,
        }
    }
}
