//! Why tasks were not written.
ghost use Rattle.std.specs.Prelude.{◌≡◌};

use aw_name::Node;
use aw_out::WriteError;
use std::alloc::AllocError;

/// Why tasks were not written, or not all.
#[derive(Debug, Drop)]
pub enum TasksFault {
    /// The sink failed.
    WriteFault,
    /// The line of this task is longer than `LINE_LIMIT`, perhaps without an end.
    TooLong(Node),
    NoMemory,
}

impl From<WriteError> for TasksFault {
    ghost use Rattle.aw_book_join.specs.declared.fault.TasksFault.TheVariants.{WriteFault};

    ghost from_gives = { λ _ e. e ≡ WriteFault };

    fn from(_error: WriteError) -> TasksFault {
        TasksFault::WriteFault
    }
}

impl From<AllocError> for TasksFault {
    ghost use Rattle.aw_book_join.specs.declared.fault.TasksFault.TheVariants.{NoMemory};

    ghost from_gives = { λ _ e. e ≡ NoMemory };

    fn from(_error: AllocError) -> TasksFault {
        TasksFault::NoMemory
    }
}
