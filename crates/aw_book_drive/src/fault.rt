//! Why journals were not joined.
use std::alloc::AllocError;

/// Why journals were not joined as far as they fit.
#[derive(Clone, Copy, Debug, PartialEq, Eq)]
pub enum JoinFault {
    /// The journal of this role was not read.
    Unread { role: usize },
    NoMemory,
}

impl From<AllocError> for JoinFault {
    ghost use Rattle.std.specs.Prelude.{◌≡◌};
    ghost use Rattle.aw_book_drive.specs.declared.fault.JoinFault.TheVariants.{NoMemory};

    ghost from_gives = { λ _ e. e ≡ NoMemory };

    fn from(_error: AllocError) -> JoinFault {
        JoinFault::NoMemory
    }
}
