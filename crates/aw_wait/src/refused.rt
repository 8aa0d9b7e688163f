//! Grammars that are free of waiting, and why one is not.
ghost use Rattle.std.specs.Prelude.{◌≡◌};
ghost use Rattle.aw_wait.specs.declared.refused.WaitFault.TheVariants.{NoMemory};

use aw_iograph::{Io, Occ};
use std::alloc::AllocError;

/// The waiting relations of the sorts of a grammar. That no node ever waits for itself there is said by `accept_waits`, which returns
/// them, and not by this type.
#[derive(Debug, Drop)]
pub struct WaitFree {
    pub waiting: Io,
}

/// Why a grammar is not free of waiting.
#[derive(Debug, Drop)]
pub enum WaitFault {
    /// The least rule in which an occurrence reaches itself, and its least such occurrence.
    Circle { rule: u16, occ: Occ },
    /// Want of memory.
    NoMemory,
}

impl From<AllocError> for WaitFault {
    ghost from_gives = { λ _ e. e ≡ NoMemory };

    fn from(_fault: AllocError) -> WaitFault {
        WaitFault::NoMemory
    }
}
