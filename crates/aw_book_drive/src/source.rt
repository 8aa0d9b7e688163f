//! Where the events of a role's journal come from, one after the other.
ghost use Rattle.std.specs.Prelude.{ℕ, List, IfOk, ⊤, MatchOption};
ghost use Rattle.aw_journal.specs.Events.{Event, IsEvent};
ghost use Rattle.aw_journal.specs.EventView.{event_of};
ghost use Rattle.aw_book_drive.specs.Sources.{Gives, CountsReads};

use aw_journal::NodeEvent;
use std::alloc::{AllocError, Global};

/// Why no event came.
#[derive(Clone, Copy, Debug, PartialEq, Eq)]
pub enum SourceFault {
    /// What it reads failed.
    Unread,
    NoMemory,
}

impl From<AllocError> for SourceFault {
    ghost use Rattle.std.specs.Prelude.{◌≡◌};
    ghost use Rattle.aw_book_drive.specs.declared.source.SourceFault.TheVariants.{NoMemory};

    ghost from_gives = { λ _ e. e ≡ NoMemory };

    fn from(_error: AllocError) -> SourceFault {
        SourceFault::NoMemory
    }
}

/// The events of one role's journal, in their order. They are read as they are asked for.
pub trait EventSource: Drop {
    /// These can be its events from the next one on. Where what it reads is told, they are the only ones that can.
    ghost gives: { Self → List Event → Type 0 };

    /// How many of its reads failed.
    ghost faults: { Self → ℕ };

    /// The next event; `None` where there is no other.
    fn next(&mut self, alloc: Global) -> Result<Option<NodeEvent>, SourceFault>
        ensures given { IfOk result (Gives gives self.old self.new) }
        ensures event { IfOk result (λ found. MatchOption found ⊤ (λ e. IsEvent (event_of e))) }
        ensures counts { CountsReads (faults self.old) (faults self.new) result };

    /// It can give some.
    ghost some: { (s : Self) → (events : List Event) × gives s events };
}
