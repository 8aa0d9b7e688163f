//! Why no value stands at the front of some bytes, with the place of the fault.
ghost use Rattle.std.specs.Prelude.{◌≡◌};
ghost use Rattle.aw_codec.specs.Placed.{placed_fault};

use crate::unread::Unread;

/// Why no message or choice stands at the front of some bytes.
#[derive(Clone, Copy, Debug, PartialEq, Eq)]
pub enum MsgFault {
    /// Fewer bytes are left than the next item has.
    Short,
    /// An item breaks its rule; `at` is the place of its first byte, counted from 0.
    Bad { at: usize },
    /// Memory ran out.
    NoMemory,
}

/// The same fault with its place among so many bytes.
pub fn fault_at(whole: usize, unread: Unread) -> MsgFault
    ensures { result ≡ placed_fault whole unread }
{
    match unread {
        Unread::Short => MsgFault::Short,
        Unread::Bad { left } => MsgFault::Bad {
            at: whole.saturating_sub(left),
        },
        Unread::NoMemory => MsgFault::NoMemory,
    }
}
