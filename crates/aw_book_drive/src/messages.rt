//! Whether two messages are one, and what a message is about.
ghost use Rattle.std.specs.Prelude.{◌≡◌, IfOk, IsTrue, ◌↔◌};
ghost use Rattle.aw_msg.specs.MessageView.{message_of};
ghost use Rattle.aw_term.specs.Rules.{Grammar};
ghost use Rattle.aw_book_drive.specs.Indexes.{about};

use aw_msg::{Message, MsgKind};
use aw_name::{Ref, Slot, copy_node, copy_ref};
use std::alloc::AllocError;

/// What a message is about.
pub(crate) fn subject_of(m: &Message) -> Result<Ref, AllocError>
    ensures { IfOk result (λ r. (g : Grammar) → r ≡ about (message_of g m.now)) }
{
    match m.kind.get() {
        MsgKind::Call { node, .. } => Ok(Ref {
            node: copy_node(node)?,
            slot: Slot::Result(0),
        }),
        MsgKind::Ask { reference, .. } => copy_ref(reference),
        MsgKind::Tell { equation, .. } => copy_ref(&equation.left),
    }
}

/// Whether two messages are one, with the same load.
pub(crate) fn is_same_message(a: &Message, b: &Message) -> bool
    ensures { IsTrue result ↔ (a.now ≡ b.now) }
{
    a == b
}
