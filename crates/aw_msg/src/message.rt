//! Messages between workspaces.
ghost use Rattle.std.specs.Prelude.{◌≡◌, IfOk};

use aw_list::{Counted, Items};
use aw_name::{Node, Ref, Refs};
use aw_store::{Equation, Equations};
use std::alloc::{AllocError, Global};

/// What one workspace tells another, by position of its role in the specification. Its copies share what it says.
#[derive(Debug, Clone, PartialEq, Eq, Drop)]
pub struct Message {
    pub to: u16,
    pub kind: Counted<MsgKind>,
}

/// A subtask with the references that it inherits; a question for an equation, with the role that asks; or an equation. A subtask and an
/// equation come with a load: equations that the receiver may soon need.
#[derive(Debug, PartialEq, Eq, Drop)]
pub enum MsgKind {
    Call {
        node: Node,
        inherited: Refs,
        load: Equations,
    },
    Ask {
        reference: Ref,
        from: u16,
    },
    Tell {
        equation: Equation,
        load: Equations,
    },
}

/// Messages in their order, as those of an outbox.
pub type Messages = Items<Message>;

impl Message {
    /// A message of this kind for a role.
    pub fn new(alloc: Global, to: u16, kind: MsgKind) -> Result<Message, AllocError>
        ensures { IfOk result (λ m. m ≡ record { to = to; kind = kind }) }
    {
        Ok(Message {
            to,
            kind: Counted::new(alloc, kind)?,
        })
    }
}

/// A copy of a message. It takes no memory.
pub fn copy_message(m: &Message) -> Result<Message, AllocError>
    ensures { IfOk result (λ c. c ≡ m.now) }
{
    Ok(Message {
        to: m.to,
        kind: m.kind.clone()?,
    })
}
