//! The role from which a message comes.
ghost use Rattle.std.specs.Prelude.{◌≡◌, ◌≤◌, length, IfOk};
ghost use Rattle.aw_grammar.specs.GrammarOf.{grammar_of};
ghost use Rattle.aw_law_sites.specs.Homes.{front, parent};
ghost use Rattle.aw_law_worlds.specs.Invariant.{sender};
ghost use Rattle.aw_msg.specs.MessageView.{message_of};
ghost use Rattle.aw_name.specs.Limits.{most_steps};

use crate::choices::role_at;
use aw_grammar::Grammar;
use aw_msg::{Message, MsgKind};
use aw_name::{Node, Step, Trail};
use std::alloc::{AllocError, Global};

/// All steps but the last.
fn front_of(alloc: Global, steps: &[Step]) -> Result<Trail, AllocError>
    requires { length steps.now ≤ most_steps }
    ensures { IfOk result (λ t. t ≡ front steps.now) }
{
    let count = steps.len().saturating_sub(1);
    Trail::from_vec(steps[..count].to_vec(alloc)?)
}

/// The node of which this one is a child.
fn parent_of(alloc: Global, node: &Node) -> Result<Node, AllocError>
    ensures { IfOk result (λ n. n ≡ parent node.now) }
{
    let steps = front_of(alloc, node.steps.as_slice())?;
    Ok(Node {
        start: node.start,
        case: node.case,
        steps,
    })
}

/// The role whose workspace sends a message, if any does: that of the node that makes a call, the one that asks, and that of a told equation's node.
pub fn sender_of(alloc: Global, g: &Grammar, m: &Message) -> Result<u16, AllocError>
    ensures { IfOk result (λ role. role ≡ sender (grammar_of g.now) (message_of (grammar_of g.now) m.now).kind) }
{
    match m.kind.get() {
        MsgKind::Call { node, .. } => Ok(role_at(g, &parent_of(alloc, node)?)),
        MsgKind::Ask { from, .. } => Ok(*from),
        MsgKind::Tell { equation, .. } => Ok(role_at(g, &equation.left.node)),
    }
}
