//! The delivery of a message in a world.
ghost use Rattle.std.specs.Prelude.{◌≡◌, ◌<◌, ◌≤◌, ℕ, Some, None, IfOk, OnErr, length, map as list_map};
ghost use Rattle.aw_world.specs.Marked.{DeliversTo, StaysSeenForAllTaken};
ghost use Rattle.aw_world.specs.Seen.{ArePlaced, AreAddressed, TakesInAt, reply_for};

use crate::marks::Marks;
use crate::moves::Reply;
use crate::workspace::Workspace;
use aw_accept::Accepted;
use aw_msg::{Message, Messages, copy_message};
use std::alloc::AllocError;

/// Takes in a message at the workspace of a role.
fn receive_at<W: Workspace>(
    _accepted: &Accepted,
    sites: &mut Vec<W>,
    at: usize,
    message: &Message,
    messages: &mut Messages,
) -> Result<bool, AllocError>
    requires placed { ArePlaced ⟦<W as Workspace>⟧ _accepted.now.grammar sites.old.items }
    requires at { at < length sites.old.items }
    ensures placed { ArePlaced ⟦<W as Workspace>⟧ _accepted.now.grammar sites.new.items }
    ensures grows { length messages.old ≤ length messages.new }
    ensures got { IfOk result (λ new. TakesInAt ⟦<W as Workspace>⟧ _accepted.now.grammar sites.old.items sites.new.items at messages.old messages.new message.now new) }
    ensures err { OnErr result (list_map (λ w. W.seen w) sites.new.items ≡ list_map (λ w. W.seen w) sites.old.items) }
    ensures err_messages { OnErr result (messages.new ≡ messages.old) }
{
    let site = &mut sites[at];
    let new = site.receive_into(message, messages)?;
    Ok(new)
}

/// The place of the message with a number; none where there is none.
fn place(messages: &Messages, number: u64) -> Option<usize>
    ensures none { result ≡ None → length messages.now ≤ number }
    ensures some { (at : ℕ) → result ≡ Some at → (at ≡ number) × (at < length messages.now) }
{
    let at = usize::try_from(number).ok()?;
    if at < messages.len() { Some(at) } else { None }
}

/// Delivers the message at a place. An error changes nothing.
pub fn deliver_at<W: Workspace>(
    accepted: &Accepted,
    sites: &mut Vec<W>,
    messages: &mut Messages,
    marks: &mut Marks,
    at: usize,
) -> Result<bool, AllocError>
    requires placed { ArePlaced ⟦<W as Workspace>⟧ accepted.now.grammar sites.old.items }
    requires addressed { AreAddressed sites.old.items messages.old }
    requires marked { length marks.old.delivered.items ≤ length messages.old }
    requires at { at < length messages.old }
    ensures placed { ArePlaced ⟦<W as Workspace>⟧ accepted.now.grammar sites.new.items }
    ensures marked { length marks.new.delivered.items ≤ length messages.new }
    ensures steps { IfOk result (λ new. DeliversTo ⟦<W as Workspace>⟧ accepted.now.grammar sites.old.items messages.old marks.old sites.new.items messages.new marks.new at (reply_for new)) }
    ensures err { OnErr result (StaysSeenForAllTaken ⟦<W as Workspace>⟧ accepted.now.grammar sites.old.items messages.old marks.old sites.new.items messages.new marks.new) }
{
    let message = copy_message(messages.at(at))?;
    marks.pad(at)?;
    let new = receive_at(accepted, sites, usize::from(message.to), &message, messages)?;
    marks.mark(at);
    Ok(new)
}

/// Delivers the message with a number, where there is one. An error changes nothing.
pub fn deliver<W: Workspace>(
    accepted: &Accepted,
    sites: &mut Vec<W>,
    messages: &mut Messages,
    marks: &mut Marks,
    number: u64,
) -> Result<Reply, AllocError>
    requires placed { ArePlaced ⟦<W as Workspace>⟧ accepted.now.grammar sites.old.items }
    requires addressed { AreAddressed sites.old.items messages.old }
    requires marked { length marks.old.delivered.items ≤ length messages.old }
    ensures placed { ArePlaced ⟦<W as Workspace>⟧ accepted.now.grammar sites.new.items }
    ensures marked { length marks.new.delivered.items ≤ length messages.new }
    ensures steps { IfOk result (λ r. DeliversTo ⟦<W as Workspace>⟧ accepted.now.grammar sites.old.items messages.old marks.old sites.new.items messages.new marks.new number r) }
    ensures err { OnErr result (StaysSeenForAllTaken ⟦<W as Workspace>⟧ accepted.now.grammar sites.old.items messages.old marks.old sites.new.items messages.new marks.new) }
{
    match place(messages, number) {
        Some(at) => {
            if deliver_at(accepted, sites, messages, marks, at)? {
                Ok(Reply::New)
            } else {
                Ok(Reply::Again)
            }
        }
        None => Ok(Reply::NoMessage),
    }
}
