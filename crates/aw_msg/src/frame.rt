//! Requests to a workspace.
use crate::message::Message;
use aw_choice::Choice;

/// One request: a message that comes, a choice, or a question for a place of the outbox or of the worklist, from 0.
#[derive(Debug, Clone, PartialEq, Eq, Drop)]
pub enum Frame {
    Push(Message),
    Choose(Choice),
    Pull(u64),
    List(u64),
}
