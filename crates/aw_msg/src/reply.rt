//! Replies of a workspace.
use crate::message;
use aw_choice::{Answer, Item};
use aw_store::Content;

/// The reply to one request, in the order of their kinds from 1.
#[derive(Debug, PartialEq, Eq, Drop)]
pub enum Answered {
    /// The message that came was new.
    New,
    /// The message that came was held already.
    Again,
    /// The message that came contradicts what is held.
    Conflict { kept: Content, came: Content },
    /// What the message or the choice names belongs to another role.
    NotMine,
    /// The message or the choice names what is not valid.
    BadName,
    /// The answer to a choice.
    Answer(Answer),
    /// The message at a place of the outbox.
    Message(message::Message),
    /// More bytes came than a session may have.
    TooLong,
    /// No frame stands where one is to begin.
    BadFrame,
    /// Past the end; so many there are.
    Nothing(u64),
    /// The item at a place of the worklist.
    Item(Item),
}
