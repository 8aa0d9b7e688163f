//! Answers to messages.
use aw_store::Content;

/// What a site answers to a message; the first that holds.
#[derive(Debug, PartialEq, Eq, Drop)]
pub enum Received {
    /// A name in it is not valid, or it may not come to this role.
    BadName,
    /// It is about nothing of this role.
    NotMine,
    /// It contradicts what is held, or what stands earlier in it.
    Conflict { kept: Content, came: Content },
    /// Nothing of it is new.
    Repeat,
    /// Something of it was new; how many messages were sent.
    New(usize),
}
