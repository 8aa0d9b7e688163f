//! What is told of each session.
use aw_list::Items;

/// How a session ended.
#[derive(Clone, Copy, Debug, PartialEq, Eq)]
pub enum How {
    /// The input ended between two frames.
    End,
    /// The input ended within a frame.
    Cut,
    /// No frame stood where one was to begin.
    Bad,
    /// More bytes came than a session may have.
    Long,
    /// A read or a write failed.
    Fault,
}

/// How many frames of a session got a reply, and how it ended.
#[derive(Clone, Copy, Debug, PartialEq, Eq)]
pub struct SessionLog {
    pub frames: u64,
    pub how: How,
}

/// Sessions in the order in which they came.
pub type Log = Items<SessionLog>;
