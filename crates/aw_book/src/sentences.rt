//! What is said of a fault, and the status that tells it.
use crate::faults::{BookStop, FileFault, OlderFault};
use aw_book_read::HeadFault;
use thiserror::Error;

/// One sentence on a fault, with the name of the file that it is about.
#[derive(Debug, Drop, Error)]
pub enum Sentence<'a> {
    #[error("{0}: it could not be read")]
    Unread(&'a str),
    #[error("{0}: no head of a journal stands whole at its front")]
    Headless(&'a str),
    #[error("{0}: whole records stand behind those that count: a node would cut them off")]
    Damaged(&'a str),
    #[error("{0}: the specification of its head is refused: {1}")]
    Refused(&'a str, &'a str),
    #[error("{0}: the specification of its head is not as a node writes it")]
    OtherText(&'a str),
    #[error("{0}: the specification of its head declares no role of its number")]
    NoRole(&'a str),
    #[error("{0}: it got shorter since it was read")]
    Shorter(&'a str),
    #[error("{0}: its specification has no sort of that name")]
    NoSort(&'a str),
    #[error("{0}: event {1} is none at its place: a node would not start")]
    NoEvent(&'a str, u64),
    #[error("{0}: the line of the task {1} is longer than 64 MiB, or has no end")]
    LongTask(&'a str, &'a str),
    #[error("{0}: the older copy could not be read")]
    OlderUnread(&'a str),
    #[error("{0}: no head of a journal stands whole at the front of the older copy")]
    OlderHeadless(&'a str),
    #[error("{0}: it does not go on from the older copy")]
    OtherBeginning(&'a str),
    #[error("standard input could not be read")]
    NotAsked,
    #[error("the output could not be written")]
    NotWritten,
    #[error("there was not enough memory")]
    NoMemory,
}

/// The text of a refusal, without its line feed; nothing where it is no text.
fn said(text: &[u8]) -> &str {
    match std::str::from_utf8(text) {
        Ok(text) => text.trim_end(),
        Err(_) => "",
    }
}

/// The sentence on an older copy of a file.
fn older_sentence(name: &str, fault: OlderFault) -> Sentence<'_> {
    match fault {
        OlderFault::Unread => Sentence::OlderUnread(name),
        OlderFault::Headless => Sentence::OlderHeadless(name),
        OlderFault::Other => Sentence::OtherBeginning(name),
    }
}

/// The sentence on a fault of a file.
pub fn sentence_of<'a>(name: &'a str, fault: &'a FileFault) -> Sentence<'a> {
    match fault {
        FileFault::Unread => Sentence::Unread(name),
        FileFault::Shorter => Sentence::Shorter(name),
        FileFault::NoSort => Sentence::NoSort(name),
        FileFault::NoEvent(number) => Sentence::NoEvent(name, *number),
        FileFault::LongTask(task) => Sentence::LongTask(name, said(task.as_slice())),
        FileFault::Older(fault) => older_sentence(name, *fault),
        FileFault::Headless => Sentence::Headless(name),
        FileFault::Damaged => Sentence::Damaged(name),
        FileFault::Head(HeadFault::Refused(reply)) => {
            Sentence::Refused(name, said(reply.text.as_slice()))
        }
        FileFault::Head(HeadFault::OtherText) => Sentence::OtherText(name),
        FileFault::Head(HeadFault::NoRole) => Sentence::NoRole(name),
        FileFault::Head(HeadFault::NoMemory) => Sentence::NoMemory,
    }
}

/// The status of a fault: 1 where something is refused, 3 where a file was not read, 5 where a line is too long.
pub fn status_of(fault: &FileFault) -> u8 {
    match fault {
        FileFault::Headless
        | FileFault::Damaged
        | FileFault::Head(_)
        | FileFault::NoSort
        | FileFault::NoEvent(_)
        | FileFault::Older(OlderFault::Headless | OlderFault::Other) => 1,
        FileFault::Unread | FileFault::Shorter | FileFault::Older(OlderFault::Unread) => 3,
        FileFault::LongTask(_) => 5,
    }
}

/// The sentence on why nothing more is told.
pub fn stop_sentence(stop: BookStop) -> Sentence<'static> {
    match stop {
        BookStop::NotWritten => Sentence::NotWritten,
        BookStop::NotAsked => Sentence::NotAsked,
        BookStop::NoMemory => Sentence::NoMemory,
    }
}

/// The status of that: 3 where standard input was not read, 4 where the output was not written, 5 where there was not enough memory.
pub fn stop_status(stop: BookStop) -> u8 {
    match stop {
        BookStop::NotAsked => 3,
        BookStop::NotWritten => 4,
        BookStop::NoMemory => 5,
    }
}
